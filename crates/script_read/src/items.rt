//! The items of a manifest.

use crate::file_names::FileName;
use arrayvec::ArrayVec;
use dt_model::{Coords, List, MOST_ORDER, Name};

/// What a line of a manifest asks for.
#[derive(Debug, Drop, PartialEq, Eq)]
pub enum Item {
    /// `schema FILE`: a file of schemas.
    Schema {
        file: FileName,
    },
    /// `tensor NAME D.. as S.. latches L`: a tensor, with the schema of each mode by name.
    Tensor {
        name: Name,
        dims: Coords,
        formats: ArrayVec<Name, MOST_ORDER>,
        latches: u32,
    },
    /// `load NAME FILE`: the lines of a file are added to a tensor.
    Load {
        name: Name,
        file: FileName,
    },
    /// `session FILE`: the next session, with its script.
    Session {
        file: FileName,
    },
    /// `print NAME`: the tensor is printed after the run.
    Print {
        name: Name,
    },
}

/// The items of a manifest in order, each with the number of its line, counted from 1.
pub type Manifest = List<(u32, Item)>;
