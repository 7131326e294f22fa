//! The schemas that are timed.
use arrayvec::ArrayVec;
use dt_model::{Kind, Links, Name, Schema};
use insert_gen::{InsertCode, derive_insert};
use iter_gen::{WalkCode, derive_walk};
use schema_check::{Checked, check};

/// The shape of a schema.
#[derive(Clone, Copy, Debug, PartialEq, Eq)]
pub(crate) enum Shape {
    /// `flat`.
    Flat,
    /// `run 1..8 post`.
    List,
    /// `run 1..1 pre post`.
    Bst,
    /// `run 4..8 woven`.
    Tree,
    /// `run 1..8 post W` before a W that is `run 4..8 woven`.
    Mixed,
}

/// The shape of this name.
pub(crate) fn shape_of(word: &[u8]) -> Option<Shape> {
    match word {
        b"flat" => Some(Shape::Flat),
        b"list" => Some(Shape::List),
        b"bst" => Some(Shape::Bst),
        b"tree" => Some(Shape::Tree),
        b"mixed" => Some(Shape::Mixed),
        _ => None,
    }
}

/// The name of the root's kind.
fn root_name() -> Name {
    match Name::new(b"K") {
        Some(name) => name,
        None => Name::default(),
    }
}

/// The name of the kind behind it, where there is one.
fn woven_name() -> Name {
    match Name::new(b"W") {
        Some(name) => name,
        None => Name::default(),
    }
}

/// The root's kind.
fn root_kind(shape: Shape) -> Kind {
    let (lo, hi, links) = match shape {
        Shape::Flat => (1, 1, Links::Flat),
        Shape::List => (1, 8, Links::Post(root_name())),
        Shape::Bst => (
            1,
            1,
            Links::Ends {
                pre: root_name(),
                post: root_name(),
            },
        ),
        Shape::Tree => (4, 8, Links::Woven),
        Shape::Mixed => (1, 8, Links::Post(woven_name())),
    };
    Kind {
        name: root_name(),
        lo,
        hi,
        links,
    }
}

/// The schema of a shape, if it keeps the rules.
fn checked_of(shape: Shape) -> Option<Checked> {
    let mut kinds = ArrayVec::new();
    kinds.push(root_kind(shape));
    if shape == Shape::Mixed {
        kinds.push(Kind {
            name: woven_name(),
            lo: 4,
            hi: 8,
            links: Links::Woven,
        });
    }
    let schema = Schema {
        name: root_name(),
        kinds,
        root: root_name(),
    };
    check(&schema).ok()
}

/// The code that walks structures of a shape.
pub(crate) fn code_of(shape: Shape) -> Option<WalkCode> {
    match checked_of(shape) {
        Some(checked) => Some(derive_walk(&checked)),
        None => None,
    }
}

/// The code that puts elements into structures of a shape.
pub(crate) fn insert_code_of(shape: Shape) -> Option<InsertCode> {
    match checked_of(shape) {
        Some(checked) => Some(derive_insert(&checked)),
        None => None,
    }
}
