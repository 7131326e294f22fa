//! The types, lists and definitions that contracts cite.
//!
//! A `World` is what a run begins with: declarations, loaded lines and scripts. A `Call` is what a
//! session asks for, an `Entry` a call that was made, a `Reply` its answer, a `WrittenCall` a line
//! that is read and not judged yet. `latch_of` and `latch_count` number the latches, and `Steps`
//! counts what the caller ticks. `Pairs` keeps coordinates and values packed by their order, and
//! `PackedPairs` does with room for more.
//!
//! Clauses see a `Name`, `Coords`, `Vars`, `List`, `Updates` or `Pairs` as the list of what is in it,
//! a `Journal` or `PackedPairs` as that and its spare room, a boxed statement or expression as itself,
//! `Steps` as the number of ticks, and everything else by its fields and variants. Of the definitions in `specs/` read `Contents` first, then `Statements`,
//! `Verdicts`, `Runs` and `Report`.
//!
//! Coordinates and the numbers of tensors, schemas and latches are counted from 0; sessions, numbers
//! of calls, modes, terms and columns from 1. Values are taken modulo 2^64. A name has 1 to 32
//! bytes; a `Coords` or a `Vars` has at most 8 numbers. `limits.rt` names every limit.
//!
//! Not here: the texts of numerals, statements and scripts (`dt_text` and above), and the code that
//! judges a line, evaluates a statement or makes a call.
#![tactic(auto)]

mod calls;
mod declared_tensors;
mod keep;
mod latches;
mod limits;
mod lists;
mod names;
mod packed_pairs;
mod packed_rows;
#[cfg(test)]
mod pair_tests;
mod pairs;
mod places;
mod replies;
mod statements;
mod steps;
#[cfg(test)]
mod tests;
mod updates;
mod written;

pub use calls::{Call, Cell, Entry, Journal, Turn, Update};
pub use declared_tensors::{Decls, Kind, Links, Schema, Schemas, TensorDecl, Tensors};
pub use keep::Keep;
pub use latches::{latch_count, latch_of, total_latches};
pub use limits::{
    CARRIAGE_RETURN, FILE_LIMIT, FILE_NAME_LIMIT, FLAT_RUN, LINE_FEED, LINE_LIMIT, MINUS,
    MOST_ACCESSES, MOST_CALLS, MOST_COORDINATES, MOST_KINDS, MOST_LATCHES, MOST_LINES,
    MOST_LITERALS, MOST_ORDER, MOST_PARENTHESES, MOST_PRINTS, MOST_SCHEMAS, MOST_SESSIONS,
    MOST_TENSOR_LATCHES, MOST_TENSORS, MOST_UPDATES, MOST_VARIABLES, NAME_LIMIT, SPACE, TAB,
    UNDERSCORE,
};
pub use lists::{Back, List, NoMemory};
pub use names::Name;
pub use packed_pairs::PackedPairs;
pub use pairs::{Nonzeros, Pairs, PairsIterator};
pub use places::{Coords, Vars};
pub use replies::{Base, Refusal, Reply, Scripts, Verdict, Verdicts, World};
pub use statements::{Expr, Stmt};
pub use steps::Steps;
pub use updates::Updates;
pub use written::{UpdateKind, WrittenCall, WrittenCoordinate, WrittenNumber, WrittenUpdate};
