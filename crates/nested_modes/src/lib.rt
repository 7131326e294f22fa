//! Structures within structures: what each mode's arena holds below a top.
//!
//! `get` reads the number at some coordinates, `list` lists all that aren't 0, and `put` puts a number in; `reserve` takes the memory that `put` needs.
//! `ModeCodes` keeps what they need of the modes' schemas.
//! Clauses see the codes of the modes as schemas and the arenas by their nodes and runs, and both together as modes. Read `IsNested` and
//! `entries_in` in `node_arena`'s `specs/Modes.antt` first.
//! Modes and coordinates count from 0.
//! Not here: structures of one mode (`insert_gen`, `iter_gen`, `bulk_build`).
#![tactic(auto)]

mod codes;
mod listing;
mod putting;
mod reading;
mod reserving;

pub use codes::ModeCodes;
pub use listing::list;
pub use putting::put;
pub use reading::get;
pub use reserving::reserve;
