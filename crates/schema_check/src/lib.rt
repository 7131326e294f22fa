//! The rules of a schema, and the type that keeps them.
//!
//! There are seven rules. `check` answers a `Checked`, or the first broken one with the kind that is named for it. `flat` is the
//! schema that every world has. `Formats` lists the schemas of a world.
//!
//! Clauses see a `Checked` as its schema, and `Formats` as a list of schemas. Read `KeepsRules` in
//! `specs/Rules.antt` first.
//!
//! Rules are counted from 1 to 7, and numbers of schemas from 0. A schema has at most 16 kinds.
//! Not here: the text of a schema, and whether two schemas of a world have one name.
#![tactic(auto)]

mod breaches;
mod checking;
mod formats;
mod links;
mod naming;
mod reaching;
mod rules;
#[cfg(test)]
mod tests;

pub use breaches::Breach;
pub use checking::{Checked, check, flat};
pub use formats::Formats;
pub use rules::MOST_RUN;
