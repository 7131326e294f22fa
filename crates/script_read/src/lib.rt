//! Manifests and scripts as worlds and verdicts.
//!
//! `read_manifest` reads a manifest to its items, `read_script` a script to a verdict for each line.
//! A clause sees a `Manifest` as the list of its items, each with the number of its line, and a
//! `FileName` as its bytes. Read `specs/ManifestLines.antt` first, the table of a manifest's lines, then
//! `specs/Manifests.antt`, `specs/Calls.antt` and `specs/Scripts.antt`. Scripts are judged by `verdict`
//! of dt_model.
//! Lines, columns and coordinates are counted from 1. The limits are dt_model's.
//! Not here: fetching files and the second pass of a manifest (`dyntensor`), lines of values
//! (`tns_io`), statements (`index_read`).
#![tactic(auto)]

mod batches;
mod calls;
mod declarations;
mod file_names;
mod item_lines;
mod items;
mod judging;
mod line_faults;
mod manifests;
mod scripts;
#[cfg(test)]
mod tests;
mod updates;
mod verbs;
mod words;

pub use file_names::FileName;
pub use items::{Item, Manifest};
pub use manifests::read_manifest;
pub use scripts::read_script;
