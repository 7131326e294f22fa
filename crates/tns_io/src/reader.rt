//! The pairs of a text.

ghost use Rattle.std.specs.Prelude.{◌≡◌, ◌≤◌, length};
ghost use Rattle.dt_model.specs.declared.limits.TheConstants.{FILE_LIMIT};
ghost use Rattle.tns_io.specs.Tns.{tns_of};
ghost use Rattle.tns_io.specs.Faults.{fault_at, Tells};
ghost use Rattle.tns_io.specs.declared.faults.ReadFault.TheVariants.{At};

use crate::faults::{FileCause, FileFault, ReadFault};
use crate::pair_lines::read_pair;
use dt_model::{Coords, Pairs};
use dt_text::{content_lines, is_within_limit};
use std::alloc::Global;

/// The pairs of a text in the order of its lines, at most so many, or its first fault. It takes one
/// walk over the text, and no memory except that of the pairs.
pub fn read_tns(alloc: Global, text: &[u8], dims: &Coords, most: u32) -> Result<Pairs, ReadFault>
    requires small { length text.now ≤ FILE_LIMIT }
    ensures reads { Tells (tns_of dims.now most text.now) result }
{
    let mut pairs = Pairs::new(alloc);
    let mut lines = content_lines(text);
    let mut more = most;
    while let Some(content) = lines.next() {
        if more == 0 || !is_within_limit(content.line) {
            return Err(at(content.number, FileCause::Limit));
        }
        match read_pair(content.line, dims.as_slice()) {
            Err(cause) => return Err(at(content.number, cause)),
            Ok(pair) => {
                if pairs.push(pair).is_err() {
                    return Err(ReadFault::NoMemory);
                }
            }
        }
        more -= 1;
    }
    Ok(pairs)
}

/// The fault of a line.
fn at(line: u32, cause: FileCause) -> ReadFault
    ensures value { result ≡ At (fault_at line cause) }
{
    ReadFault::At(FileFault { line, cause })
}
