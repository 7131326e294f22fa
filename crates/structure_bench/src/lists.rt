//! The elements of a structure, and a plain list of the same pairs.
ghost use Rattle.std.specs.Prelude.{◌≡◌, ◌≤◌, ◌<◌, IfOk, length};
ghost use Rattle.node_arena.specs.Conforming.{IsRising};

use dt_model::NoMemory;
use node_arena::{Elem, Held};
use std::alloc::Global;

/// The most elements of a list.
pub(crate) const MOST: u32 = 1 << 24;

/// The first elements of a list whose coordinates are 1, 4, 7 and so on, and whose numbers are seven times their places.
pub(crate) fn elements(alloc: Global, count: u32) -> Result<Vec<Elem>, NoMemory>
    requires few { count ≤ MOST }
    ensures rising { IfOk result (λ v. IsRising v.items) }
    ensures len { IfOk result (λ v. length v.items ≡ count) }
{
    let mut elems = Vec::with_capacity(alloc, count as usize)?;
    for n in 0..count {
        elems.push(Elem {
            at: 3 * n + 1,
            held: Held::Number(7 * n as u64),
        })?;
    }
    Ok(elems)
}

/// A coordinate and a number.
#[derive(Clone, Copy, Debug, PartialEq, Eq)]
pub(crate) struct Pair {
    pub(crate) at: u32,
    pub(crate) value: u64,
}

/// The same pairs in a plain list.
pub(crate) fn pairs(alloc: Global, count: u32) -> Result<Vec<Pair>, NoMemory>
    requires few { count ≤ MOST }
{
    let mut pairs = Vec::with_capacity(alloc, count as usize)?;
    for n in 0..count {
        pairs.push(Pair {
            at: 3 * n + 1,
            value: 7 * n as u64,
        })?;
    }
    Ok(pairs)
}
