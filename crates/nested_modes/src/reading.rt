//! The number at some coordinates, found by one look-up in each mode.
ghost use Rattle.std.specs.Prelude.{◌≡◌, length};
ghost use Rattle.node_arena.specs.Modes.{IsNested, content_in};
ghost use Rattle.nested_modes.specs.Codes.{modes_of};

use iter_gen::{WalkCode, look_up};
use node_arena::{Arena, Held, Structure};

/// The number at these coordinates, 0 where no path has them. It takes one look-up in each mode.
pub fn get(walks: &[WalkCode], arenas: &[Arena], top: &Structure, at: &[u32]) -> u64
    requires nested { IsNested (modes_of walks.now arenas.now) top.now }
    requires modes { length arenas.now ≡ length walks.now }
    requires order { length at.now ≡ length walks.now }
    ensures value { result ≡ content_in (modes_of walks.now arenas.now) top.now at.now }
{
    let Some((walk, later)) = walks.split_first() else {
        return 0;
    };
    let Some((arena, below)) = arenas.split_first() else {
        return 0;
    };
    let Some((lead, rest)) = at.split_first() else {
        return 0;
    };
    match look_up(walk.kinds(), arena, top, *lead) {
        None => 0,
        Some(elem) => match elem.held {
            Held::Number(number) => number,
            Held::Inner(inner) => get(later, below, &inner, rest),
        },
    }
}
