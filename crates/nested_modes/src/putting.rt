//! A number put in at coordinates: one element is set in each mode.
ghost use Rattle.std.specs.Prelude.{List, suc, nat_eq, if◌then◌else◌, ◌≡◌, ◌≢◌, ◌≤◌, ◌+◌, ℕ, None, Option, length};
ghost use Rattle.std.specs.Cmp.Lexicographic.{pointwise};
ghost use Rattle.node_arena.specs.Kinds.{kinds_of, root_of};
ghost use Rattle.node_arena.specs.Modes.{IsNested, entries_in, content_in};
ghost use Rattle.node_arena.specs.Rules.{Serves};
ghost use Rattle.node_arena.specs.Structures.{Tree, IsStanding, IsStructure, walk_of};
ghost use Rattle.node_arena.specs.declared.elements.Top.TheVariants as tops;
ghost use Rattle.iter_gen.specs.LookingUp.{elem_with};
ghost use Rattle.nested_modes.specs.Codes.{modes_of};
ghost use Rattle.nested_modes.specs.Frames.{KeepsOthers};
ghost use Rattle.nested_modes.specs.Paths.{inner_of};
ghost use Rattle.nested_modes.specs.Readiness.{CanGrow, IsReady, IsReadyFor};
ghost use Rattle.nested_modes.specs.Putting.{IsSetIn, PutsEntry, Spends, SpendsEach};

use dt_model::Steps;
use insert_gen::{InsertCode, insert, replace};
use iter_gen::look_up;
use node_arena::{Arena, Elem, Held, Structure, Top};
use std::sync::ledger::Ledger;

/// The structure that an element holds; the empty one where there is no element, and in the place of a number.
pub(crate) fn inner_of(there: &Option<Elem>) -> Structure
    ensures value { result ≡ inner_of there.now }
{
    let empty = Structure {
        top: Top::Empty,
        len: 0,
        spine: 0,
    };
    match there {
        Some(elem) => match elem.held {
            Held::Inner(inner) => inner,
            Held::Number(_) => empty,
        },
        None => empty,
    }
}

/// Puts an element in the place of the one with its coordinate, or among the others.
fn set<L: Ledger>(
    code: &InsertCode,
    arena: &mut Arena,
    top: &Structure,
    there: &Option<Elem>,
    elem: &Elem,
    steps: &mut Steps<L>,
) -> Structure
    requires structure { (t : Tree) × IsStructure (kinds_of code.now) (root_of code.now) arena.old top.now t
        × (there.now ≡ elem_with elem.now.at (walk_of (kinds_of code.now) t)) }
    requires serves { Serves (kinds_of code.now) arena.old }
    requires grows { there.now ≡ None → CanGrow (kinds_of code.now) (root_of code.now) arena.old top.now }
    ensures set { (t : Tree) → IsStanding (kinds_of code.now) arena.old top.now t
        → IsSetIn (kinds_of code.now) (root_of code.now) arena.old arena.new elem.now t result }
    ensures spent { Spends (kinds_of code.now) (root_of code.now) arena.old arena.new top.now result }
{
    match there {
        None => insert(code, *top, arena, *elem, steps),
        Some(old) => {
            if old.held == elem.held {
                *top
            } else {
                replace(code, top, arena, *elem, steps)
            }
        }
    }
}

/// Puts a number in at coordinates, one for each mode, and answers the structure that the first mode has then. It takes no memory. A mode is
/// written only where what its element holds has changed.
pub fn put<L: Ledger>(
    codes: &[InsertCode],
    arenas: &mut [Arena],
    top: &Structure,
    at: &[u32],
    number: u64,
    steps: &mut Steps<L>,
) -> Structure
    requires nested { IsNested (modes_of codes.now arenas.old) top.now }
    requires ready { IsReady codes.now arenas.old top.now at.now }
    ensures nested { IsNested (modes_of codes.now arenas.new) result }
    ensures some { result.top ≢ tops.Empty }
    ensures entries { PutsEntry at.now number (entries_in (modes_of codes.now arenas.old) top.now) (entries_in (modes_of codes.now arenas.new) result) }
    ensures content { (c : List ℕ) → content_in (modes_of codes.now arenas.new) result c
        ≡ (if pointwise nat_eq c at.now then number else content_in (modes_of codes.now arenas.old) top.now c) }
    ensures others { KeepsOthers (modes_of codes.now arenas.old) (modes_of codes.now arenas.new) top.now result }
    ensures spent { SpendsEach codes.now arenas.old arenas.new top.now result at.now }
    ensures ready { (n : ℕ) (path : List ℕ) → IsReadyFor (suc n) codes.now arenas.old top.now at.now
        → IsReadyFor (suc n) codes.now arenas.old top.now path → IsReadyFor n codes.now arenas.new result path }
{
    let Some((arena, below)) = arenas.split_first_mut() else {
        return *top;
    };
    let Some((code, later)) = codes.split_first() else {
        return *top;
    };
    let Some((lead, rest)) = at.split_first() else {
        return *top;
    };
    let there = look_up(code.kinds(), arena, top, *lead);
    if later.is_empty() {
        let elem = Elem {
            at: *lead,
            held: Held::Number(number),
        };
        return set(code, arena, top, &there, &elem, steps);
    }
    let inner = inner_of(&there);
    let now = put(later, below, &inner, rest, number, steps);
    let elem = Elem {
        at: *lead,
        held: Held::Inner(now),
    };
    set(code, arena, top, &there, &elem, steps)
}
