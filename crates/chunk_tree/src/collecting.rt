//! The elements of a structure, in a list.
ghost use Rattle.std.specs.Prelude.{◌≡◌, ◌∷◌, [], ◌++◌, IfOk, OnOk};
ghost use Rattle.node_arena.specs.Rules.{AreSound};
ghost use Rattle.node_arena.specs.Structures.{Tree, IsStanding, walk_of};
ghost use Rattle.iter_gen.specs.LookingUp.{CanBeRead};

use dt_model::NoMemory;
use iter_gen::{Visitor, fold};
use node_arena::{Arena, Elem, NodeKind, Structure};
use std::alloc::Global;

/// Keeps the elements that it is handed.
#[derive(Debug, Drop)]
pub(crate) struct Collected {
    elems: Vec<Elem>,
}

impl Visitor for Collected {
    type Stop = NoMemory;

    ghost allows = { λ s e. Unit {0} };

    ghost visits = { λ old e result new. OnOk result (new.elems.items ≡ old.elems.items ++ (e ∷ [])) };

    fn visit(&mut self, elem: Elem) -> Result<(), NoMemory> {
        keep(&mut self.elems, elem)
    }
}

/// Puts an item behind the others.
fn keep<T: Copy>(list: &mut Vec<T>, item: T) -> Result<(), NoMemory>
    ensures ok { OnOk result (list.new.items ≡ list.old.items ++ (item ∷ [])) }
{
    list.push(item)?;
    Ok(())
}

/// The elements of a structure in order, in a list whose memory is taken at once.
pub(crate) fn elements(
    kinds: &[NodeKind],
    arena: &Arena,
    top: &Structure,
    alloc: Global,
) -> Result<Vec<Elem>, NoMemory>
    requires sound { AreSound kinds.now }
    requires conforms { CanBeRead kinds.now arena.now top.now }
    ensures ok { IfOk result (λ v. (t : Tree) → IsStanding kinds.now arena.now top.now t → v.items ≡ walk_of kinds.now t) }
{
    let mut collected = Collected {
        elems: Vec::with_capacity(alloc, top.len as usize)?,
    };
    fold(kinds, arena, top, &mut collected)?;
    Ok(collected.elems)
}
