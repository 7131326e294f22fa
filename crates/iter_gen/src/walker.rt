//! Walkers.
ghost use Rattle.std.specs.Prelude.{◌≡◌, ◌<◌, ◌+◌, List, [], Option};
ghost use Rattle.node_arena.specs.declared.elements.Elem.{Elem};
ghost use Rattle.node_arena.specs.Structures.{Tree, walk_of};
ghost use Rattle.node_arena.specs.Kinds.{kinds_of};
ghost use Rattle.iter_gen.specs.Frames.{from};
ghost use Rattle.iter_gen.specs.Walkers.{AreLeft, TakesFirst, Has, Conforms, CanBeWalked};

use crate::codes::WalkCode;
use crate::paths::{MOST_PLACES, NodeSpot, RunSpot};
use crate::walking::{sink, skip, step};
use arrayvec::ArrayVec;
use dt_model::Steps;
use node_arena::{Arena, Elem, Structure, Top};
use std::marker::Model;
use std::sync::ledger::Ledger;

/// Puts the spots of the first element of a structure on an empty path. Answers the spot of a flat run.
fn start(
    code: &WalkCode,
    arena: &Arena,
    path: &mut ArrayVec<NodeSpot, MOST_PLACES>,
    top: &Structure,
) -> Option<RunSpot>
    requires conforms { CanBeWalked code.now arena.now top.now }
    requires empty { path.old.items ≡ [] }
    requires short { top.now.len < 4294967296 }
    ensures has { (t : Tree) → Conforms code.now arena.now top.now t → Has (kinds_of code.now) arena.now result path.new.items (walk_of (kinds_of code.now) t) }
{
    match top.top {
        Top::Empty => None,
        Top::Node(node) => {
            sink(code.kinds(), arena, path, node, 0);
            None
        }
        Top::Run(run) => Some(RunSpot::first(arena, run)),
    }
}

/// Goes through the elements of a structure in order. It has about 1,100 bytes, of which a new one sets each.
#[derive(Drop)]
pub struct Walker<'a> {
    code: &'a WalkCode,
    arena: &'a Arena,
    run: Option<RunSpot>,
    path: ArrayVec<NodeSpot, MOST_PLACES>,
}

impl<'a> Model for Walker<'a> {
    ghost use Rattle.iter_gen.specs.Walkers.{WalkerState};

    ghost Value = { WalkerState };

    ghost view = { λ w. record { code = w.code.now; arena = w.arena.now; run = w.run; path = w.path.items } };

    ghost use Rattle.std.specs.Prelude.{List};
    ghost use Rattle.node_arena.specs.declared.elements.Elem.{Elem};
    ghost use Rattle.iter_gen.specs.Walkers.{AreLeft};

    ghost invariant = { λ w. ∥ ((xs : List Elem) × AreLeft (record { code = w.code.now; arena = w.arena.now; run = w.run; path = w.path.items }) xs) ∥₁ };
}

impl<'a> Walker<'a> {
    /// A walker at the first element of a structure that conforms to the code's schema. It takes no memory, and sets 1,024 bytes: to go
    /// through many structures, open one walker and open it again.
    pub fn open(code: &'a WalkCode, arena: &'a Arena, top: Structure) -> Walker<'a>
        requires conforms { CanBeWalked code.now arena.now top }
        ensures left { (t : Tree) → Conforms code.now arena.now top t → AreLeft result (walk_of (kinds_of code.now) t) }
        ensures code { result.code ≡ code.now }
        ensures arena { result.arena ≡ arena.now }
    {
        let mut path = ArrayVec::new();
        let run = start(code, arena, &mut path, &top);
        Walker {
            code,
            arena,
            run,
            path,
        }
    }

    /// Goes to the first element of another structure, which may be in another arena.
    pub fn reopen(&mut self, arena: &'a Arena, top: Structure)
        requires conforms { CanBeWalked self.old.code arena.now top }
        ensures left { (t : Tree) → Conforms self.old.code arena.now top t → AreLeft self.new (walk_of (kinds_of self.old.code) t) }
        ensures code { self.new.code ≡ self.old.code }
        ensures arena { self.new.arena ≡ arena.now }
    {
        self.path.clear();
        self.run = start(self.code, arena, &mut self.path, &top);
        self.arena = arena;
    }

    /// Takes the first element left. None exactly where none is left. One tick.
    #[inline]
    pub fn next<L: Ledger>(&mut self, steps: &mut Steps<L>) -> Option<Elem>
        ensures next { (xs : List Elem) → AreLeft self.old xs → TakesFirst self.new result xs }
        ensures code { self.new.code ≡ self.old.code }
        ensures arena { self.new.arena ≡ self.old.arena }
        ensures steps { steps.new ≡ steps.old + 1 }
    {
        steps.tick();
        self.take()
    }

    /// Drops the elements left whose coordinate is below `at`, and takes the first of the others. None exactly where none is left then.
    /// One tick.
    #[inline]
    pub fn seek<L: Ledger>(&mut self, at: u32, steps: &mut Steps<L>) -> Option<Elem>
        ensures next { (xs : List Elem) → AreLeft self.old xs → TakesFirst self.new result (from at xs) }
        ensures code { self.new.code ≡ self.old.code }
        ensures arena { self.new.arena ≡ self.old.arena }
        ensures steps { steps.new ≡ steps.old + 1 }
    {
        steps.tick();
        self.drop_below(at);
        self.take()
    }
}

// ---- in a flat run or in nodes

impl<'a> Walker<'a> {
    /// Takes the first element left. Callers take it in, since its result is costly to hand on.
    #[inline(always)]
    fn take(&mut self) -> Option<Elem>
        ensures next { (xs : List Elem) → AreLeft self.old xs → TakesFirst self.new result xs }
        ensures code { self.new.code ≡ self.old.code }
        ensures arena { self.new.arena ≡ self.old.arena }
    {
        let run = self.run;
        match run {
            Some(spot) => {
                self.run = Some(spot.next());
                spot.elem(self.arena)
            }
            None => step(self.code.kinds(), self.arena, &mut self.path),
        }
    }

    /// Drops the elements left whose coordinate is below `at`.
    fn drop_below(&mut self, at: u32)
        ensures left { (xs : List Elem) → AreLeft self.old xs → AreLeft self.new (from at xs) }
        ensures code { self.new.code ≡ self.old.code }
        ensures arena { self.new.arena ≡ self.old.arena }
    {
        let run = self.run;
        match run {
            Some(spot) => self.run = Some(spot.behind(self.arena, at)),
            None => skip(self.code.kinds(), self.arena, &mut self.path, at),
        }
    }
}
