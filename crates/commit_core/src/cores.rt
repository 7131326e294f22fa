//! The core: the sessions of a World over its latches, one event at a time.

ghost use Rattle.std.specs.Prelude.{◌≡◌, ◌↔◌, true, false, Err, IfOk, OnOk, OnErr};
ghost use Rattle.dt_model.specs.Worlds.{IsValid};
ghost use Rattle.commit_core.specs.declared.events.StepFault.TheVariants.{NotPossible};
ghost use Rattle.commit_core.specs.declared.events.Event.TheVariants.{Take, Commit, Give, Quit};
ghost use Rattle.commit_core.specs.Events.{initial, current_call, is_possible, after_event, after_take, after_commit, after_give, after_quit, run_of};
ghost use Rattle.commit_core.specs.State.{progress_of, reply_in};
ghost use Rattle.commit_core.specs.Turns.{is_lost};
ghost use Rattle.commit_core.specs.Steps.{TakesMemory, IsStep};
ghost use Rattle.commit_core.specs.Sound.{IsSound};
ghost use Rattle.commit_core.specs.Invariant.{IsStepInvariant};

use crate::cells::CellList;
use crate::committing::{commit_call, release};
use crate::events::{Event, Position, StepFault};
use crate::opening::{all_free, first_positions, lines_in, position_after};
use crate::possible::{holder_of, holds_none, is_possible, position_of};
use crate::tensors::load_base;
use crate::turns::{call_of, is_lost};
use dt_model::{Journal, NoMemory, Turn, World, latch_count};
use std::alloc::Global;
use std::marker::Model;

/// The sessions of a World over its latches, one step at a time. It borrows the World, and keeps each
/// tensor's cells as one ascending list: the cells of a latch stand together there, and a get is a
/// binary search.
#[derive(Drop)]
pub struct Core<'w> {
    alloc: Global,
    world: &'w World,
    holders: Vec<u32>,
    positions: Vec<Position>,
    tensors: Vec<CellList>,
    journal: Journal,
    replies: Vec<Option<u64>>,
    lost: Vec<Turn>,
}

impl<'w> Model for Core<'w> {
    ghost use Rattle.std.specs.Coded.{codes};
    ghost use Rattle.dt_model.specs.contracts.replies.World as given;
    ghost use Rattle.dt_model.specs.contracts.calls.Entry as entered;
    ghost use Rattle.commit_core.specs.contracts.events.Position as positioned;
    ghost use Rattle.commit_core.specs.CellListState.{all_cells, all_orders};
    ghost use Rattle.commit_core.specs.State.{CoreState};
    ghost use Rattle.commit_core.specs.Invariant.{IsInvariant};

    ghost Value = { CoreState };

    ghost coded = { Prim.hlevel (codes, given.the_row.coded, entered.the_row.coded, positioned.the_row.coded) };

    ghost view = { λ c. record { world = c.world.now; holders = c.holders.items; positions = c.positions.items; tensors = all_cells c.tensors.items; entries = c.journal.entries; replies = c.replies.items; lost = c.lost.items } };

    ghost invariant = { λ c. IsInvariant (record { world = c.world.now; holders = c.holders.items; positions = c.positions.items; tensors = all_cells c.tensors.items; entries = c.journal.entries; replies = c.replies.items; lost = c.lost.items }) c.journal.spare (all_orders c.tensors.items) };
}

impl<'w> Core<'w> {
    /// The opening: every latch free, each session at its first accepted call, and no entry. It takes
    /// the journal's room, an entry for each line of the scripts. It may run out of memory.
    pub fn open(alloc: Global, world: &'w World) -> Result<Core<'w>, NoMemory>
        requires valid { IsValid world.now }
        ensures world { IfOk result (λ c. c.world ≡ world.now) }
        ensures value { IfOk result (λ c. progress_of c ≡ initial world.now) }
        ensures sound { IfOk result (λ c. IsSound world.now (progress_of c)) }
    {
        let tensors = load_base(alloc, world)?;
        let holders = all_free(alloc, latch_count(&world.decls) + 1)?;
        let positions = first_positions(alloc, world)?;
        let journal = Journal::with_room(alloc, lines_in(world))?;
        Ok(Core {
            alloc,
            world,
            holders,
            positions,
            tensors,
            journal,
            replies: Vec::new(alloc),
            lost: Vec::new(alloc),
        })
    }

    /// Whether an event may happen now. It goes over a batch's updates once or twice, and at a query asks
    /// for each latch whether one of its tensors has it.
    pub fn possible(&self, event: Event) -> bool
        ensures value { result ≡ is_possible self.now.world (progress_of self.now) event }
        ensures kept { IsStepInvariant self.now.world (progress_of self.now) }
    {
        is_possible(
            self.world,
            self.holders.as_slice(),
            self.positions.as_slice(),
            event,
        )
    }

    /// The entries so far.
    pub fn journal(&self) -> &Journal
        ensures entries { result.now.entries ≡ self.now.entries }
    {
        &self.journal
    }

    /// The session that holds a latch, 0 where nobody does.
    pub fn holder(&self, latch: u32) -> u32
        ensures value { result ≡ (progress_of self.now).machine.holder latch }
    {
        holder_of(self.holders.as_slice(), latch)
    }

    /// What the entry at a place has read, counted from 0. None exactly where there is no entry or it
    /// isn't a get.
    pub fn reply(&self, place: u32) -> Option<u64>
        ensures value { result ≡ reply_in self.now.replies place }
    {
        *self.replies.get(place as usize)?
    }

    /// Whether a turn has quit. It looks at every turn that has.
    pub fn lost(&self, turn: Turn) -> bool
        ensures value { result ≡ is_lost self.now.lost turn.session turn.number }
    {
        is_lost(self.lost.as_slice(), turn)
    }

    /// A possible take.
    fn take(&mut self, session: u32, latch: u32)
        requires possible { is_possible self.old.world (progress_of self.old) (Take session latch) ≡ true }
        ensures value { progress_of self.new ≡ after_take (progress_of self.old) session latch }
        ensures world { self.new.world ≡ self.old.world }
    {
        self.holders[latch as usize] = session;
    }

    /// A possible commit. Where it runs out of memory all is as before.
    fn commit(&mut self, session: u32) -> Result<(), NoMemory>
        requires possible { is_possible self.old.world (progress_of self.old) (Commit session) ≡ true }
        ensures ok { OnOk result (progress_of self.new
            ≡ after_commit self.old.world.decls (progress_of self.old) session (current_call self.old.world (progress_of self.old) session)) }
        ensures world { self.new.world ≡ self.old.world }
        ensures err { OnErr result (self.new ≡ self.old) }
    {
        let world = self.world;
        let position = position_of(self.positions.as_slice(), session);
        match call_of(world, session, position.number) {
            None => unreachable!(),
            Some(call) => {
                let turn = Turn {
                    session,
                    number: position.number,
                };
                commit_call(
                    self.alloc,
                    turn,
                    call,
                    &mut self.journal,
                    &mut self.replies,
                    &mut self.tensors,
                )?;
                self.positions[session as usize] = Position {
                    number: position.number,
                    committed: true,
                };
                Ok(())
            }
        }
    }

    /// A possible give. With its last latch the session goes on to its next call.
    fn give(&mut self, session: u32, latch: u32)
        requires possible { is_possible self.old.world (progress_of self.old) (Give session latch) ≡ true }
        ensures value { progress_of self.new ≡ after_give self.old.world (progress_of self.old) session latch }
        ensures world { self.new.world ≡ self.old.world }
    {
        self.holders[latch as usize] = 0;
        if holds_none(self.holders.as_slice(), session) {
            let position = position_of(self.positions.as_slice(), session);
            self.positions[session as usize] = position_after(self.world, session, position.number);
        }
    }

    /// A possible quit. Where it runs out of memory all is as before.
    fn quit(&mut self, session: u32) -> Result<(), NoMemory>
        requires possible { is_possible self.old.world (progress_of self.old) (Quit session) ≡ true }
        ensures ok { OnOk result (progress_of self.new ≡ after_quit self.old.world (progress_of self.old) session) }
        ensures world { self.new.world ≡ self.old.world }
        ensures err { OnErr result (self.new ≡ self.old) }
    {
        let position = position_of(self.positions.as_slice(), session);
        let turn = Turn {
            session,
            number: position.number,
        };
        self.lost.push(turn)?;
        release(&mut self.holders, session);
        self.positions[session as usize] = position_after(self.world, session, position.number);
        Ok(())
    }

    /// Makes an event happen. NotPossible comes exactly where it isn't possible. Only a commit or a quit
    /// may run out of memory. After either fault all is as before.
    pub fn step(&mut self, event: Event) -> Result<(), StepFault>
        ensures possible { OnOk result (is_possible self.old.world (progress_of self.old) event ≡ true) }
        ensures not_possible { (result ≡ Err NotPossible) ↔ (is_possible self.old.world (progress_of self.old) event ≡ false) }
        ensures ok { OnOk result (progress_of self.new ≡ after_event self.old.world (progress_of self.old) event) }
        ensures no_memory { (result ≡ Err StepFault.NoMemory) → TakesMemory event }
        ensures machine { OnOk result (IsStep self.old.world (progress_of self.old) event (progress_of self.new).machine) }
        ensures sound { IsSound self.new.world (progress_of self.new) }
        ensures world { self.new.world ≡ self.old.world }
        ensures err { OnErr result (self.new ≡ self.old) }
    {
        if !self.possible(event) {
            return Err(StepFault::NotPossible);
        }
        match event {
            Event::Take { session, latch } => {
                self.take(session, latch);
                Ok(())
            }
            Event::Commit { session } => match self.commit(session) {
                Ok(()) => Ok(()),
                Err(NoMemory) => Err(StepFault::NoMemory),
            },
            Event::Give { session, latch } => {
                self.give(session, latch);
                Ok(())
            }
            Event::Quit { session } => match self.quit(session) {
                Ok(()) => Ok(()),
                Err(NoMemory) => Err(StepFault::NoMemory),
            },
        }
    }

    /// From the opening every possible event in its turn; events that aren't possible are passed over.
    /// It may run out of memory at the opening, a commit or a quit.
    pub fn run(alloc: Global, world: &'w World, events: &[Event]) -> Result<Core<'w>, NoMemory>
        requires valid { IsValid world.now }
        ensures world { IfOk result (λ c. c.world ≡ world.now) }
        ensures value { IfOk result (λ c. progress_of c ≡ run_of world.now events.now) }
        ensures sound { IfOk result (λ c. IsSound world.now (progress_of c)) }
    {
        let mut core = Core::open(alloc, world)?;
        for event in events {
            match core.step(*event) {
                Ok(()) => {}
                Err(StepFault::NotPossible) => {}
                Err(StepFault::NoMemory) => return Err(NoMemory),
            }
        }
        Ok(core)
    }
}
