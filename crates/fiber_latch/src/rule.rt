//! What lies in the table, and the rule that it keeps between any two steps.
use crate::view::View;
use atomic_table::{Badge, TableRule};
use dt_model::{Journal, Keep, World};
use std::marker::PhantomData;
use std::snapshot::Snapshot;

/// What a latch guards: a fiber's store, or the journal of all entries.
#[derive(Drop)]
pub enum Kept<C> {
    /// The store of a fiber.
    Fiber(C),
    /// The entries of the run so far, with room for all that may come.
    Journal(Journal),
}

/// What lies in a latch's slot: a value, and beside it the latch's pass.
#[derive(Drop)]
pub struct SlotValue<C> {
    /// The store or the journal.
    pub kept: Kept<C>,
    /// What the seat that gave it back had seen.
    pub pass: Badge<View>,
}

/// A take found the latch held by this session.
#[derive(Clone, Copy, Debug, PartialEq, Eq)]
pub struct Busy {
    /// The latch that was asked for, counted from 0.
    pub latch: u32,
    /// The session that held it, counted from 1.
    pub holder: u32,
}

/// What the table is opened for. `end` is the number of the journal's latch.
#[derive(Drop)]
pub struct TableKey {
    /// The declarations, and what is loaded.
    pub world: Snapshot<World>,
    /// The number of the journal's latch.
    pub end: u64,
    /// Sessions 1 to this one.
    pub sessions: u64,
    /// How many calls each session has at most.
    pub calls: u64,
}

/// The rule over stores of this type.
pub struct LatchRule<C> {
    store: PhantomData<C>,
}

impl<C: Keep> TableRule<Option<SlotValue<C>>, View, TableKey> for LatchRule<C> {
    ghost use Rattle.fiber_latch.specs.Rule.{KeepsRule, Good};
    ghost use Rattle.fiber_latch.specs.Conditions.{config_of};
    ghost use Rattle.fiber_latch.specs.Openings.{first_view};

    ghost holds = { λ key. KeepsRule (config_of key) (Good C.content C.sound (config_of key)) };

    ghost first = { λ key. first_view (config_of key) };
}
