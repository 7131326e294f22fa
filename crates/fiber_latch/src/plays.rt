//! The kinds of steps that seats make on the table. `specs/Kinds.antt` says what each does to the latch machine.
use crate::rule::SlotValue;
use crate::view::View;
use atomic_table::{Join, Play, Split};
use dt_model::Keep;
use std::marker::{Brand, PhantomData};

/// A try: an exchange at a latch's word, from 0 to the session.
pub struct TakeStep;

impl<C: Keep> Play<Option<SlotValue<C>>, View> for TakeStep {
    ghost use Rattle.fiber_latch.specs.Rule.{GoodAt};
    ghost use Rattle.fiber_latch.specs.Steps.{TriesLatch};

    ghost then = { TriesLatch (GoodAt C.content C.sound) };
}

/// A give: a swap at a latch's word, to 0.
pub struct GiveStep;

impl<C: Keep> Play<Option<SlotValue<C>>, View> for GiveStep {
    ghost use Rattle.fiber_latch.specs.Steps.{ReturnsLatch};

    ghost then = { ReturnsLatch };
}

/// A load of some word, after two views were joined.
pub struct LookStep;

impl<C: Keep> Play<Option<SlotValue<C>>, View> for LookStep {
    ghost use Rattle.fiber_latch.specs.Steps.{ReadsWord};

    ghost then = { ReadsWord };
}

/// A latch's pass is joined into the seat that took the latch.
pub struct AbsorbPass;

impl Join<View> for AbsorbPass {
    ghost use Rattle.fiber_latch.specs.Views.{spent_view};
    ghost use Rattle.fiber_latch.specs.Steps.{with_pass};

    ghost both = { with_pass };

    ghost spent = { spent_view };
}

/// A new pass is cut off from the seat that gives a latch back.
pub struct ReleasePass;

impl Split<View> for ReleasePass {
    ghost use Rattle.fiber_latch.specs.Steps.{without_pass, top_pass};

    ghost left = { without_pass };

    ghost right = { top_pass };
}

/// The entry that a commit adds. Each call picks it, by `Brand`.
pub trait PickedEntry {
    ghost use Rattle.dt_model.specs.declared.calls.Entry.{Entry};

    ghost entry: { Entry };
}

impl PickedEntry for Brand {
    ghost use Rattle.fiber_latch.specs.Steps.{no_entry};

    ghost entry = { no_entry };
}

/// A commit: the clock counts one more.
pub struct CommitStep<Q> {
    picked: PhantomData<Q>,
}

impl<C: Keep, Q: PickedEntry> Play<Option<SlotValue<C>>, View> for CommitStep<Q> {
    ghost use Rattle.fiber_latch.specs.Steps.{AddsEntry};

    ghost then = { AddsEntry Q.entry };
}

/// The first session of the upper part. Each call picks it, by `Brand`.
pub trait SplitPoint {
    ghost use Rattle.std.specs.Prelude.{ℕ};

    ghost at: { ℕ };
}

impl SplitPoint for Brand {
    ghost at = { 0 };
}

/// A seat of sessions is cut in two.
pub struct SplitAt<Q> {
    picked: PhantomData<Q>,
}

impl<Q: SplitPoint> Split<View> for SplitAt<Q> {
    ghost use Rattle.fiber_latch.specs.Steps.{lower_view, upper_view};

    ghost left = { lower_view Q.at };

    ghost right = { upper_view Q.at };
}

/// The seat of the sessions that follow is joined in.
pub struct JoinSeats;

impl Join<View> for JoinSeats {
    ghost use Rattle.fiber_latch.specs.Views.{spent_view};
    ghost use Rattle.fiber_latch.specs.Steps.{joined_view};

    ghost both = { joined_view };

    ghost spent = { spent_view };
}

/// Which table it is. Each call picks it, by `Brand`.
pub trait PickedName {
    ghost use Rattle.fiber_latch.specs.declared.view.TableName.{TableName};

    ghost name: { TableName };
}

impl PickedName for Brand {
    ghost use Rattle.fiber_latch.specs.Views.{no_name};

    ghost name = { no_name };
}

/// The first seat learns which table it is, at a load of word 0.
pub struct LearnStep<Q> {
    named: PhantomData<Q>,
}

impl<C: Keep, Q: PickedName> Play<Option<SlotValue<C>>, View> for LearnStep<Q> {
    ghost use Rattle.fiber_latch.specs.Steps.{LearnsTable};

    ghost then = { LearnsTable Q.name };
}

/// The first seat takes out an empty slot, at a load of its latch's word.
pub struct OpenStep;

impl<C: Keep> Play<Option<SlotValue<C>>, View> for OpenStep {
    ghost use Rattle.fiber_latch.specs.Steps.{OpensSlot};

    ghost then = { OpensSlot };
}
