//! The updates of a batch: one lies in the value itself, more in an allocation.
ghost use Rattle.std.specs.Prelude.{◌≡◌, ◌≢◌, [], ◌∷◌, ◌++◌, length, slice_get, IfOk, OnOk, OnErr, IfErr};
ghost use Rattle.std.specs.Option.{option_copied};
ghost use Rattle.dt_model.specs.Stored.{updates_of, IsInPlace};

use crate::calls::Update;
use crate::lists::{Back, NoMemory};
use std::alloc::Global;
use std::marker::Model;
use std::{mem, slice};

/// Where updates are.
#[derive(Debug, Drop)]
enum Stored {
    /// One update, in the value itself.
    One(Update),
    /// None, or two and more, in an allocation.
    Many(Vec<Update>),
}

/// The updates of a batch in order, 1 to 64 in a valid call. Contracts see their list. It has 64
/// bytes, and one update needs no allocation.
#[derive(Debug, Drop)]
pub struct Updates {
    alloc: Global,
    stored: Stored,
}

impl Model for Updates {
    ghost use Rattle.std.specs.Prelude.{List};
    ghost use Rattle.dt_model.specs.declared.calls.Update.{Update};
    ghost use Rattle.dt_model.specs.Stored.{updates_of, IsInPlace};

    ghost Value = { List Update };

    ghost view = { λ a. updates_of a.stored };

    ghost invariant = { λ a. IsInPlace a.stored };
}

/// Puts two updates into an allocation. When out of memory both come back.
fn pair(alloc: Global, first: Update, second: Update) -> Result<Vec<Update>, (Update, Update)>
    ensures ok { IfOk result (λ v. v.items ≡ first ∷ second ∷ []) }
    ensures back { IfErr result (λ e. e ≡ (first, second)) }
{
    match Vec::with_capacity(alloc, 2) {
        Ok(mut both) => {
            both.push(first).unwrap();
            both.push(second).unwrap();
            Ok(both)
        }
        Err(_) => Err((first, second)),
    }
}

/// The updates with one more at the end. When out of memory all come back.
fn pushed(alloc: Global, stored: Stored, item: Update) -> (Stored, Result<(), Back<Update>>)
    requires in_place { IsInPlace stored }
    ensures in_place { IsInPlace result.0 }
    ensures ok { OnOk result.1 (updates_of result.0 ≡ updates_of stored ++ item ∷ []) }
    ensures err { OnErr result.1 (updates_of result.0 ≡ updates_of stored) }
    ensures back { IfErr result.1 (λ e. e.back ≡ item) }
    ensures first { OnErr result.1 (updates_of stored ≢ []) }
{
    match stored {
        Stored::One(first) => match pair(alloc, first, item) {
            Ok(both) => (Stored::Many(both), Ok(())),
            Err((first, item)) => (Stored::One(first), Err(Back { back: item })),
        },
        Stored::Many(mut updates) => {
            if updates.is_empty() {
                return (Stored::One(item), Ok(()));
            }
            match updates.push(item) {
                Ok(()) => (Stored::Many(updates), Ok(())),
                Err(failed) => {
                    let back = failed.value;
                    (Stored::Many(updates), Err(Back { back }))
                }
            }
        }
    }
}

impl Updates {
    /// No updates. It takes no memory.
    pub fn new(alloc: Global) -> Updates
        ensures value { result ≡ [] }
    {
        Updates {
            alloc,
            stored: Stored::Many(Vec::new(alloc)),
        }
    }

    /// This update alone. It takes no memory.
    pub fn of_one(alloc: Global, update: Update) -> Updates
        ensures value { result ≡ update ∷ [] }
    {
        Updates {
            alloc,
            stored: Stored::One(update),
        }
    }

    /// Puts an update at the end. When out of memory the update comes back. The first takes no memory.
    pub fn push(&mut self, item: Update) -> Result<(), Back<Update>>
        ensures ok { OnOk result (self.new ≡ self.old ++ item ∷ []) }
        ensures err { OnErr result (self.new ≡ self.old) }
        ensures back { IfErr result (λ e. e.back ≡ item) }
        ensures first { OnErr result (self.old ≢ []) }
    {
        let stored = mem::replace(&mut self.stored, Stored::Many(Vec::new(self.alloc)));
        let (stored, result) = pushed(self.alloc, stored, item);
        self.stored = stored;
        result
    }

    /// How many updates there are.
    pub fn len(&self) -> usize
        ensures value { result ≡ length self.now }
    {
        self.as_slice().len()
    }

    /// The update at an index, counted from 0. None exactly where the index isn't below the length.
    pub fn get(&self, index: usize) -> Option<&Update>
        ensures value { option_copied result ≡ slice_get self.now index }
    {
        self.as_slice().get(index)
    }

    /// The updates in order.
    pub fn as_slice(&self) -> &[Update]
        ensures value { result.now ≡ self.now }
    {
        match &self.stored {
            Stored::One(update) => slice::from_ref(update),
            Stored::Many(updates) => updates.as_slice(),
        }
    }

    /// Equal updates, in their order. One update takes no memory.
    pub fn copy(&self, alloc: Global) -> Result<Updates, NoMemory>
        ensures value { IfOk result (λ updates. updates ≡ self.now) }
        ensures one { OnErr result (length self.now ≢ 1) }
    {
        match &self.stored {
            Stored::One(update) => Ok(Updates::of_one(alloc, update.copy())),
            Stored::Many(updates) => copied(alloc, updates.as_slice()),
        }
    }
}

/// Equal updates, in their order.
fn copied(alloc: Global, updates: &[Update]) -> Result<Updates, NoMemory>
    ensures value { IfOk result (λ copy. copy ≡ updates.now) }
{
    let mut copy = Updates::new(alloc);
    for update in updates {
        copy.push(update.copy())?;
    }
    Ok(copy)
}
