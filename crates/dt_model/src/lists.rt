//! A list that grows, and the errors of calls that allocate.
ghost use Rattle.std.specs.Prelude.{◌≡◌, [], ◌∷◌, ◌++◌, length, slice_get, OnOk, OnErr, IfErr};
ghost use Rattle.std.specs.Option.{option_copied};
ghost use Rattle.std.specs.Cmp.Lexicographic.{pointwise, lists_per, lists_equiv};

use std::alloc::{AllocError, AllocFailed, Global};
use std::marker::Model;
use thiserror::Error;

/// Out of memory.
#[derive(Clone, Copy, Debug, PartialEq, Eq, Error)]
#[error("out of memory")]
pub struct NoMemory;

/// Out of memory, and the argument comes back.
#[derive(Debug, Drop)]
pub struct Back<T> {
    /// What was handed in.
    pub back: T,
}

impl From<AllocError> for NoMemory {
    ghost from_gives = { λ _ e. e ≡ record {} };

    /// What is lost is the memory alone.
    fn from(_error: AllocError) -> NoMemory {
        NoMemory
    }
}

impl<T: Drop> From<AllocFailed<T>> for NoMemory {
    ghost from_gives = { λ _ e. e ≡ record {} };

    /// The argument is dropped.
    fn from(_failed: AllocFailed<T>) -> NoMemory {
        NoMemory
    }
}

impl<T: Drop> From<Back<T>> for NoMemory {
    ghost from_gives = { λ _ e. e ≡ record {} };

    /// The argument is dropped.
    fn from(_back: Back<T>) -> NoMemory {
        NoMemory
    }
}

/// A list that grows. Contracts see the list of its items. Indices are counted from 0.
#[derive(Debug, Drop)]
pub struct List<T> {
    items: Vec<T>,
}

impl<T> Model for List<T> {
    ghost use Rattle.std.specs.Prelude.{List};
    ghost use Rattle.std.specs.Coded.{coded_list};

    ghost Value = { List T };

    ghost coded = { coded_list T.code };

    ghost view = { λ a. a.items.items };
}

impl<T: PartialEq> PartialEq for List<T> {
    ghost eq = { pointwise T.eq };

    ghost laws = { lists_per T.laws };

    fn eq(&self, other: &Self) -> bool {
        self.as_slice() == other.as_slice()
    }
}

impl<T: Eq> Eq for List<T> {
    ghost laws = { lists_equiv T.Eq.laws };
}

impl<T> List<T> {
    /// No items. It takes no memory until the first push.
    pub fn new(alloc: Global) -> Self
        ensures value { result ≡ [] }
    {
        List {
            items: Vec::new(alloc),
        }
    }

    /// These items. It takes no memory.
    pub fn from_vec(items: Vec<T>) -> Self
        ensures value { result ≡ items.items }
    {
        List { items }
    }

    /// Puts an item at the end. When out of memory the item comes back.
    pub fn push(&mut self, item: T) -> Result<(), Back<T>>
        ensures ok { OnOk result (self.new ≡ self.old ++ item ∷ []) }
        ensures err { OnErr result (self.new ≡ self.old) }
        ensures back { IfErr result (λ e. e.back ≡ item) }
    {
        match self.items.push(item) {
            Ok(()) => Ok(()),
            Err(failed) => Err(Back { back: failed.value }),
        }
    }

    /// How many items there are.
    pub fn len(&self) -> usize
        ensures value { result ≡ length self.now }
    {
        self.items.len()
    }

    /// The item at an index. None exactly where the index isn't below the length.
    pub fn get(&self, index: usize) -> Option<&T>
        ensures value { option_copied result ≡ slice_get self.now index }
    {
        self.items.get(index)
    }

    /// The items in order.
    pub fn as_slice(&self) -> &[T]
        ensures value { result.now ≡ self.now }
    {
        self.items.as_slice()
    }
}
