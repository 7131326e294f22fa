//! The numbers of nodes and runs.
ghost use Rattle.std.specs.Prelude.{◌≡◌, ◌<◌};

use std::marker::Model;

/// The number that no node and no run has. It stands for an absent link and an empty structure.
pub(crate) const NO_NUMBER: u32 = 4294967295;

/// The number of a node in its arena. Contracts see the number. It has 4 bytes.
#[derive(Clone, Copy, Debug, PartialEq, Eq)]
pub struct NodeId {
    number: u32,
}

impl Model for NodeId {
    ghost use Rattle.std.specs.Prelude.{ℕ, ◌<◌};

    ghost Value = { ℕ };

    ghost view = { λ a. a.number };

    ghost invariant = { λ a. a.number < 4294967295 };

    ghost inverse = { λ n. record { number = n } };
}

impl Default for NodeId {
    /// A placeholder, which fills the unused places of an `ArrayVec` of numbers.
    fn default() -> NodeId
        ensures value { result ≡ 0 }
    {
        NodeId { number: 0 }
    }
}

impl NodeId {
    /// The id with this number.
    pub(crate) fn of(number: u32) -> NodeId
        requires in_range { number < 4294967295 }
        ensures value { result ≡ number }
    {
        NodeId { number }
    }

    /// The number.
    pub(crate) fn number(&self) -> u32
        ensures value { result ≡ self.now }
        ensures in_range { result < 4294967295 }
    {
        self.number
    }
}

/// The number of a flat run in its arena. Contracts see the number. It has 4 bytes.
#[derive(Clone, Copy, Debug, PartialEq, Eq)]
pub struct RunId {
    number: u32,
}

impl Model for RunId {
    ghost use Rattle.std.specs.Prelude.{ℕ, ◌<◌};

    ghost Value = { ℕ };

    ghost view = { λ a. a.number };

    ghost invariant = { λ a. a.number < 4294967295 };

    ghost inverse = { λ n. record { number = n } };
}

impl RunId {
    /// The id with this number.
    pub(crate) fn of(number: u32) -> RunId
        requires in_range { number < 4294967295 }
        ensures value { result ≡ number }
    {
        RunId { number }
    }

    /// The number.
    pub(crate) fn number(&self) -> u32
        ensures value { result ≡ self.now }
        ensures in_range { result < 4294967295 }
    {
        self.number
    }
}
