//! Cells, updates and calls, and the journal of the calls that were made.
ghost use Rattle.std.specs.Prelude.{◌≡◌, ◌+◌, ◌<◌, ◌≤◌, [], ◌∷◌, ◌++◌, length, slice_get, IfOk, OnErr};
ghost use Rattle.std.specs.Option.{option_copied};
ghost use Rattle.dt_model.specs.declared.calls.Call.TheVariants.{Query};
ghost use Rattle.dt_model.specs.Calls.{IsNoGet, IsNoSingle};

use crate::lists::NoMemory;
use crate::places::Coords;
use crate::statements::Stmt;
use crate::updates::Updates;
use sqlite_items::Boxed;
use std::alloc::Global;
use std::marker::Model;

/// A cell of a tensor. The tensor's number and the coordinates are counted from 0. It has 40 bytes.
#[derive(Debug, Drop, PartialEq, Eq)]
pub struct Cell {
    /// The tensor's number, by order of declaration.
    pub tensor: u32,
    /// A coordinate for each mode.
    pub at: Coords,
}

/// A change of one cell. It has 56 bytes.
#[derive(Debug, Drop, PartialEq, Eq)]
pub enum Update {
    /// The cell has this value from now on; 0 empties it.
    Set { cell: Cell, value: u64 },
    /// The value is added to the cell's, modulo 2^64.
    Add { cell: Cell, value: u64 },
}

impl Cell {
    /// An equal cell. It takes no memory.
    pub fn copy(&self) -> Cell
        ensures value { result ≡ self.now }
    {
        Cell {
            tensor: self.tensor,
            at: self.at.copy(),
        }
    }
}

impl Update {
    /// An equal update. It takes no memory.
    pub fn copy(&self) -> Update
        ensures value { result ≡ self.now }
    {
        match self {
            Update::Set { cell, value } => Update::Set {
                cell: cell.copy(),
                value: *value,
            },
            Update::Add { cell, value } => Update::Add {
                cell: cell.copy(),
                value: *value,
            },
        }
    }
}

/// What a session asks for. It has 72 bytes: a statement is large, so it lies in an allocation of its
/// own, and contracts see the statement.
#[derive(Debug, Drop)]
pub enum Call {
    /// The number in a cell.
    Get(Cell),
    /// Updates that are made one after the other, with nothing between them.
    Batch(Updates),
    /// The nonzeros of a statement's answer.
    Query(Boxed<Stmt>),
}

impl Call {
    /// An equal call. A get takes no memory, and a batch of one update none.
    pub fn copy(&self, alloc: Global) -> Result<Call, NoMemory>
        ensures value { IfOk result (λ call. call ≡ self.now) }
        ensures get { OnErr result (IsNoGet self.now) }
        ensures one { OnErr result (IsNoSingle self.now) }
    {
        match self {
            Call::Get(cell) => Ok(Call::Get(cell.copy())),
            Call::Batch(updates) => Ok(Call::Batch(updates.copy(alloc)?)),
            Call::Query(stmt) => Call::query(alloc, stmt.get().copy(alloc)?),
        }
    }

    /// The query of a statement.
    pub fn query(alloc: Global, stmt: Stmt) -> Result<Call, NoMemory>
        ensures value { IfOk result (λ call. call ≡ Query stmt) }
    {
        Ok(Call::Query(Boxed::new(alloc, stmt)?))
    }
}

/// A line of a script. Both numbers are counted from 1.
#[derive(Clone, Copy, Debug, PartialEq, Eq)]
pub struct Turn {
    /// The session.
    pub session: u32,
    /// The number of the call in the session's script.
    pub number: u32,
}

/// A call that was made, with its turn. It has 80 bytes.
#[derive(Debug, Drop)]
pub struct Entry {
    /// Whose call it is.
    pub turn: Turn,
    /// The call.
    pub call: Call,
}

impl Entry {
    /// An equal entry. That of a get takes no memory, nor does that of a batch of one update.
    pub fn copy(&self, alloc: Global) -> Result<Entry, NoMemory>
        ensures value { IfOk result (λ entry. entry ≡ self.now) }
        ensures get { OnErr result (IsNoGet self.now.call) }
        ensures one { OnErr result (IsNoSingle self.now.call) }
    {
        Ok(Entry {
            turn: self.turn,
            call: self.call.copy(alloc)?,
        })
    }
}

/// The entries of a run in their order, with room that is allocated when the journal is made.
/// Contracts see the entries and the spare room. Indices are counted from 0.
#[derive(Debug, Drop)]
pub struct Journal {
    entries: Vec<Entry>,
    spare: u32,
}

impl Model for Journal {
    ghost use Rattle.std.specs.Prelude.{◌+◌, ◌≤◌, vec_len, vec_capacity};
    ghost use Rattle.dt_model.specs.JournalValue.{JournalValue};
    ghost use Rattle.dt_model.specs.contracts.statements.Expr as expr;
    ghost use Rattle.std.specs.Coded.{codes};

    ghost Value = { JournalValue };

    ghost coded = { Prim.hlevel (codes, expr.the_row.coded) };

    ghost view = { λ a. record { entries = a.entries.items; spare = a.spare } };

    ghost invariant = { λ a. vec_len a.entries + a.spare ≤ vec_capacity a.entries };
}

impl Journal {
    /// An empty journal with room for n entries.
    pub fn with_room(alloc: Global, n: u32) -> Result<Journal, NoMemory>
        ensures entries { IfOk result (λ j. j.entries ≡ []) }
        ensures spare { IfOk result (λ j. j.spare ≡ n) }
    {
        let entries = Vec::with_capacity(alloc, n as usize)?;
        Ok(Journal { entries, spare: n })
    }

    /// Puts an entry at the end. It takes no memory.
    pub fn push(&mut self, entry: Entry)
        requires spare { 0 < self.old.spare }
        ensures entries { self.new.entries ≡ self.old.entries ++ entry ∷ [] }
        ensures spare { self.new.spare + 1 ≡ self.old.spare }
    {
        match self.entries.push(entry) {
            Ok(()) => self.spare -= 1,
            Err(_) => unreachable!(),
        }
    }

    /// How many entries there are.
    pub fn len(&self) -> usize
        ensures value { result ≡ length self.now.entries }
    {
        self.entries.len()
    }

    /// The entry at an index. None exactly where the index isn't below the length.
    pub fn get(&self, index: usize) -> Option<&Entry>
        ensures value { option_copied result ≡ slice_get self.now.entries index }
    {
        self.entries.get(index)
    }

    /// The entries in order.
    pub fn as_slice(&self) -> &[Entry]
        ensures value { result.now ≡ self.now.entries }
    {
        self.entries.as_slice()
    }
}
