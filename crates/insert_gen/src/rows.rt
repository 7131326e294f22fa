//! What an insertion needs of a schema.
ghost use Rattle.std.specs.Prelude.{◌≡◌, ◌<◌, ◌≤◌, length, map};
ghost use Rattle.dt_model.specs.declared.limits.TheConstants.{MOST_KINDS};
ghost use Rattle.node_arena.specs.Kinds.{kinds_of, root_of, shape_at};
ghost use Rattle.node_arena.specs.Rules.{AreSound};
ghost use Rattle.insert_gen.specs.Rows.{over_behind, over_of, keep_of, row_of, row_at};
ghost use Rattle.insert_gen.specs.declared.rows.Over.TheVariants.{Grow};

use arrayvec::ArrayVec;
use dt_model::{MOST_KINDS, Schema};
use node_arena::{NodeKind, Shape, kind_of, kinds_of, root_of};
use schema_check::Checked;
use std::marker::Model;

/// What is done with a run that has become too long.
#[derive(Clone, Copy, Debug, Default, PartialEq, Eq)]
pub enum Over {
    /// Its upper part becomes the run of a new node of the kind with this number, between the node and what hangs behind it.
    Wedge(u32),
    /// Its upper part goes one by one into the structure behind, which is of the woven kind with this number.
    OneByOne(u32),
    /// One of its elements goes up, and the elements behind that one into a new node beside.
    Raise,
    /// It stays, since it may have any length.
    #[default]
    Grow,
}

/// A kind's rule for runs that become too long.
#[derive(Clone, Copy, Debug, Default, PartialEq, Eq)]
pub struct InsertRow {
    /// The greatest number of elements in a run, except flat runs.
    pub hi: u32,
    /// How many elements stay in a run that has one more than `hi`.
    pub keep: u32,
    /// What is done with the others.
    pub over: Over,
}

/// The kinds of a schema by number, and the row of each. Contracts see the schema.
#[derive(Debug, Drop)]
pub struct InsertCode {
    schema: Schema,
    kinds: ArrayVec<NodeKind, MOST_KINDS>,
    root: u32,
    rows: ArrayVec<InsertRow, MOST_KINDS>,
}

impl Model for InsertCode {
    ghost use Rattle.dt_model.specs.declared.declared_tensors.Schema.{Schema};
    ghost use Rattle.insert_gen.specs.Rows.{IsCodeOf};

    ghost Value = { Schema };

    ghost view = { λ c. c.schema };

    ghost invariant = { λ c. IsCodeOf c.schema c.kinds.items c.root c.rows.items };
}

/// Where the upper part of a run goes, with the kind of this number behind it.
fn over_behind(kinds: &[NodeKind], post: u32) -> Over
    ensures value { result ≡ over_behind (shape_at kinds.now post) post }
{
    match kind_of(kinds, post).shape {
        Shape::Woven => Over::OneByOne(post),
        _ => Over::Wedge(post),
    }
}

/// What a kind with these links does with a run that has become too long.
fn over_of(kinds: &[NodeKind], shape: Shape) -> Over
    ensures value { result ≡ over_of kinds.now shape }
{
    match shape {
        Shape::Flat => Over::Grow,
        Shape::Post(post) => over_behind(kinds, post),
        Shape::Ends { pre, post } => over_behind(kinds, post),
        Shape::Woven => Over::Raise,
    }
}

/// How many elements stay of a run with one more than `hi`.
fn keep_of(shape: Shape, hi: u32) -> u32
    ensures value { result ≡ keep_of shape hi }
{
    match shape {
        Shape::Woven => hi - hi / 2,
        _ => hi / 2 + 1,
    }
}

/// The row of a kind.
fn row_of(kinds: &[NodeKind], kind: &NodeKind) -> InsertRow
    ensures value { result ≡ row_of kinds.now kind.now }
{
    InsertRow {
        hi: kind.hi,
        keep: keep_of(kind.shape, kind.hi),
        over: over_of(kinds, kind.shape),
    }
}

/// The row of each kind.
fn rows_of(kinds: &[NodeKind]) -> ArrayVec<InsertRow, MOST_KINDS>
    requires few { length kinds.now ≤ MOST_KINDS }
    ensures value { result.items ≡ map (row_of kinds.now) kinds.now }
{
    let mut rows = ArrayVec::new();
    for kind in kinds {
        rows.push(row_of(kinds, kind));
    }
    rows
}

/// The code of a schema's insertions. It takes no memory.
pub fn derive_insert(checked: &Checked) -> InsertCode
    ensures value { result ≡ checked.now }
{
    let schema = checked.schema();
    let kinds = kinds_of(schema);
    let rows = rows_of(kinds.as_slice());
    InsertCode {
        schema: schema.copy(),
        kinds,
        root: root_of(schema),
        rows,
    }
}

impl InsertCode {
    /// The row of the kind with this number.
    pub fn row(&self, kind: u32) -> &InsertRow
        requires declared { kind < length (kinds_of self.now) }
        ensures value { result.now ≡ row_at (kinds_of self.now) kind }
    {
        &self.rows.as_slice()[kind as usize]
    }

    /// The kinds by number.
    pub fn kinds(&self) -> &[NodeKind]
        ensures value { result.now ≡ kinds_of self.now }
        ensures sound { AreSound result.now }
    {
        self.kinds.as_slice()
    }

    /// The number of the root's kind.
    pub fn root(&self) -> u32
        ensures value { result ≡ root_of self.now }
        ensures declared { result < length (kinds_of self.now) }
    {
        self.root
    }
}
