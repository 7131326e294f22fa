//! What a walk needs of a schema.
ghost use Rattle.std.specs.Prelude.{◌≡◌, ◌<◌, ◌≤◌, length, map};
ghost use Rattle.dt_model.specs.declared.limits.TheConstants.{MOST_KINDS};
ghost use Rattle.node_arena.specs.Kinds.{kinds_of, root_of, shape_at};
ghost use Rattle.node_arena.specs.Rules.{AreSound};
ghost use Rattle.iter_gen.specs.Acts.{acts_of, AreInOrder};

use arrayvec::ArrayVec;
use dt_model::{MOST_KINDS, Schema};
use node_arena::{NodeKind, Shape, kinds_of, root_of};
use schema_check::Checked;
use std::marker::Model;

/// An act of a walk at a node.
#[derive(Clone, Copy, Debug, Default, PartialEq, Eq)]
pub enum Act {
    /// The structure before the run is walked, which is of the kind with this number.
    Pre(u32),
    /// The run is walked.
    #[default]
    Run,
    /// The structure behind the run is walked, which is of the kind with this number.
    Post(u32),
    /// Children and elements are walked in turns.
    Weave,
}

/// The acts of one kind, at most 3.
type Acts = ArrayVec<Act, 3>;

/// The kinds of a schema by number, and the acts of each. Contracts see the schema.
#[derive(Debug, Drop)]
pub struct WalkCode {
    schema: Schema,
    kinds: ArrayVec<NodeKind, MOST_KINDS>,
    root: u32,
    acts: ArrayVec<Acts, MOST_KINDS>,
}

impl Model for WalkCode {
    ghost use Rattle.std.specs.Prelude.{map};
    ghost use Rattle.dt_model.specs.declared.declared_tensors.Schema.{Schema};
    ghost use Rattle.iter_gen.specs.Acts.{IsCodeOf};

    ghost Value = { Schema };

    ghost view = { λ c. c.schema };

    ghost invariant = { λ c. IsCodeOf c.schema c.kinds.items c.root (map (λ a. a.items) c.acts.items) };
}

/// The acts of a node with these links, in the order in which they are done.
fn acts_of(shape: Shape) -> Acts
    ensures value { result.items ≡ acts_of shape }
{
    let mut acts = ArrayVec::new();
    match shape {
        Shape::Flat => acts.push(Act::Run),
        Shape::Post(post) => {
            acts.push(Act::Run);
            acts.push(Act::Post(post));
        }
        Shape::Ends { pre, post } => {
            acts.push(Act::Pre(pre));
            acts.push(Act::Run);
            acts.push(Act::Post(post));
        }
        Shape::Woven => acts.push(Act::Weave),
    }
    acts
}

/// The acts of each kind.
fn acts_of_all(kinds: &[NodeKind]) -> ArrayVec<Acts, MOST_KINDS>
    requires few { length kinds.now ≤ MOST_KINDS }
    ensures value { map (λ a. a.items) result.items ≡ map (λ k. acts_of k.shape) kinds.now }
{
    let mut all = ArrayVec::new();
    for kind in kinds {
        all.push(acts_of(kind.shape));
    }
    all
}

/// The code of a schema's walks. It takes no memory.
pub fn derive_walk(checked: &Checked) -> WalkCode
    ensures value { result ≡ checked.now }
{
    let schema = checked.schema();
    let kinds = kinds_of(schema);
    let acts = acts_of_all(kinds.as_slice());
    WalkCode {
        schema: schema.copy(),
        kinds,
        root: root_of(schema),
        acts,
    }
}

impl WalkCode {
    /// The acts of the kind with this number, in the order in which they are done; the run alone where there is no such kind.
    pub fn acts(&self, kind: u32) -> &[Act]
        ensures value { result.now ≡ acts_of (shape_at (kinds_of self.now) kind) }
        ensures order { AreInOrder (shape_at (kinds_of self.now) kind) result.now }
    {
        match self.acts.get(kind as usize) {
            Some(acts) => acts.as_slice(),
            None => &[Act::Run],
        }
    }

    /// The kinds by number.
    pub fn kinds(&self) -> &[NodeKind]
        ensures value { result.now ≡ kinds_of self.now }
        ensures sound { AreSound result.now }
    {
        self.kinds.as_slice()
    }

    /// The number of the root's kind.
    pub fn root(&self) -> u32
        ensures value { result ≡ root_of self.now }
        ensures declared { result < length (kinds_of self.now) }
    {
        self.root
    }
}
