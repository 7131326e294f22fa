//! Node schemas and tensors, as they are declared.
ghost use Rattle.std.specs.Prelude.{◌≡◌, [], ◌∷◌, ◌<◌, length, IfOk, IfSome};
ghost use Rattle.dt_model.specs.declared.declared_tensors.Links.TheVariants.{Flat};
ghost use Rattle.dt_model.specs.Flat.{flat_name, flat_schema};
ghost use Rattle.dt_model.specs.Tensors.{tensor_named};

use crate::limits::{FLAT_RUN, MOST_KINDS, MOST_ORDER};
use crate::lists::{List, NoMemory};
use crate::names::Name;
use crate::places::Coords;
use arrayvec::ArrayVec;
use std::alloc::Global;

/// The links of a node of some kind.
#[derive(Debug, Drop, PartialEq, Eq)]
pub enum Links {
    /// No links.
    Flat,
    /// One link, to a structure of the named kind, which is walked after the run.
    Post(Name),
    /// Two links: the structure of kind `pre` is walked before the run, that of `post` after it.
    Ends { pre: Name, post: Name },
    /// No children, or one more than elements, of the node's own kind, walked between the elements.
    Woven,
}

impl Links {
    /// Equal links. It takes no memory.
    pub fn copy(&self) -> Links
        ensures value { result ≡ self.now }
    {
        match self {
            Links::Flat => Links::Flat,
            Links::Post(post) => Links::Post(post.copy()),
            Links::Ends { pre, post } => Links::Ends {
                pre: pre.copy(),
                post: post.copy(),
            },
            Links::Woven => Links::Woven,
        }
    }
}

/// A kind of node, whose run has `lo` to `hi` elements.
#[derive(Debug, Drop, PartialEq, Eq)]
pub struct Kind {
    /// The kind's name.
    pub name: Name,
    /// The least number of elements in a run.
    pub lo: u32,
    /// The greatest number of elements in a run.
    pub hi: u32,
    /// The links of its nodes.
    pub links: Links,
}

impl Default for Kind {
    /// A placeholder, which no text declares: it fills the unused places of an `ArrayVec` of kinds. It
    /// is flat, has the name `_`, and its runs have one element.
    fn default() -> Kind
        ensures value { result ≡ record { name = 95 ∷ []; lo = 1; hi = 1; links = Flat } }
    {
        Kind {
            name: Name::default(),
            lo: 1,
            hi: 1,
            links: Links::Flat,
        }
    }
}

impl Kind {
    /// An equal kind. It takes no memory.
    pub fn copy(&self) -> Kind
        ensures value { result ≡ self.now }
    {
        Kind {
            name: self.name.copy(),
            lo: self.lo,
            hi: self.hi,
            links: self.links.copy(),
        }
    }
}

/// A node schema: the kinds of a pointer structure, of which the root's kind is named.
#[derive(Debug, Drop, PartialEq, Eq)]
pub struct Schema {
    /// The schema's name.
    pub name: Name,
    /// Its kinds, in order of declaration.
    pub kinds: ArrayVec<Kind, MOST_KINDS>,
    /// The name of the root's kind.
    pub root: Name,
}

impl Schema {
    /// The schema `flat`, which every world has under number 0. Its bounds are written as 1 and 16, and
    /// hold for no run: a flat run may have any length.
    pub fn flat() -> Schema
        ensures value { result ≡ flat_schema }
    {
        let mut kinds = ArrayVec::new();
        kinds.push(Kind {
            name: flat_name(),
            lo: 1,
            hi: FLAT_RUN,
            links: Links::Flat,
        });
        Schema {
            name: flat_name(),
            kinds,
            root: flat_name(),
        }
    }

    /// An equal schema. It takes no memory.
    pub fn copy(&self) -> Schema
        ensures value { result ≡ self.now }
    {
        let mut kinds = ArrayVec::new();
        for kind in self.kinds.as_slice() {
            kinds.push(kind.copy());
        }
        Schema {
            name: self.name.copy(),
            kinds,
            root: self.root.copy(),
        }
    }
}

/// The name `flat`.
fn flat_name() -> Name
    ensures value { result ≡ flat_name }
{
    Name::new(b"flat").unwrap()
}

/// A declared tensor. Its order is the number of its dimensions.
#[derive(Debug, Drop, PartialEq, Eq)]
pub struct TensorDecl {
    /// The tensor's name.
    pub name: Name,
    /// The dimension of each mode.
    pub dims: Coords,
    /// For each mode the number of its schema, counted from 0.
    pub formats: ArrayVec<u32, MOST_ORDER>,
    /// How many fibers, each with its own latch, its cells are split into by their leading coordinate.
    pub latches: u32,
}

impl TensorDecl {
    /// An equal declaration. It takes no memory.
    pub fn copy(&self) -> TensorDecl
        ensures value { result ≡ self.now }
    {
        let mut formats = ArrayVec::new();
        for format in self.formats.as_slice() {
            formats.push(*format);
        }
        TensorDecl {
            name: self.name.copy(),
            dims: self.dims.copy(),
            formats,
            latches: self.latches,
        }
    }
}

/// Schemas by number. In valid declarations number 0 is `flat`.
pub type Schemas = List<Schema>;

/// Tensors by number, in order of declaration.
pub type Tensors = List<TensorDecl>;

/// What is declared before a run.
#[derive(Debug, Drop, PartialEq, Eq)]
pub struct Decls {
    /// The schemas.
    pub schemas: Schemas,
    /// The tensors.
    pub tensors: Tensors,
}

impl Decls {
    /// The number of the tensor with this name, if there is one. It takes time by the number of tensors.
    pub fn find_tensor(&self, name: &Name) -> Option<usize>
        ensures value { result ≡ tensor_named self.now name.now }
        ensures below { IfSome result (λ t. t < length self.now.tensors) }
    {
        self.tensors
            .as_slice()
            .iter()
            .position(|tensor| tensor.name.bytes() == name.bytes())
    }

    /// Equal declarations.
    pub fn copy(&self, alloc: Global) -> Result<Decls, NoMemory>
        ensures value { IfOk result (λ d. d ≡ self.now) }
    {
        let mut schemas = List::new(alloc);
        for schema in self.schemas.as_slice() {
            schemas.push(schema.copy())?;
        }
        let mut tensors = List::new(alloc);
        for tensor in self.tensors.as_slice() {
            tensors.push(tensor.copy())?;
        }
        Ok(Decls { schemas, tensors })
    }
}
