//! The schemas that have been read, and the one in front.

ghost use Rattle.std.specs.Prelude.{◌≡◌, ◌<◌, length, IfOk};
ghost use Rattle.dt_model.specs.declared.limits.TheConstants.{MOST_KINDS};
ghost use Rattle.schema_read.specs.Building.{no_draft, with_kind, with_schema, HasRoom, with_role};

use crate::roles::Role;
use arrayvec::ArrayVec;
use dt_model::{Kind, Links, MOST_KINDS, Name, NoMemory, Schema, Schemas};
use std::alloc::Global;
use std::mem;

/// The schemas that have been read, and the parts of the one in front.
#[derive(Debug, Drop)]
pub struct Draft {
    /// The schemas before the one in front, in order.
    pub schemas: Schemas,
    /// The name of the schema in front.
    pub name: Name,
    /// Its kinds so far.
    pub kinds: ArrayVec<Kind, MOST_KINDS>,
    /// The name of the kind in front.
    pub kind: Name,
    /// The lower bound of its runs.
    pub lo: u32,
    /// The upper bound of its runs.
    pub hi: u32,
    /// The kind of its first link, where it has two.
    pub pre: Name,
}

impl Draft {
    /// Nothing has been read. It takes no memory.
    pub(crate) fn new(alloc: Global) -> Draft
        ensures value { result ≡ no_draft }
    {
        Draft {
            schemas: Schemas::new(alloc),
            name: Name::default(),
            kinds: ArrayVec::new(),
            kind: Name::default(),
            lo: 0,
            hi: 0,
            pre: Name::default(),
        }
    }
}

/// The draft with the kind in front, which has these links.
fn with_kind(draft: Draft, links: Links) -> Draft
    requires room { length draft.kinds.items < MOST_KINDS }
    ensures value { result ≡ with_kind draft links }
{
    let mut draft = draft;
    draft.kinds.push(Kind {
        name: draft.kind.copy(),
        lo: draft.lo,
        hi: draft.hi,
        links,
    });
    draft
}

/// The draft with the schema in front, whose root is named.
fn with_schema(draft: Draft, root: Name) -> Result<Draft, NoMemory>
    ensures value { IfOk result (λ d. d ≡ with_schema draft root) }
{
    let mut draft = draft;
    let kinds = mem::replace(&mut draft.kinds, ArrayVec::new());
    draft.schemas.push(Schema {
        name: draft.name.copy(),
        kinds,
        root,
    })?;
    Ok(draft)
}

/// The draft with one more token of this role.
pub(crate) fn with_role(draft: Draft, role: Role) -> Result<Draft, NoMemory>
    requires room { HasRoom role draft.kinds.items }
    ensures value { IfOk result (λ d. d ≡ with_role draft role) }
{
    let mut draft = draft;
    match role {
        Role::SchemaName(name) => draft.name = name,
        Role::KindName(name) => draft.kind = name,
        Role::Low(number) => draft.lo = number,
        Role::High(number) => draft.hi = number,
        Role::Pre(name) => draft.pre = name,
        Role::Post(post) => return Ok(with_kind(draft, Links::Post(post))),
        Role::EndsPost(post) => {
            let pre = draft.pre.copy();
            return Ok(with_kind(draft, Links::Ends { pre, post }));
        }
        Role::Woven => return Ok(with_kind(draft, Links::Woven)),
        Role::Root(root) => return with_schema(draft, root),
        Role::Mark => {}
    }
    Ok(draft)
}
