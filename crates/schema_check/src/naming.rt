//! Rule 4: each kind is declared once, and each name that is used is declared.
ghost use Rattle.std.specs.Prelude.{◌≡◌, []};
ghost use Rattle.schema_check.specs.Rules.{has_declared_links};
ghost use Rattle.schema_check.specs.Breaches.{first_failing, first_redeclared, first_misnamed};

use crate::links::is_declared;
use dt_model::{Kind, Links, Name, Schema};

/// Whether each link of a kind names one of these kinds.
fn has_declared_links(kinds: &[Kind], kind: &Kind) -> bool
    ensures value { result ≡ has_declared_links kinds.now kind.now }
{
    match &kind.links {
        Links::Flat => true,
        Links::Post(post) => is_declared(kinds, post),
        Links::Ends { pre, post } => is_declared(kinds, pre) && is_declared(kinds, post),
        Links::Woven => true,
    }
}

/// The first kind of the latter list with a link that names none of all kinds.
fn first_unlinked(all: &[Kind], kinds: &[Kind]) -> Option<Name>
    ensures value { result ≡ first_failing (has_declared_links all.now) kinds.now }
{
    match kinds {
        [] => None,
        [kind, rest @ ..] => {
            if has_declared_links(all, kind) {
                first_unlinked(all, rest)
            } else {
                Some(kind.name.copy())
            }
        }
    }
}

/// The first kind whose name another one before it has.
fn first_redeclared(kinds: &[Kind]) -> Option<Name>
    ensures value { result ≡ first_redeclared [] kinds.now }
{
    for (index, kind) in kinds.iter().enumerate() {
        if is_declared(&kinds[..index], &kind.name) {
            return Some(kind.name.copy());
        }
    }
    None
}

/// The kind that is named for rule 4.
pub fn first_misnamed(schema: &Schema) -> Option<Name>
    ensures value { result ≡ first_misnamed schema.now }
{
    let kinds = schema.kinds.as_slice();
    match first_redeclared(kinds) {
        Some(name) => Some(name),
        None => match first_unlinked(kinds, kinds) {
            Some(name) => Some(name),
            None => {
                if is_declared(kinds, &schema.root) {
                    None
                } else {
                    Some(schema.root.copy())
                }
            }
        },
    }
}
