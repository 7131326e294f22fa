//! The kinds that a kind's links name.
ghost use Rattle.std.specs.Prelude.{◌≡◌};
ghost use Rattle.std.specs.Option.{option_copied};
ghost use Rattle.schema_check.specs.Links.{is_woven, links_to, is_declared, kind_named, pre_kind, post_kind};

use dt_model::{Kind, Links, Name};

/// Whether a node has children of its own kind.
pub fn is_woven(links: &Links) -> bool
    ensures value { result ≡ is_woven links.now }
{
    matches!(links, Links::Woven)
}

/// Whether one of the links has this name.
pub fn links_to(links: &Links, name: &Name) -> bool
    ensures value { result ≡ links_to links.now name.now }
{
    match links {
        Links::Flat => false,
        Links::Post(post) => post.bytes() == name.bytes(),
        Links::Ends { pre, post } => pre.bytes() == name.bytes() || post.bytes() == name.bytes(),
        Links::Woven => false,
    }
}

/// Whether a kind has this name.
pub fn is_declared(kinds: &[Kind], name: &Name) -> bool
    ensures value { result ≡ is_declared kinds.now name.now }
{
    kinds.iter().any(|kind| kind.name.bytes() == name.bytes())
}

/// The first kind with this name.
fn kind_named<'a>(kinds: &'a [Kind], name: &Name) -> Option<&'a Kind>
    ensures value { option_copied result ≡ kind_named kinds.now name.now }
{
    kinds.iter().find(|kind| kind.name.bytes() == name.bytes())
}

/// The kind before the run, if the links name one.
pub fn pre_kind<'a>(kinds: &'a [Kind], links: &Links) -> Option<&'a Kind>
    ensures value { option_copied result ≡ pre_kind kinds.now links.now }
{
    match links {
        Links::Flat => None,
        Links::Post(_) => None,
        Links::Ends { pre, post: _ } => kind_named(kinds, pre),
        Links::Woven => None,
    }
}

/// The kind after the run, if the links name one.
pub fn post_kind<'a>(kinds: &'a [Kind], links: &Links) -> Option<&'a Kind>
    ensures value { option_copied result ≡ post_kind kinds.now links.now }
{
    match links {
        Links::Flat => None,
        Links::Post(post) => kind_named(kinds, post),
        Links::Ends { pre: _, post } => kind_named(kinds, post),
        Links::Woven => None,
    }
}
