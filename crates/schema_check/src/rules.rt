//! Rules 1 to 3, 5 and 6: what is asked of a single kind, and which kind fails it first.
ghost use Rattle.std.specs.Prelude.{◌≡◌};
ghost use Rattle.schema_check.specs.Rules.{has_bounds, may_be_short, can_be_split, goes_on_alike, has_fit_links, has_room_for_half};
ghost use Rattle.schema_check.specs.Breaches.{first_failing};

use crate::links::{is_woven, links_to, post_kind, pre_kind};
use dt_model::{Kind, Links, Name};

/// The elements of a run.
pub const MOST_RUN: u32 = 16;

/// Rule 1: the bounds of a run are in order, from 1 to `MOST_RUN`.
fn has_bounds(kind: &Kind) -> bool
    ensures value { result ≡ has_bounds kind.now }
{
    1 <= kind.lo && kind.lo <= kind.hi && kind.hi <= MOST_RUN
}

/// Rule 2: a run with a structure after it may have one element.
fn may_be_short(kind: &Kind) -> bool
    ensures value { result ≡ may_be_short kind.now }
{
    match &kind.links {
        Links::Flat => true,
        Links::Post(_) => kind.lo == 1,
        Links::Ends { pre: _, post: _ } => kind.lo == 1,
        Links::Woven => true,
    }
}

/// Rule 3: each half of a woven node that is split is long enough.
fn can_be_split(kind: &Kind) -> bool
    ensures value { result ≡ can_be_split kind.now }
{
    !is_woven(&kind.links) || (2 <= kind.hi && kind.lo <= kind.hi / 2)
}

/// Whether a structure of the kind is of this kind alone where it goes on.
fn goes_on_alike(kind: &Kind) -> bool
    ensures value { result ≡ goes_on_alike kind.now }
{
    match &kind.links {
        Links::Flat => false,
        Links::Post(post) => post.bytes() == kind.name.bytes(),
        Links::Ends { pre: _, post } => post.bytes() == kind.name.bytes(),
        Links::Woven => true,
    }
}

/// Rule 5: the kind before the run isn't flat, and the one after it goes on alike.
fn has_fit_links(kinds: &[Kind], kind: &Kind) -> bool
    ensures value { result ≡ has_fit_links kinds.now kind.now }
{
    let is_pre_fit = match pre_kind(kinds, &kind.links) {
        None => true,
        Some(pre) => !matches!(pre.links, Links::Flat),
    };
    let is_post_fit = match post_kind(kinds, &kind.links) {
        None => true,
        Some(post) => goes_on_alike(post),
    };
    is_pre_fit && is_post_fit
}

/// Rule 6: half of a run with one element too many is a run of the kind after it, unless that is woven.
fn has_room_for_half(kinds: &[Kind], kind: &Kind) -> bool
    ensures value { result ≡ has_room_for_half kinds.now kind.now }
{
    match post_kind(kinds, &kind.links) {
        None => true,
        Some(post) => is_woven(&post.links) || kind.hi.div_ceil(2) <= post.hi,
    }
}

/// The first kind that breaks rule 1.
pub fn first_out_of_bounds(kinds: &[Kind]) -> Option<Name>
    ensures value { result ≡ first_failing has_bounds kinds.now }
{
    match kinds {
        [] => None,
        [kind, rest @ ..] => {
            if has_bounds(kind) {
                first_out_of_bounds(rest)
            } else {
                Some(kind.name.copy())
            }
        }
    }
}

/// The first kind that breaks rule 2.
pub fn first_too_long(kinds: &[Kind]) -> Option<Name>
    ensures value { result ≡ first_failing may_be_short kinds.now }
{
    match kinds {
        [] => None,
        [kind, rest @ ..] => {
            if may_be_short(kind) {
                first_too_long(rest)
            } else {
                Some(kind.name.copy())
            }
        }
    }
}

/// The first kind that breaks rule 3.
pub fn first_unsplit(kinds: &[Kind]) -> Option<Name>
    ensures value { result ≡ first_failing can_be_split kinds.now }
{
    match kinds {
        [] => None,
        [kind, rest @ ..] => {
            if can_be_split(kind) {
                first_unsplit(rest)
            } else {
                Some(kind.name.copy())
            }
        }
    }
}

/// The first kind of the latter list that breaks rule 5 among all of them.
pub fn first_unfit(all: &[Kind], kinds: &[Kind]) -> Option<Name>
    ensures value { result ≡ first_failing (has_fit_links all.now) kinds.now }
{
    match kinds {
        [] => None,
        [kind, rest @ ..] => {
            if has_fit_links(all, kind) {
                first_unfit(all, rest)
            } else {
                Some(kind.name.copy())
            }
        }
    }
}

/// The first kind of the latter list that breaks rule 6 among all of them.
pub fn first_without_room(all: &[Kind], kinds: &[Kind]) -> Option<Name>
    ensures value { result ≡ first_failing (has_room_for_half all.now) kinds.now }
{
    match kinds {
        [] => None,
        [kind, rest @ ..] => {
            if has_room_for_half(all, kind) {
                first_without_room(all, rest)
            } else {
                Some(kind.name.copy())
            }
        }
    }
}
