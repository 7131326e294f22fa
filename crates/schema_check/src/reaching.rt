//! Rule 7: each kind is reached from the root.
ghost use Rattle.std.specs.Prelude.{◌≡◌, ◌≤◌, ℕ, Bool, List, map, length, nat_eq};
ghost use Rattle.std.specs.Cmp.Lexicographic.{pointwise};
ghost use Rattle.dt_model.specs.declared.declared_tensors.Kind.{Kind};
ghost use Rattle.schema_check.specs.Breaches.{first_failing};
ghost use Rattle.schema_check.specs.Reached.{is_linked_from, and_linked, is_within, is_reached};

use crate::links::links_to;
use arrayvec::ArrayVec;
use dt_model::{Kind, MOST_KINDS, Name, Schema};

/// Whether a marked kind links to the name.
fn is_linked_from(kinds: &[Kind], marks: &[bool], name: &Name) -> bool
    requires one_each { length marks.now ≡ length kinds.now }
    ensures value { (set : List ℕ → Bool) → marks.now ≡ map (λ k. set k.name) kinds.now → result ≡ is_linked_from kinds.now set name.now }
{
    match kinds {
        [] => false,
        [kind, rest @ ..] => {
            if marks[0] && links_to(&kind.links, name) {
                true
            } else {
                is_linked_from(rest, &marks[1..], name)
            }
        }
    }
}

/// The marks, and one for each kind to which a marked one links.
fn with_linked(kinds: &[Kind], marks: &[bool]) -> ArrayVec<bool, MOST_KINDS>
    requires one_each { length marks.now ≡ length kinds.now }
    requires few { length kinds.now ≤ MOST_KINDS }
    ensures one_each { length result.items ≡ length kinds.now }
    ensures value { (set : List ℕ → Bool) → marks.now ≡ map (λ k. set k.name) kinds.now → result.items ≡ map (λ k. and_linked kinds.now set k.name) kinds.now }
{
    let mut more = ArrayVec::new();
    for (index, kind) in kinds.iter().enumerate() {
        more.push(marks[index] || is_linked_from(kinds, marks, &kind.name));
    }
    more
}

/// A mark for each kind that has the name.
fn named_marks(kinds: &[Kind], name: &Name) -> ArrayVec<bool, MOST_KINDS>
    requires few { length kinds.now ≤ MOST_KINDS }
    ensures value { result.items ≡ map (λ k. pointwise nat_eq name.now k.name) kinds.now }
{
    let mut marks = ArrayVec::new();
    for kind in kinds {
        marks.push(name.bytes() == kind.name.bytes());
    }
    marks
}

/// A mark for each kind that is reached from the root: as many rounds as there are kinds, each of which goes through all pairs of kinds.
fn reached_marks(schema: &Schema) -> ArrayVec<bool, MOST_KINDS>
    ensures value { result.items ≡ map (is_reached schema.now) schema.now.kinds.items }
{
    let kinds = schema.kinds.as_slice();
    let mut marks = named_marks(kinds, &schema.root);
    for _round in 0..kinds.len() {
        marks = with_linked(kinds, marks.as_slice());
    }
    marks
}

/// The first kind without a mark.
fn first_unmarked(kinds: &[Kind], marks: &[bool]) -> Option<Name>
    requires one_each { length marks.now ≡ length kinds.now }
    ensures value { (test : Kind → Bool) → marks.now ≡ map test kinds.now → result ≡ first_failing test kinds.now }
{
    match kinds {
        [] => None,
        [kind, rest @ ..] => {
            if marks[0] {
                first_unmarked(rest, &marks[1..])
            } else {
                Some(kind.name.copy())
            }
        }
    }
}

/// The first kind that isn't reached from the root.
pub fn first_unreached(schema: &Schema) -> Option<Name>
    ensures value { result ≡ first_failing (is_reached schema.now) schema.now.kinds.items }
{
    let marks = reached_marks(schema);
    first_unmarked(schema.kinds.as_slice(), marks.as_slice())
}
