//! The first rule that a schema breaks.
ghost use Rattle.std.specs.Prelude.{◌≡◌, ◌+◌, ◌≤◌, length};
ghost use Rattle.schema_check.specs.Breaches.{first_breach, culprits};

use crate::naming::first_misnamed;
use crate::reaching::first_unreached;
use crate::rules::{
    first_out_of_bounds, first_too_long, first_unfit, first_unsplit, first_without_room,
};
use dt_model::{Name, Schema};

/// A rule that a schema breaks, counted from 1 to 7, and the kind that is named for it. For rule 4 it may be
/// the root's name, which no kind has.
#[derive(Debug, Drop, PartialEq, Eq)]
pub struct Breach {
    /// The number of the rule.
    pub rule: u8,
    /// The first kind that breaks it, in order of declaration.
    pub kind: Name,
}

/// The first breach, where these are the kinds named for the rules from this one on.
fn first_named(rule: u8, named: &[Option<Name>]) -> Option<Breach>
    requires few { rule + length named.now ≤ 255 }
    ensures value { result ≡ first_breach rule named.now }
{
    match named {
        [] => None,
        [culprit, rest @ ..] => match culprit {
            None => first_named(rule + 1, rest),
            Some(kind) => Some(Breach {
                rule,
                kind: kind.copy(),
            }),
        },
    }
}

/// The first rule that a schema breaks. All rules are looked at: 16 kinds at most are soon gone through.
pub fn first_breach(schema: &Schema) -> Option<Breach>
    ensures value { result ≡ first_breach 1 (culprits schema.now) }
{
    let kinds = schema.kinds.as_slice();
    let named = [
        first_out_of_bounds(kinds),
        first_too_long(kinds),
        first_unsplit(kinds),
        first_misnamed(schema),
        first_unfit(kinds, kinds),
        first_without_room(kinds, kinds),
        first_unreached(schema),
    ];
    first_named(1, named.as_slice())
}
