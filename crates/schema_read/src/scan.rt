//! How much of a schema file has been read, and its limits.

ghost use Rattle.std.specs.Prelude.{◌≡◌};
ghost use Rattle.schema_read.specs.Scans.{nothing, at_first, count_token, is_end, step};

use crate::lexer::Token;
use crate::roles::{Place, Role, role_of};
use dt_model::{MOST_KINDS, MOST_SCHEMAS};

/// How many schemas and kinds have begun.
#[derive(Clone, Copy, Debug, PartialEq, Eq)]
pub struct Counts {
    /// The schemas.
    pub schemas: usize,
    /// The kinds of the schema in front.
    pub kinds: usize,
}

/// How much of a schema file has been read.
#[derive(Clone, Copy, Debug, PartialEq, Eq)]
pub struct Scan {
    /// What comes next.
    pub place: Place,
    /// What has begun.
    pub counts: Counts,
}

/// Why a token is refused.
#[derive(Clone, Copy, Debug, PartialEq, Eq)]
pub(crate) enum Fault {
    /// No file has it there.
    Form,
    /// A limit is passed.
    Limit,
}

impl Scan {
    /// Nothing has been read.
    pub(crate) fn new() -> Scan
        ensures value { result ≡ at_first }
    {
        Scan {
            place: Place::Outside,
            counts: Counts {
                schemas: 0,
                kinds: 0,
            },
        }
    }
}

/// The counts with one more token, if no limit forbids it.
fn count_token(counts: Counts, token: &Token) -> Option<Counts>
    ensures value { result ≡ count_token counts token.now }
{
    match token {
        Token::Schema => {
            if counts.schemas < MOST_SCHEMAS {
                Some(Counts {
                    schemas: counts.schemas + 1,
                    kinds: 0,
                })
            } else {
                None
            }
        }
        Token::Node => {
            if counts.kinds < MOST_KINDS {
                Some(Counts {
                    schemas: counts.schemas,
                    kinds: counts.kinds + 1,
                })
            } else {
                None
            }
        }
        _ => Some(counts),
    }
}

/// Whether a file may end here.
pub(crate) fn is_end(place: Place) -> bool
    ensures value { result ≡ is_end place }
{
    match place {
        Place::Outside => true,
        _ => false,
    }
}

/// The scan and the role of one more token.
pub(crate) fn step(scan: Scan, token: Token) -> Result<(Scan, Role), Fault>
    ensures value { result ≡ step scan token }
{
    let counts = count_token(scan.counts, &token);
    match role_of(scan.place, token) {
        None => Err(Fault::Form),
        Some((role, place)) => match counts {
            None => Err(Fault::Limit),
            Some(counts) => Ok((Scan { place, counts }, role)),
        },
    }
}
