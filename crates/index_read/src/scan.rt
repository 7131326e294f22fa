//! How much of a statement has been read, and its limits.

ghost use Rattle.std.specs.Prelude.{◌≡◌};
ghost use Rattle.std.specs.Option.{option_map};
ghost use Rattle.index_read.specs.Scans.{has_name, with_variable, at_first, count_variable, count_role, step};

use crate::lexer::Token;
use crate::roles::{Place, Role, role_of};
use arrayvec::ArrayVec;
use dt_model::{MOST_ACCESSES, MOST_LITERALS, MOST_PARENTHESES, MOST_VARIABLES, Name};

/// How much of a statement has been read.
#[derive(Debug, Drop)]
pub struct Scan {
    /// What comes next.
    pub place: Place,
    /// How many parenthesised expressions are open.
    pub depth: usize,
    /// How many accesses there are.
    pub accesses: usize,
    /// How many literals there are.
    pub literals: usize,
    /// How many variables the list in front has.
    pub listed: usize,
    /// The variables by first appearance.
    pub vars: ArrayVec<Name, MOST_VARIABLES>,
}

/// Whether a name is among some.
fn has_name(names: &ArrayVec<Name, MOST_VARIABLES>, word: &[u8]) -> bool
    ensures value { result ≡ has_name names.now.items word.now }
{
    names.as_slice().iter().any(|name| name.bytes() == word)
}

/// The variables with one more, each once, if they have room for it.
fn with_variable(
    vars: ArrayVec<Name, MOST_VARIABLES>,
    name: Name,
) -> Option<ArrayVec<Name, MOST_VARIABLES>>
    ensures value { option_map (λ v. v.items) result ≡ with_variable vars.items name }
{
    if has_name(&vars, name.bytes()) {
        return Some(vars);
    }
    if vars.len() < MOST_VARIABLES {
        let mut vars = vars;
        vars.push(name);
        Some(vars)
    } else {
        None
    }
}

impl Scan {
    /// Nothing has been read.
    pub(crate) fn new() -> Scan
        ensures value { result ≡ at_first }
    {
        Scan {
            place: Place::Target,
            depth: 0,
            accesses: 0,
            literals: 0,
            listed: 0,
            vars: ArrayVec::new(),
        }
    }
}

/// The scan with one more variable of the list in front, if no limit forbids it.
fn count_variable(scan: Scan, name: Name) -> Option<Scan>
    ensures value { result ≡ count_variable scan name }
{
    if scan.listed >= MOST_VARIABLES {
        return None;
    }
    match with_variable(scan.vars, name) {
        None => None,
        Some(vars) => Some(Scan {
            place: scan.place,
            depth: scan.depth,
            accesses: scan.accesses,
            literals: scan.literals,
            listed: scan.listed + 1,
            vars,
        }),
    }
}

/// The scan with one more token of this role, if no limit forbids it.
fn count_role(scan: Scan, role: &Role) -> Option<Scan>
    ensures value { result ≡ count_role role.now scan }
{
    let mut scan = scan;
    match role {
        Role::Tensor(_) if scan.accesses < MOST_ACCESSES => {
            scan.accesses += 1;
            scan.listed = 0;
            Some(scan)
        }
        Role::Literal(Some(_)) if scan.literals < MOST_LITERALS => {
            scan.literals += 1;
            Some(scan)
        }
        Role::Group if scan.depth < MOST_PARENTHESES => {
            scan.depth += 1;
            Some(scan)
        }
        Role::Tensor(_) | Role::Literal(_) | Role::Group => None,
        Role::EndGroup => {
            scan.depth = scan.depth.saturating_sub(1);
            Some(scan)
        }
        Role::LeftVariable(name) | Role::Variable(name) => count_variable(scan, name.copy()),
        _ => Some(scan),
    }
}

/// Why a token is refused.
#[derive(Clone, Copy, Debug, PartialEq, Eq)]
pub(crate) enum Fault {
    /// No statement has it there.
    Form,
    /// A limit is passed.
    Limit,
}

/// The scan and the role of one more token.
pub(crate) fn step(scan: Scan, token: Token) -> Result<(Scan, Role), Fault>
    ensures value { result ≡ step scan token }
{
    match role_of(scan.place, token, scan.depth) {
        None => Err(Fault::Form),
        Some((role, place)) => {
            let mut scan = scan;
            scan.place = place;
            match count_role(scan, &role) {
                None => Err(Fault::Limit),
                Some(scan) => Ok((scan, role)),
            }
        }
    }
}
