//! Replies and verdicts, and the world that a run begins with.
use crate::calls::Call;
use crate::declared_tensors::Decls;
use crate::lists::List;
use crate::names::Name;
use crate::pairs::{Nonzeros, Pairs};

/// For each tensor, by number, its loaded lines.
pub type Base = List<Pairs>;

/// What a call that was made answers.
#[derive(Debug, Drop, PartialEq, Eq)]
pub enum Reply {
    /// A batch was made.
    Done,
    /// The number in the cell of a get.
    Value(u64),
    /// The nonzeros of a query's answer.
    Result(Nonzeros),
}

/// Why a line is refused. Columns, modes and terms are counted from 1.
#[derive(Debug, Drop, PartialEq, Eq)]
pub enum Refusal {
    /// The line has no form from this column on.
    Form { column: u32 },
    /// At this column the line goes past a limit.
    Limit { column: u32 },
    /// No tensor has this name.
    Name { name: Name },
    /// So many coordinates or variables are given to a tensor of another order.
    Rank { name: Name, given: u32, order: u32 },
    /// The coordinate of this mode isn't from 1 to the dimension.
    Range { name: Name, mode: u32, dim: u32 },
    /// The value isn't whole.
    NotWhole,
    /// The value isn't from -2^63 to 2^64 - 1.
    TooLarge,
    /// The variable has another dimension here than where it was first.
    Dimension { var: Name, first: u32, second: u32 },
    /// The variable is twice on the left side or in one access.
    Repeated { var: Name },
    /// The term has no access.
    Access { term: u32 },
    /// The term doesn't cover the variable.
    Uncovered { term: u32, var: Name },
}

/// The result of judging a line of a script. It has 80 bytes.
#[derive(Debug, Drop)]
pub enum Verdict {
    /// The line asks for this call.
    Accepted(Call),
    /// The line is refused for this reason, the first that applies.
    Refused(Refusal),
}

/// A session's script: the verdict on line n is at index n - 1.
pub type Verdicts = List<Verdict>;

/// The scripts of all sessions: that of session s is at index s - 1.
pub type Scripts = List<Verdicts>;

/// What a run begins with.
#[derive(Debug, Drop)]
pub struct World {
    /// The schemas and tensors.
    pub decls: Decls,
    /// The loaded lines.
    pub base: Base,
    /// The scripts.
    pub scripts: Scripts,
}
