//! The statement of a text, or its first fault with its column.

ghost use Rattle.std.specs.Prelude.{◌≡◌, ◌≤◌, ◌+◌, length, true, IfOk, IfErr};
ghost use Rattle.index_read.specs.Faults.{is_end, first_fault, fault_at, column_of, AnswersFault};
ghost use Rattle.index_read.specs.Building.{read_of, stmt_of};
ghost use Rattle.index_read.specs.Meaning.{StmtText, Reads, AnswersStmt, statement_in, AnswersReading};
ghost use Rattle.dt_model.specs.declared.statements.Stmt.{Stmt};
ghost use Rattle.dt_model.specs.Verdicts.{is_small};
ghost use Rattle.dt_model.specs.declared.limits.TheConstants.{FILE_LIMIT};

use crate::lexer::{Statements, token_of};
use crate::roles::Place;
use crate::scan::{Fault, Scan, step};
use crate::trees::{Levels, Tree, expr_of, with_role};
use dt_model::{NoMemory, Stmt};
use dt_text::token_at;
use std::alloc::Global;
use thiserror::Error;

/// Why a text is no statement.
#[derive(Clone, Copy, Debug, PartialEq, Eq, Error)]
pub enum StmtFault {
    /// No statement has the token at this column there.
    #[error("no statement has what stands in column {column}")]
    Form { column: u32 },
    /// A limit is passed at this column.
    #[error("what stands in column {column} is more than is allowed")]
    Limit { column: u32 },
    /// Out of memory.
    #[error("out of memory")]
    NoMemory,
}

impl From<NoMemory> for StmtFault {
    ghost use Rattle.index_read.specs.declared.read.StmtFault.TheVariants as because;

    ghost from_gives = { λ _ e. e ≡ because.NoMemory };

    /// The fault of a reading that runs out of memory.
    fn from(_fault: NoMemory) -> StmtFault {
        StmtFault::NoMemory
    }
}

/// Whether a statement may end here.
fn is_end(scan: &Scan) -> bool
    ensures value { result ≡ is_end scan.now }
{
    match scan.place {
        Place::After => scan.depth == 0,
        _ => false,
    }
}

/// A fault at a place of the text, which counts from 0.
fn fault_at(fault: Fault, place: usize) -> StmtFault
    requires short { place ≤ FILE_LIMIT }
    ensures value { result ≡ fault_at fault (place + 1) }
    ensures column { column_of result ≡ place + 1 }
{
    let column = place as u32 + 1;
    match fault {
        Fault::Form => StmtFault::Form { column },
        Fault::Limit => StmtFault::Limit { column },
    }
}

/// What is read of a text without a fault, or its first fault.
fn read_tree(alloc: Global, text: &[u8]) -> Result<(Scan, Tree), StmtFault>
    requires short { length text.now ≤ FILE_LIMIT }
    ensures fault { AnswersFault result (first_fault text.now) }
    ensures value { IfOk result (λ r. r ≡ read_of text.now) }
    ensures within { IfErr result (λ fault. column_of fault ≤ length text.now + 1) }
{
    let mut scan = Scan::new();
    let mut tree = Tree::new(alloc);
    let mut at = 0;
    while let Some(span) = token_at::<Statements>(text, at) {
        let token = token_of(&text[span.from..span.to]);
        match step(scan, token) {
            Err(fault) => return Err(fault_at(fault, span.from)),
            Ok((next, role)) => {
                tree = with_role(alloc, tree, role, &next.vars)?;
                scan = next;
                at = span.to;
            }
        }
    }
    if is_end(&scan) {
        Ok((scan, tree))
    } else {
        Err(fault_at(Fault::Form, at))
    }
}

/// The statement of a text without a fault, or its first fault.
fn statement(alloc: Global, text: &[u8]) -> Result<Stmt, StmtFault>
    requires short { length text.now ≤ FILE_LIMIT }
    ensures fault { AnswersFault result (first_fault text.now) }
    ensures value { IfOk result (λ s. s ≡ stmt_of (read_of text.now)) }
    ensures within { IfErr result (λ fault. column_of fault ≤ length text.now + 1) }
{
    let (scan, tree) = read_tree(alloc, text)?;
    let Scan {
        place: _,
        depth: _,
        accesses: _,
        literals: _,
        listed: _,
        vars,
    } = scan;
    let Tree {
        name,
        left,
        tensor: _,
        list: _,
        levels,
    } = tree;
    let Levels { outer: _, here } = levels;
    let right = expr_of(alloc, here)?;
    Ok(Stmt {
        name,
        vars,
        left,
        right,
    })
}

/// The statement that a text writes, or its first fault. Columns count from 1, and are bytes of this
/// text; the end column is one past the last byte that is no blank. Where a form fault and a limit meet
/// in one column, the form fault is answered.
pub fn read_stmt(alloc: Global, text: &[u8]) -> Result<Stmt, StmtFault>
    requires short { length text.now ≤ FILE_LIMIT }
    // What is read is what the text writes; a form fault is where no statement goes on so.
    ensures reads { Reads text.now result }
    // What the text writes is read, unless a limit is passed or memory runs out.
    ensures only { (stmt : Stmt) → StmtText text.now stmt → AnswersStmt stmt result }
    // The fault is the first one of the table.
    ensures fault { AnswersFault result (first_fault text.now) }
    ensures within { IfErr result (λ fault. column_of fault ≤ length text.now + 1) }
    // All this as one value, which clauses above cite.
    ensures value { AnswersReading (statement_in text.now) result }
    // What is read is within the limits, and its variables are in the order of their first places.
    ensures small { IfOk result (λ s. is_small s ≡ true) }
{
    statement(alloc, text)
}
