//! The canonical text of a statement.

ghost use Rattle.std.specs.Prelude.{◌≡◌, ℕ, List, [], ◌∷◌, ◌++◌, OnOk, OnErr, if◌then◌else◌};
ghost use Rattle.std.specs.Fmt.{decimal};
ghost use Rattle.index_read.specs.Meaning.{ReadsAs};
ghost use Rattle.index_read.specs.Canonical.{name_at, names_text, encloses_sum, encloses_product, expr_text, left_text, canonical_text};

use arrayvec::ArrayVec;
use dt_model::{Expr, MOST_VARIABLES, Name, NoMemory, Stmt, Vars};
use dt_text::append;
use itoa::Buffer;
use std::alloc::Global;

/// Where an expression stands: the weakest operators that need no parentheses there.
#[derive(Clone, Copy, Debug, PartialEq, Eq)]
pub enum Precedence {
    /// Any.
    Sum,
    /// A product's: a sum, a difference and a negation are enclosed.
    Product,
    /// None: a product is enclosed, too.
    Factor,
}

/// Appends a number in decimal.
fn write_literal(into: &mut Vec<u8>, number: u64) -> Result<(), NoMemory>
    ensures ok { OnOk result (into.new.items ≡ into.old.items ++ decimal number) }
{
    let mut buffer = Buffer::new();
    append(into, buffer.format(number).as_bytes())
}

/// The name of a variable; no bytes where there is none.
fn name_at(vars: &ArrayVec<Name, MOST_VARIABLES>, variable: u8) -> &[u8]
    ensures value { result.now ≡ name_at vars.now.items variable }
{
    match vars.as_slice().get(usize::from(variable)) {
        Some(name) => name.bytes(),
        None => &[],
    }
}

/// Appends the names of variables with commas between them.
fn write_names(
    into: &mut Vec<u8>,
    vars: &ArrayVec<Name, MOST_VARIABLES>,
    list: &[u8],
) -> Result<(), NoMemory>
    ensures ok { OnOk result (into.new.items ≡ into.old.items ++ names_text vars.now.items list.now) }
{
    match list {
        [] => Ok(()),
        [first, more @ ..] => {
            append(into, name_at(vars, *first))?;
            for variable in more {
                append(into, b",")?;
                append(into, name_at(vars, *variable))?;
            }
            Ok(())
        }
    }
}

/// Appends an access.
fn write_access(
    into: &mut Vec<u8>,
    vars: &ArrayVec<Name, MOST_VARIABLES>,
    tensor: &Name,
    list: &Vars,
) -> Result<(), NoMemory>
    ensures ok { OnOk result (into.new.items ≡ into.old.items ++ (tensor.now ++ 40 ∷ (names_text vars.now.items list.now ++ 41 ∷ []))) }
{
    append(into, tensor.bytes())?;
    append(into, b"(")?;
    write_names(into, vars, list.as_slice())?;
    append(into, b")")
}

/// Whether a sum, a difference or a negation has parentheses.
fn encloses_sum(least: Precedence) -> bool
    ensures value { result ≡ encloses_sum least }
{
    match least {
        Precedence::Sum => false,
        Precedence::Product | Precedence::Factor => true,
    }
}

/// Whether a product has parentheses.
fn encloses_product(least: Precedence) -> bool
    ensures value { result ≡ encloses_product least }
{
    match least {
        Precedence::Sum | Precedence::Product => false,
        Precedence::Factor => true,
    }
}

/// Appends a parenthesis, if there is one.
fn write_parenthesis(into: &mut Vec<u8>, parenthesis: &[u8], is_there: bool) -> Result<(), NoMemory>
    ensures ok { OnOk result (into.new.items ≡ into.old.items ++ (if is_there then parenthesis.now else [])) }
{
    if is_there {
        append(into, parenthesis)
    } else {
        Ok(())
    }
}

/// Appends an expression, where operators of a precedence and above need no parentheses.
fn write_expr(
    into: &mut Vec<u8>,
    vars: &ArrayVec<Name, MOST_VARIABLES>,
    least: Precedence,
    expr: &Expr,
) -> Result<(), NoMemory>
    ensures ok { OnOk result (into.new.items ≡ into.old.items ++ expr_text vars.now.items least expr.now) }
{
    match expr {
        Expr::Literal(number) => write_literal(into, *number),
        Expr::Access { tensor, vars: list } => write_access(into, vars, tensor, list),
        Expr::Plus(a, b) => {
            let is_enclosed = encloses_sum(least);
            write_parenthesis(into, b"(", is_enclosed)?;
            write_expr(into, vars, Precedence::Sum, a.get())?;
            append(into, b" + ")?;
            write_expr(into, vars, Precedence::Product, b.get())?;
            write_parenthesis(into, b")", is_enclosed)
        }
        Expr::Minus(a, b) => {
            let is_enclosed = encloses_sum(least);
            write_parenthesis(into, b"(", is_enclosed)?;
            write_expr(into, vars, Precedence::Sum, a.get())?;
            append(into, b" - ")?;
            write_expr(into, vars, Precedence::Product, b.get())?;
            write_parenthesis(into, b")", is_enclosed)
        }
        Expr::Times(a, b) => {
            let is_enclosed = encloses_product(least);
            write_parenthesis(into, b"(", is_enclosed)?;
            write_expr(into, vars, Precedence::Product, a.get())?;
            append(into, b" * ")?;
            write_expr(into, vars, Precedence::Factor, b.get())?;
            write_parenthesis(into, b")", is_enclosed)
        }
        Expr::Negate(a) => {
            let is_enclosed = encloses_sum(least);
            write_parenthesis(into, b"(", is_enclosed)?;
            append(into, b"-")?;
            write_expr(into, vars, Precedence::Product, a.get())?;
            write_parenthesis(into, b")", is_enclosed)
        }
    }
}

/// Appends the variables of a left side, where there are any.
fn write_left(
    into: &mut Vec<u8>,
    vars: &ArrayVec<Name, MOST_VARIABLES>,
    list: &[u8],
) -> Result<(), NoMemory>
    ensures ok { OnOk result (into.new.items ≡ into.old.items ++ left_text vars.now.items list.now) }
{
    match list {
        [] => Ok(()),
        [_, ..] => {
            append(into, b"(")?;
            write_names(into, vars, list)?;
            append(into, b")")
        }
    }
}

/// Appends the whole text.
fn write_text(into: &mut Vec<u8>, stmt: &Stmt) -> Result<(), NoMemory>
    ensures ok { OnOk result (into.new.items ≡ into.old.items ++ canonical_text stmt.now) }
{
    append(into, stmt.name.bytes())?;
    write_left(into, &stmt.vars, stmt.left.as_slice())?;
    append(into, b" = ")?;
    write_expr(into, &stmt.vars, Precedence::Sum, &stmt.right)
}

/// Appends the canonical text of a statement: it has a blank on each side of `=`, `+`, `-` and `*`
/// between operands, none elsewhere, and no more parentheses than the tree needs. Where memory runs
/// out, `into` is as before. A place in a `Vars` that names no variable has no text.
pub fn write_stmt(alloc: Global, stmt: &Stmt, into: &mut Vec<u8>) -> Result<(), NoMemory>
    ensures ok { OnOk result (into.new.items ≡ into.old.items ++ canonical_text stmt.now) }
    ensures err { OnErr result (into.new.items ≡ into.old.items) }
    // The canonical text of a statement that can be read is read as the statement, within the limits.
    ensures reads_back { (text : List ℕ) → ReadsAs text stmt.now → ReadsAs (canonical_text stmt.now) stmt.now }
{
    let mut text = Vec::new(alloc);
    write_text(&mut text, stmt)?;
    append(into, text.as_slice())
}
