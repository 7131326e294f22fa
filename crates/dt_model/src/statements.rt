//! Statements in index notation, and their expressions.
ghost use Rattle.std.specs.Prelude.{◌≡◌, IfOk};

use crate::limits::MOST_VARIABLES;
use crate::lists::NoMemory;
use crate::names::Name;
use crate::places::Vars;
use arrayvec::ArrayVec;
use sqlite_items::Boxed;
use std::alloc::Global;

/// The right side of a statement, or a part of it. Parentheses leave no mark.
#[derive(Debug, Drop)]
pub enum Expr {
    /// A number.
    Literal(u64),
    /// The tensor's number at these variables.
    Access { tensor: Name, vars: Vars },
    /// A sum.
    Plus(Boxed<Expr>, Boxed<Expr>),
    /// A difference.
    Minus(Boxed<Expr>, Boxed<Expr>),
    /// A product.
    Times(Boxed<Expr>, Boxed<Expr>),
    /// The negation.
    Negate(Boxed<Expr>),
}

/// A statement in index notation, as `y(i) = A(i,j) * x(j)`. A `Vars` lists indices into `vars`.
#[derive(Debug, Drop)]
pub struct Stmt {
    /// The name of what is answered. It may be that of a tensor, and means nothing.
    pub name: Name,
    /// The names of the variables by first appearance, left side first.
    pub vars: ArrayVec<Name, MOST_VARIABLES>,
    /// The variables of the left side.
    pub left: Vars,
    /// The right side.
    pub right: Expr,
}

impl Expr {
    /// An equal expression.
    pub fn copy(&self, alloc: Global) -> Result<Expr, NoMemory>
        ensures value { IfOk result (λ e. e ≡ self.now) }
    {
        match self {
            Expr::Literal(value) => Ok(Expr::Literal(*value)),
            Expr::Access { tensor, vars } => Ok(Expr::Access {
                tensor: tensor.copy(),
                vars: vars.copy(),
            }),
            Expr::Plus(a, b) => {
                let a = boxed(alloc, a.get().copy(alloc)?)?;
                let b = boxed(alloc, b.get().copy(alloc)?)?;
                Ok(Expr::Plus(a, b))
            }
            Expr::Minus(a, b) => {
                let a = boxed(alloc, a.get().copy(alloc)?)?;
                let b = boxed(alloc, b.get().copy(alloc)?)?;
                Ok(Expr::Minus(a, b))
            }
            Expr::Times(a, b) => {
                let a = boxed(alloc, a.get().copy(alloc)?)?;
                let b = boxed(alloc, b.get().copy(alloc)?)?;
                Ok(Expr::Times(a, b))
            }
            Expr::Negate(a) => {
                let a = boxed(alloc, a.get().copy(alloc)?)?;
                Ok(Expr::Negate(a))
            }
        }
    }
}

/// The expression in an allocation of its own.
fn boxed(alloc: Global, expr: Expr) -> Result<Boxed<Expr>, NoMemory>
    ensures value { IfOk result (λ b. b ≡ expr) }
{
    Ok(Boxed::new(alloc, expr)?)
}

impl Stmt {
    /// An equal statement.
    pub fn copy(&self, alloc: Global) -> Result<Stmt, NoMemory>
        ensures value { IfOk result (λ s. s ≡ self.now) }
    {
        let right = self.right.copy(alloc)?;
        Ok(Stmt {
            name: self.name.copy(),
            vars: names_copied(&self.vars),
            left: self.left.copy(),
            right,
        })
    }
}

/// Equal names. It takes no memory.
fn names_copied(names: &ArrayVec<Name, MOST_VARIABLES>) -> ArrayVec<Name, MOST_VARIABLES>
    ensures value { result.items ≡ names.now.items }
{
    let mut vars = ArrayVec::new();
    for name in names.as_slice() {
        vars.push(name.copy());
    }
    vars
}
