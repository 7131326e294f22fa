//! The accesses of an expression, as a list of a fixed size.
ghost use Rattle.std.specs.Prelude.{◌≡◌, ◌+◌, ◌≤◌, [], ◌∷◌, ◌++◌, length};
ghost use Rattle.dt_model.specs.declared.limits.TheConstants.{MOST_ACCESSES};
ghost use Rattle.dt_model.specs.Statements.{accesses};

use arrayvec::ArrayVec;
use dt_model::{Expr, MOST_ACCESSES, Name, Vars};
use std::marker::Model;

/// An access: a tensor's name, and the variables. Contracts see the pair of them. It has 56 bytes.
#[derive(Debug, Drop)]
pub struct Access {
    tensor: Name,
    vars: Vars,
}

impl Model for Access {
    ghost use Rattle.std.specs.Prelude.{List, ℕ};

    ghost Value = { List ℕ × List ℕ };

    ghost view = { λ a. (a.tensor, a.vars) };
}

/// The accesses of a statement or a part of it, from left to right.
pub type Accesses = ArrayVec<Access, MOST_ACCESSES>;

impl Default for Access {
    /// It fills the unused places of a list.
    fn default() -> Access {
        Access {
            tensor: Name::default(),
            vars: Vars::new(),
        }
    }
}

impl Access {
    /// The access of a tensor at some variables.
    fn of(tensor: &Name, vars: &Vars) -> Access
        ensures value { result ≡ (tensor.now, vars.now) }
    {
        Access {
            tensor: tensor.copy(),
            vars: vars.copy(),
        }
    }

    /// The tensor's name.
    pub fn tensor(&self) -> &Name
        ensures value { result.now ≡ self.now.0 }
    {
        &self.tensor
    }

    /// The variables.
    pub fn vars(&self) -> &Vars
        ensures value { result.now ≡ self.now.1 }
    {
        &self.vars
    }
}

/// Puts the accesses of an expression behind others, from left to right.
#[tactic(auto, using(crate::proofs::Laws::access_count_laws))]
fn add_accesses(expr: &Expr, list: &mut Accesses)
    requires room { length list.old.items + length (accesses expr.now) ≤ MOST_ACCESSES }
    ensures value { list.new.items ≡ list.old.items ++ accesses expr.now }
{
    match expr {
        Expr::Literal(_) => {}
        Expr::Access { tensor, vars } => list.push(Access::of(tensor, vars)),
        Expr::Plus(a, b) => {
            add_accesses(a.get(), list);
            add_accesses(b.get(), list);
        }
        Expr::Minus(a, b) => {
            add_accesses(a.get(), list);
            add_accesses(b.get(), list);
        }
        Expr::Times(a, b) => {
            add_accesses(a.get(), list);
            add_accesses(b.get(), list);
        }
        Expr::Negate(a) => add_accesses(a.get(), list),
    }
}

/// The accesses of an expression, from left to right. It takes no memory.
pub fn accesses_of(expr: &Expr) -> Accesses
    requires few { length (accesses expr.now) ≤ MOST_ACCESSES }
    ensures value { result.items ≡ accesses expr.now }
{
    let mut list = Accesses::new();
    add_accesses(expr, &mut list);
    list
}
