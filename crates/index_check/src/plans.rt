//! Plans: the kernels of a statement that isn't refused.
ghost use Rattle.std.specs.Prelude.{◌≡◌, true, IfOk};
ghost use Rattle.dt_model.specs.Verdicts.{is_small};
ghost use Rattle.index_check.specs.Plans.{plan_of};

use crate::accesses::accesses_of;
use crate::dims::dims_of_vars;
use crate::kernels::kernels_of;
use crate::terms::add_terms;
use dt_model::{Coords, Decls, NoMemory, Stmt, Vars};
use std::alloc::Global;
use std::marker::Model;

/// The terms of a statement that have the same variables, which one nest of loops evaluates.
#[derive(Debug, Drop, PartialEq, Eq)]
pub struct Kernel {
    /// The variables of the left side and of the terms, in the order of the statement's.
    pub vars: Vars,
    /// The same variables in the order of the loops, the outermost first.
    pub order: Vars,
    /// The terms: bit t is term t's, counted from 0.
    pub terms: u32,
    /// The accesses that are repacked, since their own order of variables isn't that of the loops: bit a
    /// is access a's, counted from 0 over the whole statement.
    pub repack: u16,
}

/// The kernels of a statement, at most 12, with the statement and the dimensions of its variables.
#[derive(Debug, Drop)]
pub struct Plan {
    kernels: Vec<Kernel>,
    stmt: Stmt,
    dims: Coords,
}

impl Model for Plan {
    ghost use Rattle.dt_model.specs.contracts.statements.Expr as expr;
    ghost use Rattle.std.specs.Coded.{codes};
    ghost use Rattle.index_check.specs.Plans.{PlanState};

    ghost Value = { PlanState };

    ghost coded = { Prim.hlevel (codes, expr.the_row.coded) };

    ghost view = { λ p. record { kernels = p.kernels.items; stmt = p.stmt; dims = p.dims } };
}

impl Plan {
    /// The kernels, in the order of their first terms.
    pub fn kernels(&self) -> &[Kernel]
        ensures value { result.now ≡ self.now.kernels }
    {
        self.kernels.as_slice()
    }

    /// The statement.
    pub fn stmt(&self) -> &Stmt
        ensures value { result.now ≡ self.now.stmt }
    {
        &self.stmt
    }

    /// The dimension of each variable, in the order of the statement's.
    pub fn dims(&self) -> &Coords
        ensures value { result.now ≡ self.now.dims }
    {
        &self.dims
    }
}

/// The plan of a small statement.
pub(crate) fn plan_of(alloc: Global, decls: &Decls, stmt: &Stmt) -> Result<Plan, NoMemory>
    requires small { is_small stmt.now ≡ true }
    ensures plan { IfOk result (λ plan. plan ≡ plan_of decls.now stmt.now) }
{
    let list = accesses_of(&stmt.right);
    let mut terms = Vec::new(alloc);
    add_terms(alloc, true, &stmt.right, &mut terms)?;
    let kernels = kernels_of(alloc, stmt, terms.as_slice())?;
    let dims = dims_of_vars(decls, list.as_slice(), stmt.vars.len() as u8);
    Ok(Plan {
        kernels,
        stmt: stmt.copy(alloc)?,
        dims,
    })
}
