//! The lattices of a kernel.
ghost use Rattle.std.specs.Prelude.{◌≡◌, ◌≤◌, ◌++◌, ◌∷◌, [], length, IfOk, OnOk};
ghost use Rattle.dt_model.specs.Statements.{accesses};
ghost use Rattle.loop_code.specs.Tables.{AreSound};

use dt_model::{Expr, NoMemory, Vars};
use merge_lattice::{PointTable, lattice};
use std::alloc::Global;

/// Puts a table behind others.
fn put(tables: &mut Vec<PointTable>, table: PointTable) -> Result<(), NoMemory>
    ensures ok { OnOk result (tables.new.items ≡ tables.old.items ++ table ∷ []) }
{
    match tables.push(table) {
        Ok(()) => Ok(()),
        Err(_) => Err(NoMemory),
    }
}

/// The lattices of an expression for some variables, in their order.
#[tactic(auto, using(crate::proofs::TableLemmas::table_laws))]
pub(crate) fn tables_of(
    alloc: Global,
    expr: &Expr,
    vars: &Vars,
) -> Result<Vec<PointTable>, NoMemory>
    requires few { length (accesses expr.now) ≤ 12 }
    ensures sound { IfOk result (λ ts. AreSound expr.now vars.now ts.items) }
{
    let mut made = Vec::new(alloc);
    for var in vars.as_slice() {
        let table = lattice(alloc, expr, *var)?;
        put(&mut made, table)?;
    }
    Ok(made)
}
