//! The table of one variable: a point for each set of operands.
ghost use Rattle.std.specs.Prelude.{◌≡◌, ◌<◌, ◌≤◌, IfOk, OnOk, [], ◌∷◌, ◌++◌, length};
ghost use Rattle.std.specs.Option.{option_copied};
ghost use Rattle.dt_model.specs.declared.limits.TheConstants.{MOST_ACCESSES};
ghost use Rattle.dt_model.specs.Statements.{accesses};
ghost use Rattle.merge_lattice.specs.Soundness.{IsSound, entry_at};

use crate::points::{Point, point_in};
use dt_model::{Expr, NoMemory};
use std::alloc::Global;
use std::marker::Model;

/// A point for each set of operands at which the expression is present, and none for the others.
#[derive(Debug, Drop)]
pub struct PointTable {
    points: Vec<Option<Point>>,
}

impl Model for PointTable {
    ghost use Rattle.std.specs.Prelude.{List, Option};
    ghost use Rattle.merge_lattice.specs.declared.points.Point.{Point};
    ghost use Rattle.dt_model.specs.contracts.statements.Expr as expr;
    ghost use Rattle.std.specs.Coded.{codes};

    ghost Value = { List (Option Point) };

    ghost coded = { Prim.hlevel (codes, expr.the_row.coded) };

    ghost view = { λ t. t.points.items };
}

impl PointTable {
    /// How many sets there are: 2 to the power of the count of operands, and so 4,096 at most.
    pub fn sets(&self) -> usize
        ensures value { result ≡ length self.now }
    {
        self.points.len()
    }

    /// The point of a set of operands: none exactly where the expression is absent. It takes no memory.
    pub fn pick(&self, present: u16) -> Option<&Point>
        requires in_range { present < length self.now }
        ensures value { option_copied result ≡ entry_at self.now present }
    {
        match self.points.get(usize::from(present)) {
            Some(Some(point)) => Some(point),
            Some(None) => None,
            None => None,
        }
    }
}

/// Puts a point at the end.
fn put(points: &mut Vec<Option<Point>>, point: Option<Point>) -> Result<(), NoMemory>
    ensures ok { OnOk result (points.new.items ≡ points.old.items ++ point ∷ []) }
{
    match points.push(point) {
        Ok(()) => Ok(()),
        Err(_) => Err(NoMemory),
    }
}

/// The points of an expression for each set of its operands of a variable: as many as 2 to the power of their count.
#[tactic(auto, using(crate::proofs::LatticesLemmas::operands_few))]
pub fn lattice(alloc: Global, expr: &Expr, var: u8) -> Result<PointTable, NoMemory>
    requires few { length (accesses expr.now) ≤ MOST_ACCESSES }
    ensures sound { IfOk result (λ t. IsSound var expr.now t) }
{
    // The point of the empty set also counts the operands.
    let empty = point_in(alloc, expr, var, 0, 0)?;
    let sets = 1u16 << empty.next;
    let mut points = Vec::new(alloc);
    put(&mut points, empty.point)?;
    for set in 1..sets {
        let found = point_in(alloc, expr, var, 0, set)?;
        put(&mut points, found.point)?;
    }
    Ok(PointTable { points })
}
