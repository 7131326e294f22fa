//! What no clause says: a statement is planned, and another refused, with ample memory.
ghost use Rattle.std.specs.Prelude.{true, ◌≡◌};
ghost use Rattle.dt_model.specs.Verdicts.{is_small};

use crate::{CheckFault, Plan, check_stmt};
use arrayvec::ArrayVec;
use dt_model::{
    Coords, Decls, Expr, List, Name, NoMemory, Refusal, Schema, Stmt, TensorDecl, Vars,
};
use std::alloc::Global;

/// The name of a letter.
fn name(letter: &[u8]) -> Name {
    match Name::new(letter) {
        Some(name) => name,
        None => Name::default(),
    }
}

/// The tensor x of dimension 7.
fn decls(alloc: Global) -> Result<Decls, NoMemory> {
    let mut schemas = List::new(alloc);
    schemas.push(Schema::flat())?;
    let mut dims = Coords::new();
    dims.push(7);
    let mut formats = ArrayVec::new();
    formats.push(0);
    let mut tensors = List::new(alloc);
    tensors.push(TensorDecl {
        name: name(b"x"),
        dims,
        formats,
        latches: 1,
    })?;
    Ok(Decls { schemas, tensors })
}

/// The statement `a(i) = T(i)` for a tensor.
fn copied(tensor: Name) -> Stmt
    ensures small { is_small result ≡ true }
{
    let mut left = Vars::new();
    left.push(0);
    let mut vars = Vars::new();
    vars.push(0);
    let mut names = ArrayVec::new();
    names.push(name(b"i"));
    Stmt {
        name: name(b"a"),
        vars: names,
        left,
        right: Expr::Access { tensor, vars },
    }
}

/// The plan has one kernel over the one variable, whose dimension is 7.
fn is_planned(plan: &Plan) -> bool {
    let mut vars = Vars::new();
    vars.push(0);
    match plan.kernels() {
        [kernel] => {
            kernel.vars == vars
                && kernel.order == vars
                && kernel.terms == 1
                && kernel.repack == 0
                && plan.dims().as_slice() == [7].as_slice()
                && plan.stmt().name == name(b"a")
        }
        _ => false,
    }
}

/// The refusal is that there is no tensor w.
fn is_without_w(fault: CheckFault) -> bool {
    match fault {
        CheckFault::Refused(refusal) => refusal == Refusal::Name { name: name(b"w") },
        CheckFault::NoMemory => false,
    }
}

#[test]
fn a_statement_is_planned(rt: HostRuntime) -> Result<(), NoMemory> {
    let decls = decls(rt.alloc())?;
    let stmt = copied(name(b"x"));
    let answer = check_stmt(rt.alloc(), &decls, &stmt);
    match answer {
        Ok(plan) => assert!(rt; is_planned(&plan)),
        Err(_fault) => assert!(rt; false),
    }
    Ok(())
}

#[test]
fn a_statement_is_refused(rt: HostRuntime) -> Result<(), NoMemory> {
    let decls = decls(rt.alloc())?;
    let stmt = copied(name(b"w"));
    let answer = check_stmt(rt.alloc(), &decls, &stmt);
    match answer {
        Ok(_plan) => assert!(rt; false),
        Err(fault) => assert!(rt; is_without_w(fault)),
    }
    Ok(())
}
