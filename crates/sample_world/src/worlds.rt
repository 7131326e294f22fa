//! The world of a sample: its tensor, its loaded lines, and the script of each session.
ghost use Rattle.std.specs.Prelude.{◌≡◌, ◌+◌, ◌-◌, ◌*◌, ◌≤◌, [], map, IfOk, OnOk};
ghost use Rattle.std.specs.List.{range_with_len};
ghost use Rattle.sample_world.specs.Sample.{calls_each, generated, sample_call, sample_decls, sample_line, sample_lines, sample_script, sample_tensor, sample_world};

use crate::generator::{next_number, place_of};
use crate::sizes::{MOST_SAMPLE, SAMPLE_COLUMNS, SAMPLE_LATCHES, SAMPLE_ROWS, SAMPLE_SESSIONS};
use arrayvec::ArrayVec;
use dt_model::{
    Call, Cell, Coords, Decls, List, Name, NoMemory, Pairs, Schema, Scripts, TensorDecl, Update,
    Updates, Verdict, Verdicts, World,
};
use std::alloc::Global;

/// The tensor S.
fn sample_tensor() -> TensorDecl
    ensures value { result ≡ sample_tensor }
{
    let mut dims = Coords::new();
    dims.push(SAMPLE_ROWS);
    dims.push(SAMPLE_COLUMNS);
    let mut formats = ArrayVec::new();
    formats.push(0);
    formats.push(0);
    TensorDecl {
        name: Name::new(b"S").unwrap(),
        dims,
        formats,
        latches: SAMPLE_LATCHES,
    }
}

/// The declarations: the schema `flat` and the tensor S.
fn declarations(alloc: Global) -> Result<Decls, NoMemory>
    ensures value { IfOk result (λ d. d ≡ sample_decls) }
{
    let mut schemas = List::new(alloc);
    schemas.push(Schema::flat())?;
    let mut tensors = List::new(alloc);
    tensors.push(sample_tensor())?;
    Ok(Decls { schemas, tensors })
}

/// Loaded line k, where the generator has just given its number.
fn line_of(k: u32, number: u32) -> (Coords, u64)
    requires given { number ≡ generated k }
    ensures value { result ≡ sample_line k }
{
    (place_of(number), u64::from(k))
}

/// Puts the loaded lines at the end of none. The generator, which has given nothing yet, moves on.
fn add_lines(count: u32, number: &mut u32, lines: &mut Pairs) -> Result<(), NoMemory>
    requires few { count ≤ MOST_SAMPLE }
    requires given { number.old ≡ generated 0 }
    requires empty { lines.old ≡ [] }
    ensures lines { OnOk result (lines.new ≡ sample_lines count) }
    ensures given { OnOk result (number.new ≡ generated count) }
{
    for before in 0..count {
        *number = next_number(*number);
        lines.push(line_of(before + 1, *number))?;
    }
    Ok(())
}

/// Line `call` of a session's script, where the generator has just given its number.
fn call_of(alloc: Global, count: u32, session: u32, call: u32, number: u32) -> Verdict
    requires given { number ≡ generated (count + (session - 1) * calls_each count + call) }
    ensures value { result ≡ sample_call count session call }
{
    let cell = Cell {
        tensor: 0,
        at: place_of(number),
    };
    let value = u64::from(session);
    let updates = Updates::of_one(alloc, Update::Add { cell, value });
    Verdict::Accepted(Call::Batch(updates))
}

/// The script of a session. The generator has given the numbers before it, and moves on.
fn script_of(
    alloc: Global,
    count: u32,
    session: u32,
    number: &mut u32,
) -> Result<Verdicts, NoMemory>
    requires few { count ≤ MOST_SAMPLE }
    requires session { (1 ≤ session) × (session ≤ SAMPLE_SESSIONS) }
    requires given { number.old ≡ generated (count + (session - 1) * calls_each count) }
    ensures script { IfOk result (λ script. script ≡ sample_script count session) }
    ensures given { OnOk result (number.new ≡ generated (count + session * calls_each count)) }
{
    let mut script = List::new(alloc);
    for before in 0..count / SAMPLE_SESSIONS {
        *number = next_number(*number);
        let line = call_of(alloc, count, session, before + 1, *number);
        script.push(line)?;
    }
    Ok(script)
}

/// The scripts of all sessions. The generator has given the numbers of the loaded lines, and moves on.
fn scripts_of(alloc: Global, count: u32, number: &mut u32) -> Result<Scripts, NoMemory>
    requires few { count ≤ MOST_SAMPLE }
    requires given { number.old ≡ generated count }
    ensures scripts { IfOk result (λ scripts. scripts ≡ map (sample_script count) (range_with_len 1 SAMPLE_SESSIONS)) }
{
    let mut scripts = List::new(alloc);
    for before in 0..SAMPLE_SESSIONS {
        let script = script_of(alloc, count, before + 1, number)?;
        scripts.push(script)?;
    }
    Ok(scripts)
}

/// The world of a number: so many loaded lines, and a quarter as many calls in each session. The lines take 16 bytes each, the
/// calls 80.
pub fn world_of(alloc: Global, count: u32) -> Result<World, NoMemory>
    requires few { count ≤ MOST_SAMPLE }
    ensures value { IfOk result (λ world. world ≡ sample_world count) }
{
    let decls = declarations(alloc)?;
    let mut number = 0;
    let mut lines = Pairs::new(alloc);
    add_lines(count, &mut number, &mut lines)?;
    let mut base = List::new(alloc);
    base.push(lines)?;
    let scripts = scripts_of(alloc, count, &mut number)?;
    Ok(World {
        decls,
        base,
        scripts,
    })
}
