//! Work over one structure, to be timed from outside.
//!
//! `structure_bench SHAPE COUNT WHAT TURNS` makes a list of COUNT elements, does WHAT with it TURNS times, and prints a sum of what it saw.
//! SHAPE is `flat`, `list`, `bst` or `tree`. WHAT is `nothing`, or `list`, `array` and `array_look_up` of a plain list, or `build`, `walk`,
//! `fold`, `seek`, `jump` and `look_up` of a structure that is built of it. A program that times it takes the difference to `list` or to `build`.
//! A turn has 100,000 look-ups, of which about a third find an element. So many are its seeks, which rise through the whole structure from
//! 33,333 elements on, and its jumps, each of which opens the structure again and seeks a coordinate without a pattern. COUNT is at most
//! 16,777,216; a greater one is taken as that. `nothing` prints 0, `list` and `build` are done once and print COUNT, look-ups add numbers, and
//! the others add coordinates and numbers.
//!
//! `structure_bench insert TARGET SEQUENCE COUNT` puts the coordinates below COUNT one by one into a target, each with the number of its turn, and
//! prints a sum that tells their order. TARGET is a SHAPE, `mixed`, `map` (the standard library's ordered map), or `nothing`, which only goes
//! through the sequence and prints COUNT. SEQUENCE is `ascending`, `descending` or `random`. Not here: any time.
#![tactic(auto)]

#[cfg(test)]
mod insertion_tests;
mod insertions;
mod lists;
mod sequences;
mod shapes;
#[cfg(test)]
mod tests;
mod works;

use crate::insertions::{Target, do_insertions};
use crate::sequences::{Sequence, sequence_of};
use crate::shapes::{Shape, code_of, shape_of};
use crate::works::{What, do_work, what_of};
use dt_model::NoMemory;
use dt_text::read_index;
use std::env::{Env, FillError};
use std::marker::Brand;
use std::process::ExitCode;
use std::sync::ledger::Blank;

/// The status of words that the program doesn't know.
const USAGE: u8 = 2;

/// The status of a run that is out of memory.
const NO_MEMORY: u8 = 3;

/// What a run does.
#[derive(Clone, Copy, Debug)]
struct Order {
    shape: Shape,
    count: u32,
    what: What,
    turns: u32,
}

/// The number of a word at a place of the command line.
fn number_at(rt: &HostRuntime, place: usize) -> Option<u32> {
    let mut buffer = [0; 16];
    match rt.arg(place, &mut buffer) {
        Ok(len) => read_index(&buffer[..len]).ok(),
        Err(_) => None,
    }
}

/// The order that the words give, if they give one.
fn order_of(rt: &HostRuntime) -> Option<Order> {
    let mut buffer = [0; 16];
    let shape = match rt.arg(1, &mut buffer) {
        Ok(len) => shape_of(&buffer[..len])?,
        Err(_) => return None,
    };
    let what = match rt.arg(3, &mut buffer) {
        Ok(len) => what_of(&buffer[..len])?,
        Err(_) => return None,
    };
    Some(Order {
        shape,
        count: number_at(rt, 2)?,
        what,
        turns: number_at(rt, 4)?,
    })
}

/// What elements are put into, in which order, and how many.
#[derive(Clone, Copy, Debug)]
struct InsertOrder {
    target: Target,
    sequence: Sequence,
    count: u32,
}

/// The target of this name.
fn target_of(word: &[u8]) -> Option<Target> {
    match word {
        b"nothing" => Some(Target::Nothing),
        b"map" => Some(Target::Map),
        _ => match shape_of(word) {
            Some(shape) => Some(Target::Structure(shape)),
            None => None,
        },
    }
}

/// The insertions that the words ask for, if they do.
fn insertions_of(rt: &HostRuntime) -> Option<InsertOrder> {
    let mut buffer = [0; 16];
    match rt.arg(1, &mut buffer) {
        Ok(len) if &buffer[..len] == b"insert".as_slice() => (),
        _ => return None,
    }
    let target = match rt.arg(2, &mut buffer) {
        Ok(len) => target_of(&buffer[..len])?,
        Err(_) => return None,
    };
    let sequence = match rt.arg(3, &mut buffer) {
        Ok(len) => sequence_of(&buffer[..len])?,
        Err(_) => return None,
    };
    Some(InsertOrder {
        target,
        sequence,
        count: number_at(rt, 4)?,
    })
}

/// Prints what the work answers, and ends with its status.
fn finish(rt: &HostRuntime, answer: Result<u64, NoMemory>) -> ExitCode {
    match answer {
        Ok(sum) => match println!(rt; "{sum}") {
            Ok(()) => ExitCode::from(0),
            Err(_) => ExitCode::from(1),
        },
        Err(NoMemory) => ExitCode::from(NO_MEMORY),
    }
}

/// Works on a structure that is built, as the words say.
fn work(rt: &HostRuntime) -> ExitCode {
    let Some(order) = order_of(rt) else {
        return ExitCode::from(USAGE);
    };
    let Some(code) = code_of(order.shape) else {
        return ExitCode::from(USAGE);
    };
    let answer = do_work::<Brand>(
        rt.alloc(),
        Blank::new(1),
        &code,
        order.count,
        order.what,
        order.turns,
    );
    finish(rt, answer)
}

/// Runs the order, and ends with its status.
fn main(rt: HostRuntime) -> ExitCode {
    let Some(insertions) = insertions_of(&rt) else {
        return work(&rt);
    };
    let answer = do_insertions::<Brand>(
        rt.alloc(),
        Blank::new(1),
        insertions.target,
        insertions.sequence,
        insertions.count,
    );
    finish(&rt, answer)
}
