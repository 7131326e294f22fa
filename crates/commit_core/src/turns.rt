//! Which call a session makes at a turn, and which turns quit.

ghost use Rattle.std.specs.Prelude.{◌≡◌, ◌≤◌, ◌+◌, ℕ, IfSome, IsTrue};
ghost use Rattle.std.specs.Option.{option_copied};
ghost use Rattle.dt_model.specs.Runs.{call_of};
ghost use Rattle.dt_model.specs.Verdicts.{call_is_valid};
ghost use Rattle.dt_model.specs.Worlds.{IsValid};
ghost use Rattle.commit_core.specs.Turns.{script_of, lines_in, next_after, is_lost};

use dt_model::{Call, Turn, Verdict, Verdicts, World};

/// The script of a session, if the World has it.
fn script_of(world: &World, session: u32) -> Option<&Verdicts>
    ensures value { option_copied result ≡ script_of world.now session }
{
    if session == 0 {
        return None;
    }
    world.scripts.get(session as usize - 1)
}

/// The accepted call of a turn, if it has one.
fn found_call(world: &World, session: u32, number: u32) -> Option<&Call>
    ensures value { option_copied result ≡ call_of world.now session number }
{
    if number == 0 {
        return None;
    }
    let script = script_of(world, session)?;
    match script.get(number as usize - 1)? {
        Verdict::Accepted(call) => Some(call),
        Verdict::Refused(_) => None,
    }
}

/// The accepted call of a turn, if it has one. It is valid.
pub fn call_of(world: &World, session: u32, number: u32) -> Option<&Call>
    requires valid { IsValid world.now }
    ensures value { option_copied result ≡ call_of world.now session number }
    ensures valid { IfSome result (λ call. IsTrue (call_is_valid world.now.decls call.now)) }
{
    found_call(world, session, number)
}

/// How many lines a session's script has.
fn lines_of(world: &World, session: u32) -> u32
    requires valid { IsValid world.now }
    ensures value { result ≡ lines_in (script_of world.now session) }
{
    match script_of(world, session) {
        None => 0,
        Some(script) => script.len() as u32,
    }
}

/// The number of the session's first accepted call after a line, 0 where it has none.
pub fn next_after(world: &World, session: u32, number: u32) -> u32
    requires valid { IsValid world.now }
    ensures value { result ≡ next_after world.now session number }
{
    for line in number..lines_of(world, session) {
        if call_of(world, session, line + 1).is_some() {
            return line + 1;
        }
    }
    0
}

/// Whether a turn is among those that quit.
pub fn is_lost(lost: &[Turn], turn: Turn) -> bool
    ensures value { result ≡ is_lost lost.now turn.session turn.number }
{
    for other in lost {
        if other.session == turn.session && other.number == turn.number {
            return true;
        }
    }
    false
}
