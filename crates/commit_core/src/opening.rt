//! A core's lists before the first event.

ghost use Rattle.std.specs.Prelude.{◌≡◌, ◌+◌, ◌<◌, ℕ, IfOk, length, slice_index, sum_by};
ghost use Rattle.dt_model.specs.Worlds.{IsValid};
ghost use Rattle.commit_core.specs.Events.{position_after};
ghost use Rattle.commit_core.specs.State.{position_in};

use crate::events::Position;
use crate::turns::next_after;
use dt_model::{NoMemory, World};
use std::alloc::Global;

/// So many latches, each of which is free.
pub fn all_free(alloc: Global, latches: u32) -> Result<Vec<u32>, NoMemory>
    ensures len { IfOk result (λ holders. length holders.items ≡ latches) }
    ensures free { IfOk result (λ holders. (k : ℕ) → slice_index holders.items k ≡ 0) }
{
    Ok(vec![in alloc; 0; latches as usize]?)
}

/// The place of a session at its first accepted call after a line.
pub fn position_after(world: &World, session: u32, number: u32) -> Position
    requires valid { IsValid world.now }
    ensures value { result ≡ position_after world.now session number }
{
    Position {
        number: next_after(world, session, number),
        committed: false,
    }
}

/// Each session at its first accepted call; place 0 is of no session.
pub fn first_positions(alloc: Global, world: &World) -> Result<Vec<Position>, NoMemory>
    requires valid { IsValid world.now }
    ensures len { IfOk result (λ positions. length positions.items ≡ length world.now.scripts + 1) }
    ensures positions { IfOk result (λ positions. (s : ℕ) → position_in positions.items s ≡ position_after world.now s 0) }
{
    let mut positions = Vec::new(alloc);
    for session in 0..world.scripts.len() + 1 {
        positions.push(position_after(world, session as u32, 0))?;
    }
    Ok(positions)
}

/// How many lines the scripts have.
pub fn lines_in(world: &World) -> u32
    requires valid { IsValid world.now }
    ensures value { result ≡ sum_by length world.now.scripts }
{
    let mut lines = 0;
    for script in world.scripts.as_slice() {
        lines += script.len() as u32;
    }
    lines
}
