//! The room of a run's outcomes, which is allocated before its first call.
ghost use Rattle.std.specs.Prelude.{◌≡◌, ◌<◌, ◌≤◌, [], length, All, IfOk, vec_capacity};
ghost use Rattle.dt_model.specs.declared.limits.TheConstants.{MOST_CALLS};
ghost use Rattle.sessions.specs.SessionRuns.{HaveRoom};

use crate::outcomes::{Lines, Outcome};
use dt_model::{List, NoMemory, Verdicts};
use std::alloc::Global;
use std::collections::VecDeque;

/// Room for the outcomes of all lines, by sessions, and for a list for each session.
#[derive(Drop)]
pub struct Rooms {
    /// Room for the lines of each session.
    pub lines: VecDeque<Lines>,
    /// No lists, and room for one for each session.
    pub lists: Vec<List<Outcome>>,
}

/// Room for the outcomes of each script's lines.
fn line_rooms(alloc: Global, scripts: &[Verdicts]) -> Result<VecDeque<Lines>, NoMemory>
    requires calls { All (λ script. length script ≤ MOST_CALLS) scripts.now }
    ensures rooms { IfOk result (λ lines. HaveRoom scripts.now lines.items) }
{
    let mut lines = VecDeque::with_capacity(alloc, scripts.len())?;
    for script in scripts {
        let room = Lines::with_room(alloc, script.len() as u32)?;
        lines.push_back(room)?;
    }
    Ok(lines)
}

/// All room that the outcomes of the scripts take.
pub fn rooms_for(alloc: Global, scripts: &[Verdicts]) -> Result<Rooms, NoMemory>
    requires calls { All (λ script. length script ≤ MOST_CALLS) scripts.now }
    ensures lines { IfOk result (λ rooms. HaveRoom scripts.now rooms.lines.items) }
    ensures empty { IfOk result (λ rooms. rooms.lists.items ≡ []) }
    ensures lists { IfOk result (λ rooms. length scripts.now ≤ vec_capacity rooms.lists) }
{
    let lines = line_rooms(alloc, scripts)?;
    let lists = Vec::with_capacity(alloc, scripts.len())?;
    Ok(Rooms { lines, lists })
}
