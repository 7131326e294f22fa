//! The outcome of each line of each session's script.
ghost use Rattle.std.specs.Prelude.{◌≡◌, ◌+◌, ◌<◌, [], ◌∷◌, ◌++◌, IfOk};
ghost use Rattle.std.specs.Option.{option_copied};
ghost use Rattle.sessions.specs.declared.outcomes.Outcome.TheVariants as outcome;
ghost use Rattle.sessions.specs.Outcomes.{outcome_of_turn};

use dt_model::{List, NoMemory, Refusal, Reply};
use std::alloc::Global;
use std::marker::Model;

/// What came of a line. It has 72 bytes.
#[derive(Debug, Drop, PartialEq, Eq)]
pub enum Outcome {
    /// The line is refused for this reason.
    Refused(Refusal),
    /// The call was made, and this is its reply.
    Reply(Reply),
    /// The call ran out of memory, and wasn't made.
    NoMemory,
}

impl Outcome {
    /// The outcome of a line that is refused for this reason. It takes no memory.
    pub fn refused(refusal: &Refusal) -> Outcome
        ensures value { result ≡ outcome.Refused refusal.now }
    {
        Outcome::Refused(match refusal {
            Refusal::Form { column } => Refusal::Form { column: *column },
            Refusal::Limit { column } => Refusal::Limit { column: *column },
            Refusal::Name { name } => Refusal::Name { name: name.copy() },
            Refusal::Rank { name, given, order } => Refusal::Rank {
                name: name.copy(),
                given: *given,
                order: *order,
            },
            Refusal::Range { name, mode, dim } => Refusal::Range {
                name: name.copy(),
                mode: *mode,
                dim: *dim,
            },
            Refusal::NotWhole => Refusal::NotWhole,
            Refusal::TooLarge => Refusal::TooLarge,
            Refusal::Dimension { var, first, second } => Refusal::Dimension {
                var: var.copy(),
                first: *first,
                second: *second,
            },
            Refusal::Repeated { var } => Refusal::Repeated { var: var.copy() },
            Refusal::Access { term } => Refusal::Access { term: *term },
            Refusal::Uncovered { term, var } => Refusal::Uncovered {
                term: *term,
                var: var.copy(),
            },
        })
    }
}

/// The outcomes of a script's lines so far, with room that is allocated when it is made.
#[derive(Drop)]
pub struct Lines {
    outcomes: Vec<Outcome>,
    spare: u32,
}

impl Model for Lines {
    ghost use Rattle.std.specs.Prelude.{◌+◌, ◌≤◌, vec_len, vec_capacity};
    ghost use Rattle.sessions.specs.LinesValue.{LinesState};

    ghost Value = { LinesState };

    ghost view = { λ a. record { outcomes = a.outcomes.items; spare = a.spare } };

    ghost invariant = { λ a. vec_len a.outcomes + a.spare ≤ vec_capacity a.outcomes };
}

impl Lines {
    /// No outcomes, and room for so many.
    pub fn with_room(alloc: Global, n: u32) -> Result<Lines, NoMemory>
        ensures outcomes { IfOk result (λ lines. lines.outcomes ≡ []) }
        ensures spare { IfOk result (λ lines. lines.spare ≡ n) }
    {
        let outcomes = Vec::with_capacity(alloc, n as usize)?;
        Ok(Lines { outcomes, spare: n })
    }

    /// Puts an outcome at the end. It takes no memory.
    pub fn push(&mut self, item: Outcome)
        requires spare { 0 < self.old.spare }
        ensures outcomes { self.new.outcomes ≡ self.old.outcomes ++ item ∷ [] }
        ensures spare { self.new.spare + 1 ≡ self.old.spare }
    {
        self.outcomes.push_reserved(item);
        self.spare -= 1;
    }

    /// The outcomes in order. It takes no memory.
    pub fn into_list(self) -> List<Outcome>
        ensures value { result ≡ self.outcomes }
    {
        List::from_vec(self.outcomes)
    }
}

/// The outcome of each line of each session's script. Clauses see the sessions' lists. Sessions and lines are counted
/// from 1.
#[derive(Debug, Drop)]
pub struct Outcomes {
    sessions: Vec<List<Outcome>>,
}

impl Model for Outcomes {
    ghost use Rattle.std.specs.Prelude.{List};
    ghost use Rattle.sessions.specs.declared.outcomes.Outcome.{Outcome};

    ghost Value = { List (List Outcome) };

    ghost view = { λ a. a.sessions.items };
}

impl Outcomes {
    /// These sessions' lists. It takes no memory.
    pub fn of(sessions: Vec<List<Outcome>>) -> Outcomes
        ensures value { result ≡ sessions.items }
    {
        Outcomes { sessions }
    }

    /// The outcome of a session's line. None exactly where there is no such line.
    pub fn get(&self, session: u32, number: u32) -> Option<&Outcome>
        ensures value { option_copied result ≡ outcome_of_turn self.now session number }
    {
        if session == 0 || number == 0 {
            return None;
        }
        let lines = self.sessions.get(session as usize - 1)?;
        lines.get(number as usize - 1)
    }

    /// The lists of the sessions in order, each with the outcomes of the lines in order.
    pub fn as_slice(&self) -> &[List<Outcome>]
        ensures value { result.now ≡ self.now }
    {
        self.sessions.as_slice()
    }
}
