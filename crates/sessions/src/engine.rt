//! The engine over a table of latches: it is opened, its seats are cut and joined, and it is closed.
ghost use Rattle.std.specs.Prelude.{◌≡◌, ◌+◌, ◌-◌, ◌<◌, ◌≤◌, [], IfOk};
ghost use Rattle.dt_model.specs.declared.limits.TheConstants.{MOST_SESSIONS, MOST_CALLS};
ghost use Rattle.dt_model.specs.Runs.{IsLegal};
ghost use Rattle.dt_model.specs.Verdicts.{call_is_valid};
ghost use Rattle.dt_model.specs.Worlds.{IsValid};
ghost use Rattle.fiber_latch.specs.Seats.{AreStores, BelongsTo, HasJoined, config_for, first_state};
ghost use Rattle.fiber_store.specs.Stores.{IsSound, store_content};

use crate::loading::load_stores;
use dt_model::{Call, Decls, NoMemory, World, latch_count};
use fiber_latch::{Closed, Latches, Seat};
use fiber_store::FiberStore;
use index_check::call_is_valid;
use std::alloc::Global;
use std::marker::Model;

/// The right to make the calls of some sessions, which follow one another.
pub type Chair = Seat<FiberStore>;

/// Sessions make their calls through an engine, which threads share.
#[derive(Drop)]
pub struct Engine {
    pub(crate) alloc: Global,
    pub(crate) latches: Latches<FiberStore>,
    pub(crate) decls: Decls,
    /// The number of the journal's latch.
    pub(crate) end: u32,
}

impl Model for Engine {
    ghost use Rattle.fiber_latch.specs.Codes.{table_code};
    ghost use Rattle.fiber_latch.specs.Seats.{TableState};
    ghost use Rattle.sessions.specs.Engines.{IsEngine};

    ghost Value = { TableState };

    ghost coded = { table_code };

    ghost view = { λ s. s.latches };

    ghost invariant = { λ s. IsEngine s.latches s.decls s.end };
}

impl Engine {
    /// An engine with the world's loaded lines, for sessions 1 to `sessions` with at most `calls` calls each, and the
    /// seat of them all. The lines of each tensor are sorted at most once, added up, and cut into the fibers of its
    /// latches in one pass.
    pub fn open(
        alloc: Global,
        world: &World,
        sessions: u32,
        calls: u32,
    ) -> Result<(Engine, Chair), NoMemory>
        requires world { IsValid world.now }
        requires counts { (1 ≤ sessions) × (sessions ≤ MOST_SESSIONS) × (1 ≤ calls) × (calls ≤ MOST_CALLS) }
        ensures engine { IfOk result (λ r. r.0.config ≡ config_for world.now sessions calls) }
        ensures seat { IfOk result (λ r. r.1 ≡ first_state r.0.table r.0.config) }
    {
        let decls = world.decls.copy(alloc)?;
        let end = latch_count(&decls);
        let stores = load_stores(alloc, world)?;
        let (latches, seat) = Latches::open(alloc, world, stores, sessions, calls)?;
        let engine = Engine {
            alloc,
            latches,
            decls,
            end,
        };
        Ok((engine, seat))
    }

    /// Whether a call may be made: its cells are valid, a batch has 1 to 64 updates, and a statement is small and not refused.
    /// It takes no memory.
    pub fn valid(&self, call: &Call) -> bool
        ensures value { result ≡ call_is_valid self.now.config.world.decls call.now }
    {
        call_is_valid(&self.decls, call)
    }

    /// Cuts off the sessions from `at` on, for a seat of their own.
    pub fn split(&self, seat: &mut Chair, at: u32) -> Chair
        requires engine { BelongsTo seat.old self.now }
        requires at { (seat.old.first < at) × (at ≤ seat.old.last) }
        requires idle { seat.old.held ≡ [] }
        ensures lower { seat.new ≡ record seat.old { last = at - 1 } }
        ensures upper { result ≡ record seat.old { first = at; conflicts = [] } }
    {
        self.latches.split(seat, at)
    }

    /// Takes in the seat of the sessions that follow this one's. What either has seen is seen then.
    pub fn join(&self, seat: &mut Chair, other: Chair)
        requires engines { BelongsTo seat.old self.now × BelongsTo other self.now }
        requires follows { other.first ≡ seat.old.last + 1 }
        requires idle { (seat.old.held ≡ []) × (other.held ≡ []) }
        ensures seat { HasJoined seat.old other seat.new }
    {
        self.latches.join(seat, other);
    }

    /// Hands out the stores and the journal, once the seat owns all sessions again. It takes no memory.
    pub fn close(self, seat: Chair) -> Closed<FiberStore>
        requires engine { BelongsTo seat self }
        requires sessions { (seat.first ≡ 1) × (seat.last ≡ self.config.sessions) }
        requires idle { seat.held ≡ [] }
        ensures journal { result.journal.entries ≡ seat.seen }
        ensures legal { IsLegal self.config.world.decls self.config.sessions self.config.calls seat.seen }
        ensures stores { AreStores store_content IsSound self.config seat.seen result.stores.items }
    {
        let Engine {
            alloc: _,
            latches,
            decls,
            end: _,
        } = self;
        drop(decls);
        latches.close(seat)
    }
}
