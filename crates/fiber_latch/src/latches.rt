//! The table of latches and its seats, as callers see them.
ghost use Rattle.std.specs.Prelude.{◌≡◌, ◌≢◌, ◌⊎◌, ℕ, ◌+◌, ◌-◌, ◌<◌, ◌≤◌, List, [], ◌∷◌, ◌++◌, None, Some, IfOk, IfErr, IsTrue, vec_len, slice_index};
ghost use Rattle.dt_model.specs.declared.limits.TheConstants.{MOST_SESSIONS, MOST_CALLS};
ghost use Rattle.commit_core.specs.Machine.{commit_needs};
ghost use Rattle.dt_model.specs.Verdicts.{call_is_valid};
ghost use Rattle.dt_model.specs.Runs.{IsLegal};
ghost use Rattle.dt_model.specs.Worlds.{IsValid};
ghost use Rattle.fiber_latch.specs.Views.{In, IsAboveAll};
ghost use Rattle.fiber_latch.specs.Rule.{GoodAt};
ghost use Rattle.fiber_latch.specs.Seats.{BelongsTo, IsTaken, IsTakenAfterTries, HasJoined, IsBusy, IsTop, without_top, first_state, config_for, last_number, IsJournal, AreStores};

use crate::closing::{Closed, emptied};
use crate::raw::TableSeat;
use crate::rule::{Busy, Kept, LatchRule, SlotValue, TableKey};
use crate::view::View;
use crate::{opening, raw};
use atomic_table::Table;
use dt_model::{Entry, Journal, Keep, NoMemory, World};
use std::alloc::Global;
use std::marker::Model;
use std::sync::Wait;
use std::sync::atomic::AtomicU64;
use std::sync::atomic::Ordering::SeqCst;
use std::thread;

/// How often a take that finds its latch held tries again before it parks. Each time it looks until it sees the latch free,
/// or else lets another thread run: in all about as long as ten parks with their wakes, where all threads have processors.
const TRIES_BEFORE_PARK: u32 = 32;

/// How often a take that finds its latch held looks at the latch's word before it lets another thread run, which is a
/// system call. The looks take about two microseconds, a few times as long as a call on a cell holds the journal's latch.
const LOOKS_BEFORE_YIELD: u32 = 20;

/// How many loads of the count of parkers come before each look. They take about a tenth of a microsecond.
const LOADS_BEFORE_LOOK: u32 = 200;

/// A table of latches: one for each fiber, in order of latches, and the journal's behind them.
#[derive(Drop)]
pub struct Latches<C: Keep> {
    table: Table<Option<SlotValue<C>>, View, TableKey, LatchRule<C>, Global>,
    end: u32,
    /// How many takes may be parked, at any latch.
    parkers: AtomicU64,
    /// The vector that the stores came in, kept for its room.
    room: Vec<C>,
}

impl<C: Keep> Model for Latches<C> {
    ghost use Rattle.std.specs.Prelude.{◌≡◌, ◌≤◌, vec_len, vec_capacity};
    ghost use Rattle.fiber_latch.specs.Codes.{table_code};
    ghost use Rattle.fiber_latch.specs.Seats.{TableState};
    ghost use Rattle.fiber_latch.specs.Conditions.{IsSized, config_of};

    ghost Value = { TableState };

    ghost coded = { table_code };

    ghost view = { λ s. record { table = s.table.shared.table_id; config = config_of s.table.shared.key } };

    ghost invariant = { λ s. IsSized s.table.shared.table_id s.table.shared.key × (s.table.shared.key.end ≡ s.end) × (vec_len s.room ≡ 0) × (s.end ≤ vec_capacity s.room) };
}

/// The right to make the calls of some sessions, which follow one another.
#[derive(Drop)]
pub struct Seat<C: Keep> {
    token: TableSeat<C>,
    first: u32,
    last: u32,
    /// The last number of session s, at s - 1.
    numbers: [u32; 16],
}

impl<C: Keep> Model for Seat<C> {
    ghost use Rattle.fiber_latch.specs.Codes.{seat_code};
    ghost use Rattle.fiber_latch.specs.Seats.{SeatState};
    ghost use Rattle.fiber_latch.specs.Sitting.{state_of, IsSeat, HasNumbers};

    ghost Value = { SeatState };

    ghost coded = { seat_code };

    ghost view = { λ s. state_of s.token.table_id s.first s.last s.token.me.0 };

    ghost invariant = { λ s. IsSeat s.token.table_id s.first s.last s.token.me × HasNumbers s.first s.last s.numbers s.token.me.0.seen };
}

impl<C: Keep> Seat<C> {
    /// The first session that the seat owns. Sessions count from 1.
    pub fn first(&self) -> u32
        ensures value { result ≡ self.now.first }
    {
        self.first
    }

    /// The last session that the seat owns.
    pub fn last(&self) -> u32
        ensures value { result ≡ self.now.last }
    {
        self.last
    }

    /// The number of the session's last call, or 0 before its first.
    pub fn number(&self, session: u32) -> u32
        requires session { (self.now.first ≤ session) × (session ≤ self.now.last) }
        ensures value { result ≡ last_number session self.now.seen }
    {
        let numbers = &self.numbers;
        numbers[session as usize - 1]
    }
}

// Opens a table, and makes the calls of one session.
impl<C: Keep> Latches<C> {
    /// A table over the stores of all fibers, in order of latches, for sessions 1 to `sessions` with at most
    /// `calls` calls each, and the seat of them all. `NoMemory` means out of memory, and then the stores are dropped;
    /// no clause says that it comes only then. It takes time and memory by the latches and by all calls.
    pub fn open(
        alloc: Global,
        world: &World,
        stores: Vec<C>,
        sessions: u32,
        calls: u32,
    ) -> Result<(Latches<C>, Seat<C>), NoMemory>
        requires world { IsValid world.now }
        requires counts { (1 ≤ sessions) × (sessions ≤ MOST_SESSIONS) × (1 ≤ calls) × (calls ≤ MOST_CALLS) }
        requires stores { AreStores C.content C.sound (config_for world.now sessions calls) [] stores.items }
        ensures table { IfOk result (λ r. r.0.config ≡ config_for world.now sessions calls) }
        ensures seat { IfOk result (λ r. r.1 ≡ first_state r.0.table r.0.config) }
    {
        let end = stores.len() as u32;
        let (table, token, room) = opening::opened(alloc, world, stores, end, sessions, calls)?;
        let latches = Latches {
            table,
            end,
            parkers: AtomicU64::new(0),
            room,
        };
        let seat = Seat {
            token,
            first: 1,
            last: sessions,
            numbers: [0; 16],
        };
        Ok((latches, seat))
    }

    /// Takes a latch for one of the seat's sessions, where it is free. `Busy` where it is held, with its holder.
    /// Latches are taken in ascending order, the journal's last. It takes no memory, and never waits.
    ///
    /// That `Busy` names a session of another seat, and that the seat notes it as a conflict, is clause `busy`. That a
    /// conflict is noted only by an exchange that found the latch held by that session is the lemma `take_moves`. That
    /// a free latch is taken at the first try is a test: `sixteen_seats_find_the_true_holder`.
    pub fn try_take(&self, seat: &mut Seat<C>, session: u32, latch: u32) -> Result<Kept<C>, Busy>
        requires table { BelongsTo seat.old self.now }
        requires session { (seat.old.first ≤ session) × (session ≤ seat.old.last) }
        requires latch { (latch ≤ self.now.config.end) × IsAboveAll (λ h. h.0) latch seat.old.held }
        ensures busy { IfErr result (λ b. IsBusy latch seat.old b seat.new) }
        ensures ok { IfOk result (λ y. IsTaken (GoodAt C.content C.sound) latch session seat.old y seat.new) }
    {
        raw::try_take(&self.table.shared, &mut seat.token, latch, session)
    }

    /// Counts a take as one that may park, once it has tried often enough.
    fn count_parker(&self, tries: u32) {
        if tries == TRIES_BEFORE_PARK {
            self.parkers.fetch_add(1, SeqCst);
        }
    }

    /// No longer counts a take that has its latch, if it was counted.
    fn uncount_parker(&self, tries: u32) {
        if tries >= TRIES_BEFORE_PARK {
            self.parkers.fetch_sub(1, SeqCst);
        }
    }

    /// Lets a little time pass. It loads a word that seldom changes, which takes no cache line away from any thread.
    fn pause(&self) {
        for _load in 0..LOADS_BEFORE_LOOK {
            self.parkers.load(SeqCst);
        }
    }

    /// Whether a look at the latch's word finds it free, of at most `LOOKS_BEFORE_YIELD`. The looks lie apart, since after each
    /// one the latch's holder has to fetch the word's cache line again.
    fn is_seen_free(&self, latch: u32) -> bool
        requires latch { latch ≤ self.now.config.end }
    {
        for _look in 0..LOOKS_BEFORE_YIELD {
            self.pause();
            if self.table.shared.peek(latch as usize) == 0 {
                return true;
            }
        }
        false
    }

    /// Waits for a latch that was found held by this session, before it is tried again: the first few times it only looks
    /// whether the latch is free, and lets another thread run where it isn't.
    fn wait<R: Wait>(&self, rt: &R, latch: u32, holder: u32, tries: u32)
        requires latch { latch ≤ self.now.config.end }
    {
        if tries < TRIES_BEFORE_PARK {
            if !self.is_seen_free(latch) {
                thread::yield_now();
            }
        } else {
            self.table.shared.park(rt, latch as usize, holder);
        }
    }

    /// Takes a latch for one of the seat's sessions, and waits while another seat's session holds it. Latches are taken
    /// in ascending order, the journal's last. It takes no memory, and no clause bounds how long it waits.
    ///
    /// A take that finds the latch held tries `TRIES_BEFORE_PARK` times more, each time once `is_seen_free` saw it free or
    /// another thread was let run. Most holders give a latch back within a microsecond, and a park with its wake takes about
    /// eight. Some keep it over a whole call, so then it parks on the latch's word. It tells `park` the holder that its try
    /// found: the thread sleeps only while the word is still that holder. A take that was woken tries again, and else parks
    /// at once.
    ///
    /// It is counted as one that may park before the try that comes before its first park, and until it has the latch.
    /// `give` says why no wake is lost.
    pub fn take<R: Wait>(&self, rt: &R, seat: &mut Seat<C>, session: u32, latch: u32) -> Kept<C>
        requires table { BelongsTo seat.old self.now }
        requires session { (seat.old.first ≤ session) × (session ≤ seat.old.last) }
        requires latch { (latch ≤ self.now.config.end) × IsAboveAll (λ h. h.0) latch seat.old.held }
        ensures value { IsTakenAfterTries (GoodAt C.content C.sound) latch session seat.old result seat.new }
    {
        let mut tries: u32 = 0;
        for _ in rt.forever() {
            self.count_parker(tries);
            match self.try_take(seat, session, latch) {
                Ok(kept) => {
                    self.uncount_parker(tries);
                    return kept;
                }
                Err(busy) => self.wait(rt, latch, busy.holder, tries),
            }
            tries = tries.saturating_add(1);
        }
        unreachable!()
    }

    /// Adds an entry to the history, and to the journal, which is in hand. The entry's latches and the journal's
    /// are held for its session. It takes no memory: the journal has had room for every call from the first.
    pub fn commit(&self, seat: &mut Seat<C>, journal: &mut Journal, entry: Entry)
        requires table { BelongsTo seat.old self.now }
        requires session { (seat.old.first ≤ entry.turn.session) × (entry.turn.session ≤ seat.old.last) }
        requires call { IsTrue (call_is_valid self.now.config.world.decls entry.call) }
        requires held { (l : ℕ) → IsTrue (commit_needs self.now.config.world.decls entry.call l) → In (l, entry.turn.session) seat.old.held }
        requires number { (last_number entry.turn.session seat.old.seen < entry.turn.number) × (entry.turn.number ≤ self.now.config.calls) }
        requires journal { IsJournal self.now.config seat.old.seen journal.old }
        ensures seat { seat.new ≡ record seat.old { seen = seat.old.seen ++ entry ∷ [] } }
        ensures journal { IsJournal self.now.config seat.new.seen journal.new }
    {
        let session = entry.turn.session;
        let number = entry.turn.number;
        raw::commit(&self.table.shared, &mut seat.token, self.end, &entry);
        journal.push(entry);
        seat.numbers[session as usize - 1] = number;
    }

    /// Wakes one take that is parked at this latch, if a take at any latch may be parked: a wake costs a system call.
    fn wake(&self, latch: u32)
        requires latch { latch ≤ self.now.config.end }
    {
        if self.parkers.load(SeqCst) != 0 {
            self.table.shared.wake_one(latch as usize);
        }
    }

    /// Gives back the greatest latch that the seat holds, with its value, and wakes one who waits for it.
    ///
    /// It frees the latch's word first, and then looks whether any take may be parked. A take counts itself first, and
    /// then tries the word. All four steps are sequentially consistent, so all threads see them in one order. If the look
    /// comes before the count, the try comes after the word was freed: it takes the latch, or finds a later holder, whose
    /// give is still to come. If the look comes after the count, there is a wake. A take that isn't asleep by then doesn't
    /// go to sleep, since `park` finds the word changed, unless a later holder has the latch. A take that is woken has
    /// the latch next, or finds a later holder, and so another give comes for those who still sleep. No clause speaks of
    /// this: that a take ends is tested (`parked_threads_get_their_turn`), and not proved.
    pub fn give(&self, seat: &mut Seat<C>, latch: u32, kept: Kept<C>)
        requires table { BelongsTo seat.old self.now }
        requires latch { IsTop latch seat.old.held }
        requires value { GoodAt C.content C.sound seat.old.config seat.old.seen latch kept }
        ensures seat { seat.new ≡ without_top seat.old }
    {
        raw::give(&self.table.shared, &mut seat.token, latch as usize, kept);
        self.wake(latch);
    }
}

// Seats are cut and joined, and the table is closed.
impl<C: Keep> Latches<C> {
    /// Cuts off the sessions from `at` on, for a seat of their own.
    pub fn split(&self, seat: &mut Seat<C>, at: u32) -> Seat<C>
        requires table { BelongsTo seat.old self.now }
        requires at { (seat.old.first < at) × (at ≤ seat.old.last) }
        requires idle { seat.old.held ≡ [] }
        ensures lower { seat.new ≡ record seat.old { last = at - 1 } }
        ensures upper { result ≡ record seat.old { first = at; conflicts = [] } }
    {
        let first = seat.first;
        let last = seat.last;
        let token = raw::split(&self.table.shared, &mut seat.token, first, last, at);
        seat.last = at - 1;
        Seat {
            token,
            first: at,
            last,
            numbers: seat.numbers,
        }
    }

    /// Takes in the seat of the sessions that follow this one's. What either has seen is seen then.
    pub fn join(&self, seat: &mut Seat<C>, other: Seat<C>)
        requires tables { BelongsTo seat.old self.now × BelongsTo other self.now }
        requires follows { other.first ≡ seat.old.last + 1 }
        requires idle { (seat.old.held ≡ []) × (other.held ≡ []) }
        ensures seat { HasJoined seat.old other seat.new }
    {
        let Seat {
            token,
            first: start,
            last,
            numbers,
        } = other;
        let first = seat.first;
        let middle = seat.last;
        raw::join_seats(
            &self.table.shared,
            &mut seat.token,
            token,
            self.end,
            first,
            middle,
            last,
        );
        seat.last = last;
        seat.numbers = both_numbers(seat.numbers, &numbers, start, last);
    }

    /// Hands out the stores and the journal, once the seat owns all sessions again. It takes no memory.
    pub fn close(self, seat: Seat<C>) -> Closed<C>
        requires table { BelongsTo seat self }
        requires sessions { (seat.first ≡ 1) × (seat.last ≡ self.config.sessions) }
        requires idle { seat.held ≡ [] }
        ensures journal { result.journal.entries ≡ seat.seen }
        ensures legal { IsLegal self.config.world.decls self.config.sessions self.config.calls seat.seen }
        ensures stores { AreStores C.content C.sound self.config seat.seen result.stores.items }
    {
        let Latches {
            table,
            end,
            parkers: _,
            room,
        } = self;
        let Seat {
            token,
            first: _,
            last: _,
            numbers: _,
        } = seat;
        emptied(table.close_with(token), end, room)
    }
}

/// The numbers of the one seat, with those of the other at its sessions.
fn both_numbers(mut numbers: [u32; 16], others: &[u32; 16], first: u32, last: u32) -> [u32; 16]
    requires sessions { (1 ≤ first) × (first ≤ last) × (last ≤ 16) }
    ensures theirs { (k : ℕ) → first ≤ k + 1 → k + 1 ≤ last → slice_index result k ≡ slice_index others.now k }
    ensures mine { (k : ℕ) → k + 1 < first → slice_index result k ≡ slice_index numbers k }
{
    for index in first as usize - 1..last as usize {
        numbers[index] = others[index];
    }
    numbers
}
