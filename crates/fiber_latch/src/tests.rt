//! A small store, and tables over it on one thread and on eight.
ghost use Rattle.std.specs.Prelude.{◌≡◌, ◌≢◌, ℕ, ◌+◌, ◌*◌, ◌/◌, ◌%◌, ◌^◌, ◌<◌, ◌≤◌, List, [], ◌∷◌, ◌++◌, length, slice_index_or, All, IfOk, OnOk, Some, None, vec_len};
ghost use Rattle.fiber_latch.specs.Trial.{found, HasPut, IsTrial, AreNew, adding, IsTable, IsResting, IsUnused, IsDone, IsFree};
ghost use Rattle.fiber_latch.specs.TrialGood.{IsGood};
ghost use Rattle.fiber_latch.specs.Seats.{BelongsTo, last_number, first_state};
ghost use Rattle.dt_model.specs.Worlds.{IsValid};

use crate::{Busy, Closed, Keep, Kept, Latches, Seat};
use arrayvec::ArrayVec;
use dt_model::{
    Call, Cell, Coords, Decls, Entry, Journal, List, Name, Pairs, Schema, TensorDecl, Turn, Update,
    Updates, World,
};
use std::alloc::{AllocError, Global};
use std::process::Abort;
use std::sync::Wait;
use std::test::Fail;
use std::thread;
use std::thread::{Threads, join};
use std::time::{Clock, Duration};

/// The cells of one latch, an ascending list of coordinates with their numbers.
#[derive(Drop)]
struct Small {
    latch: u32,
    cells: Vec<(u32, u64)>,
}

impl Keep for Small {
    ghost use Rattle.std.specs.Prelude.{◌≡◌};
    ghost use Rattle.fiber_latch.specs.Trial.{content_of};

    ghost content = { λ s. content_of s.cells.items };

    ghost sound = { λ _ l s. s.latch ≡ l };
}

/// The place of the first coordinate that isn't below `at`.
fn place_of(cells: &[(u32, u64)], at: u32) -> usize
    ensures within { result ≤ length cells.now }
    ensures before { (k : ℕ) → k < result → (slice_index_or cells.now k (0, 0)).0 ≢ at }
{
    for (place, cell) in cells.iter().enumerate() {
        if cell.0 >= at {
            return place;
        }
    }
    cells.len()
}

impl Small {
    /// The number at a coordinate, or 0.
    fn number(&self, at: u32) -> u64
        ensures value { result ≡ found self.now.cells.items at }
    {
        for cell in self.cells.as_slice() {
            if cell.0 == at {
                return cell.1;
            }
        }
        0
    }

    /// Sets the number at a coordinate.
    fn put(&mut self, at: u32, number: u64) -> Result<(), AllocError>
        ensures ok { OnOk result ((self.new.latch ≡ self.old.latch) × HasPut at number self.old.cells.items self.new.cells.items) }
    {
        let place = place_of(self.cells.as_slice(), at);
        if place < self.cells.len() && self.cells[place].0 == at {
            self.cells[place] = (at, number);
        } else {
            self.cells.insert(place, (at, number))?;
        }
        Ok(())
    }
}

#[test]
fn puts_and_finds(rt: HostRuntime) -> Result<(), Fail> {
    let mut store = Small {
        latch: 0,
        cells: Vec::new(rt.alloc()),
    };
    store.put(3, 5)?;
    store.put(1, 7)?;
    store.put(3, 6)?;
    assert!(rt; store.number(1) == 7 && store.number(2) == 0 && store.number(3) == 6);
    Ok(())
}

/// One tensor v of dimension n with these latches, and nothing loaded.
fn world(alloc: Global, dimension: u32, latches: u32) -> Result<World, Fail>
    requires counts { (1 ≤ dimension) × (1 ≤ latches) × (latches ≤ 256) }
    ensures trial { IfOk result (λ w. IsTrial dimension latches w) }
    ensures valid { IfOk result (λ w. IsValid w) }
{
    let Some(v) = Name::new(b"v") else {
        unreachable!()
    };
    let mut dims = Coords::new();
    dims.push(dimension);
    let mut formats = ArrayVec::new();
    formats.push(0);
    let mut schemas = List::new(alloc);
    schemas.push(Schema::flat())?;
    let mut tensors = List::new(alloc);
    tensors.push(TensorDecl {
        name: v,
        dims,
        formats,
        latches,
    })?;
    let mut base = List::new(alloc);
    base.push(Pairs::new(alloc))?;
    Ok(World {
        decls: Decls { schemas, tensors },
        base,
        scripts: List::new(alloc),
    })
}

/// A store for each latch, with no cell.
fn stores(alloc: Global, count: u32) -> Result<Vec<Small>, AllocError>
    ensures count { IfOk result (λ v. vec_len v ≡ count) }
    ensures empty { IfOk result (λ v. AreNew (λ s. s.latch) (λ s. s.cells.items) v.items) }
{
    let mut stores = Vec::new(alloc);
    for latch in 0..count {
        stores.push(Small {
            latch,
            cells: Vec::new(alloc),
        })?;
    }
    Ok(stores)
}

/// Opens a table over new stores.
fn table(
    alloc: Global,
    dimension: u32,
    latches: u32,
    sessions: u32,
    calls: u32,
) -> Result<(Latches<Small>, Seat<Small>), Fail>
    requires counts { (1 ≤ dimension) × (1 ≤ latches) × (latches ≤ 256) }
    requires calls { (1 ≤ sessions) × (sessions ≤ 16) × (1 ≤ calls) × (calls ≤ 65536) }
    ensures table { IfOk result (λ r. IsTable dimension latches sessions calls r.0) }
    ensures seat { IfOk result (λ r. r.1 ≡ first_state r.0.table r.0.config) }
{
    let world = world(alloc, dimension, latches)?;
    let stores = stores(alloc, latches)?;
    Ok(Latches::open(alloc, &world, stores, sessions, calls)?)
}

/// Adds 1 at a coordinate of the two values in hand, and commits.
fn applied<R: Abort>(
    rt: &R,
    alloc: Global,
    latches: &Latches<Small>,
    seat: &mut Seat<Small>,
    number: u32,
    at: u32,
    one: Kept<Small>,
    two: Kept<Small>,
) -> (Kept<Small>, Kept<Small>)
    requires seat { BelongsTo seat.old latches.now × (seat.old.first ≤ seat.old.last) }
    requires world { IsTrial 128 64 latches.now.config.world × (latches.now.config.end ≡ 64) }
    requires held { seat.old.held ≡ (64, seat.old.first) ∷ (at / 2, seat.old.first) ∷ [] }
    requires number { (last_number seat.old.first seat.old.seen < number) × (number ≤ latches.now.config.calls) }
    requires at { at < 128 }
    requires one { IsGood (λ s. s.latch) (λ s. s.cells.items) seat.old.config seat.old.seen (at / 2) one }
    requires two { IsGood (λ s. s.latch) (λ s. s.cells.items) seat.old.config seat.old.seen 64 two }
    ensures seat { seat.new ≡ record seat.old { seen = seat.old.seen ++ record { turn = record { session = seat.old.first; number = number }; call = adding at } ∷ [] } }
    ensures one { IsGood (λ s. s.latch) (λ s. s.cells.items) seat.new.config seat.new.seen (at / 2) result.0 }
    ensures two { IsGood (λ s. s.latch) (λ s. s.cells.items) seat.new.config seat.new.seen 64 result.1 }
{
    let (Kept::Fiber(mut store), Kept::Journal(mut journal)) = (one, two) else {
        unreachable!()
    };
    let session = seat.first();
    let sum = store.number(at).wrapping_add(1);
    store.put(at, sum).expect(rt, "out of memory");
    let entry = Entry {
        turn: Turn { session, number },
        call: add_one(alloc, at),
    };
    latches.commit(seat, &mut journal, entry);
    (Kept::Fiber(store), Kept::Journal(journal))
}

/// The call that adds 1 at a coordinate.
fn add_one(alloc: Global, at: u32) -> Call
    ensures value { result ≡ adding at }
{
    let mut coordinates = Coords::new();
    coordinates.push(at);
    let cell = Cell {
        tensor: 0,
        at: coordinates,
    };
    let updates = Updates::of_one(alloc, Update::Add { cell, value: 1 });
    Call::Batch(updates)
}

/// Sleeps for so many microseconds, if any.
fn sleep_for<R: Clock>(rt: &R, micros: u32) {
    if micros > 0 {
        thread::sleep(rt, Duration::from_micros(micros as u64));
    }
}

/// One call of the seat's session: it takes the fiber and the journal, adds 1, commits, keeps both for `hold` microseconds more,
/// and gives them back.
fn round<R: Abort + Clock + Wait>(
    rt: &R,
    alloc: Global,
    latches: &Latches<Small>,
    seat: &mut Seat<Small>,
    number: u32,
    at: u32,
    hold: u32,
)
    requires seat { (last : ℕ) × IsResting latches.now last seat.old × (last < number) }
    requires number { number ≤ latches.now.config.calls }
    requires at { at < 128 }
    ensures seat { IsResting latches.now number seat.new × (seat.new.first ≡ seat.old.first) × (seat.new.last ≡ seat.old.last) }
{
    let session = seat.first();
    let one = latches.take(rt, seat, session, at / 2);
    let two = latches.take(rt, seat, session, 64);
    let (one, two) = applied(rt, alloc, latches, seat, number, at, one, two);
    sleep_for(rt, hold);
    latches.give(seat, 64, two);
    latches.give(seat, at / 2, one);
}

/// The calls of one session, each at a coordinate of its own choice.
fn rounds<R: Abort + Clock + Wait>(
    rt: &R,
    alloc: Global,
    latches: &Latches<Small>,
    mut seat: Seat<Small>,
    count: u32,
    hold: u32,
) -> Seat<Small>
    requires seat { (s : ℕ) × IsUnused latches.now s s seat }
    requires count { (count ≤ latches.now.config.calls) × (count ≤ 65536) }
    ensures seat { IsDone latches.now seat.first seat.last result }
{
    let session = seat.first();
    for number in 1..=count {
        let at = (number * 7 + session * 16) % 128;
        round(rt, alloc, latches, &mut seat, number, at, hold);
    }
    seat
}

/// Two sessions, each on a thread of its own.
fn two<R: Abort + Clock + Threads + Wait + Sync>(
    rt: &R,
    alloc: Global,
    latches: &Latches<Small>,
    mut seat: Seat<Small>,
    count: u32,
    hold: u32,
) -> Seat<Small>
    requires seat { (f : ℕ) × IsUnused latches.now f (f + 1) seat × (f ≤ 15) }
    requires count { (count ≤ latches.now.config.calls) × (count ≤ 65536) }
    ensures seat { IsDone latches.now seat.first seat.last result }
{
    let at = seat.first() + 1;
    let other = latches.split(&mut seat, at);
    let (mut seat, other) = join(
        rt,
        move || -> Seat<Small>
            requires { ((s : ℕ) × IsUnused latches.now s s seat) × (count ≤ latches.now.config.calls) × (count ≤ 65536) }
            ensures { IsDone latches.entry.now seat.first seat.last result }
        { rounds(rt, alloc, latches, seat, count, hold) },
        move || -> Seat<Small>
            requires { ((s : ℕ) × IsUnused latches.now s s other) × (count ≤ latches.now.config.calls) × (count ≤ 65536) }
            ensures { IsDone latches.entry.now other.first other.last result }
        { rounds(rt, alloc, latches, other, count, hold) },
    );
    latches.join(&mut seat, other);
    seat
}

/// Four sessions, each on a thread of its own.
fn four<R: Abort + Clock + Threads + Wait + Sync>(
    rt: &R,
    alloc: Global,
    latches: &Latches<Small>,
    mut seat: Seat<Small>,
    count: u32,
    hold: u32,
) -> Seat<Small>
    requires seat { (f : ℕ) × IsUnused latches.now f (f + 3) seat × (f ≤ 13) }
    requires count { (count ≤ latches.now.config.calls) × (count ≤ 65536) }
    ensures seat { IsDone latches.now seat.first seat.last result }
{
    let at = seat.first() + 2;
    let other = latches.split(&mut seat, at);
    let (mut seat, other) = join(
        rt,
        move || -> Seat<Small>
            requires { ((f : ℕ) × IsUnused latches.now f (f + 1) seat × (f ≤ 15)) × (count ≤ latches.now.config.calls) × (count ≤ 65536) }
            ensures { IsDone latches.entry.now seat.first seat.last result }
        { two(rt, alloc, latches, seat, count, hold) },
        move || -> Seat<Small>
            requires { ((f : ℕ) × IsUnused latches.now f (f + 1) other × (f ≤ 15)) × (count ≤ latches.now.config.calls) × (count ≤ 65536) }
            ensures { IsDone latches.entry.now other.first other.last result }
        { two(rt, alloc, latches, other, count, hold) },
    );
    latches.join(&mut seat, other);
    seat
}

/// Eight sessions, each on a thread of its own.
fn eight<R: Abort + Clock + Threads + Wait + Sync>(
    rt: &R,
    alloc: Global,
    latches: &Latches<Small>,
    mut seat: Seat<Small>,
    count: u32,
    hold: u32,
) -> Seat<Small>
    requires seat { (f : ℕ) × IsUnused latches.now f (f + 7) seat × (f ≤ 9) }
    requires count { (count ≤ latches.now.config.calls) × (count ≤ 65536) }
    ensures seat { IsDone latches.now seat.first seat.last result }
{
    let at = seat.first() + 4;
    let other = latches.split(&mut seat, at);
    let (mut seat, other) = join(
        rt,
        move || -> Seat<Small>
            requires { ((f : ℕ) × IsUnused latches.now f (f + 3) seat × (f ≤ 13)) × (count ≤ latches.now.config.calls) × (count ≤ 65536) }
            ensures { IsDone latches.entry.now seat.first seat.last result }
        { four(rt, alloc, latches, seat, count, hold) },
        move || -> Seat<Small>
            requires { ((f : ℕ) × IsUnused latches.now f (f + 3) other × (f ≤ 13)) × (count ≤ latches.now.config.calls) × (count ≤ 65536) }
            ensures { IsDone latches.entry.now other.first other.last result }
        { four(rt, alloc, latches, other, count, hold) },
    );
    latches.join(&mut seat, other);
    seat
}

/// The journal has each session's calls in order, and each store what a plain replay of it gives.
fn agrees<R: Abort>(rt: &R, closed: &Closed<Small>, count: u32) {
    let mut numbers = [0u32; 8];
    let mut sums = [0u64; 128];
    for entry in closed.journal().as_slice() {
        let session = entry.turn.session as usize;
        assert!(rt; 1 <= session && session <= 8);
        let last = numbers[session - 1];
        assert!(rt; last < count && entry.turn.number == last + 1);
        numbers[session - 1] = entry.turn.number;
        let at = coordinate(rt, &entry.call) as usize;
        assert!(rt; at < 128);
        sums[at] = sums[at].wrapping_add(1);
    }
    for number in numbers.iter() {
        assert!(rt; *number == count);
    }
    for (at, sum) in sums.iter().enumerate() {
        let Some(store) = closed.store(at as u32 / 2) else {
            panic!(rt; "no store")
        };
        assert!(rt; store.number(at as u32) == *sum);
    }
    assert!(rt; closed.store(64).is_none());
}

/// The coordinate of a call that adds 1.
fn coordinate<R: Abort>(rt: &R, call: &Call) -> u32 {
    let Call::Batch(updates) = call else {
        panic!(rt; "no batch")
    };
    let Some(Update::Add { cell, value }) = updates.get(0) else {
        panic!(rt; "no add")
    };
    assert!(rt; updates.len() == 1 && *value == 1);
    let Some(at) = cell.at.get(0) else {
        panic!(rt; "no coordinate")
    };
    *at
}

#[test]
fn the_second_seat_finds_the_holder(rt: HostRuntime) -> Result<(), Fail> {
    let (latches, mut seat) = table(rt.alloc(), 4, 2, 2, 1)?;
    let mut other = latches.split(&mut seat, 2);
    let Ok(kept) = latches.try_take(&mut seat, 1, 0) else {
        panic!(rt; "the latch was free")
    };
    let Err(busy) = latches.try_take(&mut other, 2, 0) else {
        panic!(rt; "the latch was held")
    };
    assert!(rt; busy.latch == 0 && busy.holder == 1);
    latches.give(&mut seat, 0, kept);
    let Ok(kept) = latches.try_take(&mut other, 2, 0) else {
        panic!(rt; "the latch was given back")
    };
    let Kept::Fiber(store) = kept else {
        panic!(rt; "a fiber has a store")
    };
    assert!(rt; store.latch == 0 && store.number(1) == 0);
    latches.give(&mut other, 0, Kept::Fiber(store));
    latches.join(&mut seat, other);
    assert!(rt; seat.first() == 1 && seat.last() == 2 && seat.number(2) == 0);
    let closed = latches.close(seat);
    assert!(rt; closed.journal().len() == 0 && closed.store(2).is_none());
    Ok(())
}

#[test]
fn eight_threads_make_one_history(rt: HostRuntime) -> Result<(), Fail> {
    let (latches, seat) = table(rt.alloc(), 128, 64, 8, 2000)?;
    let seat = eight(&rt, rt.alloc(), &latches, seat, 2000, 0);
    let closed = latches.close(seat);
    agrees(&rt, &closed, 2000);
    Ok(())
}

/// Each hold of a millisecond is far longer than a take tries before it parks, so most takes of the journal park.
#[test]
fn parked_threads_get_their_turn(rt: HostRuntime) -> Result<(), Fail> {
    let (latches, seat) = table(rt.alloc(), 128, 64, 8, 20)?;
    let seat = eight(&rt, rt.alloc(), &latches, seat, 20, 1000);
    let closed = latches.close(seat);
    agrees(&rt, &closed, 20);
    Ok(())
}

/// The try of a free seat finds the latch held by this session.
fn finds<R: Abort>(
    rt: &R,
    latches: &Latches<Small>,
    seat: &mut Seat<Small>,
    latch: u32,
    holder: u32,
)
    requires seat { IsFree latches.now seat.old }
    requires latch { latch ≤ latches.now.config.end }
    ensures seat { IsFree latches.now seat.new }
{
    let session = seat.first();
    let Err(busy) = latches.try_take(seat, session, latch) else {
        panic!(rt; "the latch was held")
    };
    assert!(rt; busy.latch == latch && busy.holder == holder);
}

/// Each of the seats finds the latch held by this session. The seats come back behind those of `tried`.
fn all_find<R: Abort>(
    rt: &R,
    latches: &Latches<Small>,
    mut seats: Vec<Seat<Small>>,
    mut tried: Vec<Seat<Small>>,
    latch: u32,
    holder: u32,
) -> Result<Vec<Seat<Small>>, AllocError>
    requires seats { All (IsFree latches.now) seats.items × All (IsFree latches.now) tried.items }
    requires latch { latch ≤ latches.now.config.end }
    ensures seats { IfOk result (λ v. All (IsFree latches.now) v.items) }
{
    while let Some(mut seat) = seats.pop() {
        finds(rt, latches, &mut seat, latch, holder);
        tried.push(seat)?;
    }
    Ok(tried)
}

/// Sixteen seats take the latch in turn, each at its first try, and all others find it held by that seat's session.
fn hold_in_turn<R: Abort>(
    rt: &R,
    alloc: Global,
    latches: &Latches<Small>,
    mut waiting: Vec<Seat<Small>>,
    latch: u32,
) -> Result<Vec<Seat<Small>>, AllocError>
    requires seats { All (IsFree latches.now) waiting.items }
    requires latch { latch ≤ latches.now.config.end }
    ensures seats { IfOk result (λ v. All (IsFree latches.now) v.items) }
{
    let mut done = Vec::new(alloc);
    for _turn in 0..16 {
        let Some(mut holder) = waiting.pop() else {
            panic!(rt; "no seat is left")
        };
        let session = holder.first();
        let Ok(kept) = latches.try_take(&mut holder, session, latch) else {
            panic!(rt; "the latch was free")
        };
        waiting = all_find(rt, latches, waiting, Vec::new(alloc), latch, session)?;
        done = all_find(rt, latches, done, Vec::new(alloc), latch, session)?;
        latches.give(&mut holder, latch, kept);
        done.push(holder)?;
    }
    Ok(done)
}

/// The seats take each of the three latches in turn.
fn hold_each<R: Abort>(
    rt: &R,
    alloc: Global,
    latches: &Latches<Small>,
    mut seats: Vec<Seat<Small>>,
) -> Result<Vec<Seat<Small>>, AllocError>
    requires seats { All (IsFree latches.now) seats.items }
    requires end { latches.now.config.end ≡ 2 }
    ensures seats { IfOk result (λ v. All (IsFree latches.now) v.items) }
{
    for latch in 0..3 {
        seats = hold_in_turn(rt, alloc, latches, seats, latch)?;
    }
    Ok(seats)
}

/// A seat for each of the 16 sessions.
fn seat_each(
    alloc: Global,
    latches: &Latches<Small>,
    seat: Seat<Small>,
) -> Result<Vec<Seat<Small>>, AllocError>
    requires seat { IsFree latches.now seat × (seat.first ≡ 1) × (seat.last ≡ 16) }
    ensures seats { IfOk result (λ v. All (IsFree latches.now) v.items) }
{
    let mut seats = Vec::new(alloc);
    let mut rest = seat;
    for at in 2..17 {
        let upper = latches.split(&mut rest, at);
        seats.push(rest)?;
        rest = upper;
    }
    seats.push(rest)?;
    Ok(seats)
}

#[test]
fn sixteen_seats_find_the_true_holder(rt: HostRuntime) -> Result<(), Fail> {
    let (latches, seat) = table(rt.alloc(), 4, 2, 16, 1)?;
    let seats = seat_each(rt.alloc(), &latches, seat)?;
    let seats = hold_each(&rt, rt.alloc(), &latches, seats)?;
    assert!(rt; seats.len() == 16);
    Ok(())
}

#[test]
fn a_latch_is_taken_and_given(rt: HostRuntime) -> Result<(), Fail> {
    let world = world(rt.alloc(), 4, 2)?;
    let (latches, mut seat) = Latches::open(rt.alloc(), &world, stores(rt.alloc(), 2)?, 2, 10)?;
    let kept = latches.take(&rt, &mut seat, 1, 0);
    latches.give(&mut seat, 0, kept);
    let closed = latches.close(seat);
    assert!(rt; closed.journal().len() == 0 && closed.store(1).is_some());
    Ok(())
}
