//! Which latches a call needs.
ghost use Rattle.std.specs.Prelude.{◌≡◌, ◌++◌, ◌+◌, ◌<◌, ◌≤◌, ℕ, [], IsTrue, length, drop, map};
ghost use Rattle.arrayvec.specs.ArrayVec.{array_vec_len};
ghost use Rattle.commit_core.specs.Calls.{updates_are_valid};
ghost use Rattle.dt_model.specs.Latches.{latch_of_cell, needs};
ghost use Rattle.dt_model.specs.Statements.{accesses};
ghost use Rattle.dt_model.specs.Tensors.{tensor_named};
ghost use Rattle.dt_model.specs.Verdicts.{call_is_valid, cell_is_valid, update_cell};
ghost use Rattle.dt_model.specs.Worlds.{decls_are_valid};
ghost use Rattle.dt_model.specs.declared.limits.TheConstants.{MOST_UPDATES};
ghost use Rattle.sessions.specs.Needing.{AreAscending, IsLeastFrom, access_ranges, call_ranges, covers, is_in, one_latch, tensor_ranges};

use arrayvec::ArrayVec;
use dt_model::{Call, Cell, Decls, Expr, MOST_UPDATES, Name, Update, latch_of, total_latches};

/// Latches that follow one another: from `first` on, below `end`.
#[derive(Clone, Copy, Default)]
pub struct LatchRange {
    pub first: u32,
    pub end: u32,
}

/// The latches of a call. There is room: a batch has at most 64 updates, and a query 12 accesses.
pub type LatchRanges = ArrayVec<LatchRange, MOST_UPDATES>;

/// The cell that an update changes.
pub fn cell_of(update: &Update) -> &Cell
    ensures value { result.now ≡ update_cell update.now }
{
    match update {
        Update::Set { cell, .. } | Update::Add { cell, .. } => cell,
    }
}

/// The range of the latch of a cell.
fn range_of_cell(decls: &Decls, cell: &Cell) -> LatchRange
    requires decls { IsTrue (decls_are_valid decls.now) }
    requires cell { IsTrue (cell_is_valid decls.now cell.now) }
    ensures value { result ≡ one_latch (latch_of_cell decls.now cell.now) }
{
    let first = latch_of(decls, cell);
    LatchRange {
        first,
        end: first + 1,
    }
}

/// Adds the latches of the cells that updates change.
fn add_updates(decls: &Decls, updates: &[Update], ranges: &mut LatchRanges)
    requires decls { IsTrue (decls_are_valid decls.now) }
    requires cells { IsTrue (updates_are_valid decls.now updates.now) }
    requires room { length updates.now ≤ MOST_UPDATES }
    requires empty { ranges.old.items ≡ [] }
    ensures added { ranges.new.items ≡ map (λ u. one_latch (latch_of_cell decls.now (update_cell u))) updates.now }
{
    for update in updates {
        ranges.push(range_of_cell(decls, cell_of(update)));
    }
}

/// Adds the latches of the tensor with this name, if there is one.
fn add_tensor(decls: &Decls, name: &Name, ranges: &mut LatchRanges)
    requires decls { IsTrue (decls_are_valid decls.now) }
    requires room { array_vec_len ranges.old + 1 ≤ MOST_UPDATES }
    ensures added { ranges.new.items ≡ ranges.old.items ++ tensor_ranges decls.now (tensor_named decls.now name.now) }
{
    if let Some(place) = decls.find_tensor(name) {
        let tensors = decls.tensors.as_slice();
        let first = total_latches(&tensors[..place]);
        ranges.push(LatchRange {
            first,
            end: first + tensors[place].latches,
        });
    }
}

/// Adds the latches of the tensors that an expression names.
fn add_expression(decls: &Decls, expression: &Expr, ranges: &mut LatchRanges)
    requires decls { IsTrue (decls_are_valid decls.now) }
    requires room { array_vec_len ranges.old + length (accesses expression.now) ≤ MOST_UPDATES }
    ensures added { ranges.new.items ≡ ranges.old.items ++ access_ranges decls.now (accesses expression.now) }
{
    match expression {
        Expr::Literal(_) => {}
        Expr::Access { tensor, .. } => add_tensor(decls, tensor, ranges),
        Expr::Plus(a, b) => {
            add_expression(decls, a.get(), ranges);
            add_expression(decls, b.get(), ranges);
        }
        Expr::Minus(a, b) => {
            add_expression(decls, a.get(), ranges);
            add_expression(decls, b.get(), ranges);
        }
        Expr::Times(a, b) => {
            add_expression(decls, a.get(), ranges);
            add_expression(decls, b.get(), ranges);
        }
        Expr::Negate(a) => add_expression(decls, a.get(), ranges),
    }
}

/// The latches that a call needs, in the order in which it names them.
fn named_ranges(decls: &Decls, call: &Call) -> LatchRanges
    requires decls { IsTrue (decls_are_valid decls.now) }
    requires call { IsTrue (call_is_valid decls.now call.now) }
    ensures value { result.items ≡ call_ranges decls.now call.now }
{
    let mut ranges = ArrayVec::new();
    match call {
        Call::Get(cell) => ranges.push(range_of_cell(decls, cell)),
        Call::Batch(updates) => add_updates(decls, updates.as_slice(), &mut ranges),
        Call::Query(stmt) => add_expression(decls, &stmt.get().right, &mut ranges),
    }
    ranges
}

/// The latches that a call needs, as ranges in ascending order of their first latches. It takes no memory.
pub fn ranges_of(decls: &Decls, call: &Call) -> LatchRanges
    requires decls { IsTrue (decls_are_valid decls.now) }
    requires call { IsTrue (call_is_valid decls.now call.now) }
    ensures ascending { AreAscending result.items }
    ensures covers { (l : ℕ) → covers result.items l ≡ needs decls.now call.now l }
{
    let mut ranges = named_ranges(decls, call);
    ranges.sort_unstable_by_key(|range| range.first);
    ranges
}

/// The least latch of a range from `from` on, if there is one.
fn least_of(range: LatchRange, from: u32) -> Option<u32>
    ensures least { IsLeastFrom (is_in range) from result }
{
    let latch = if range.first < from {
        from
    } else {
        range.first
    };
    if latch < range.end { Some(latch) } else { None }
}

/// The least latch from `from` on in the ranges from a place on. The place moves past the ranges that end before it.
pub fn next_latch(ranges: &[LatchRange], place: &mut usize, from: u32) -> Option<u32>
    requires ascending { AreAscending ranges.now }
    requires within { place.old ≤ length ranges.now }
    ensures within { place.new ≤ length ranges.now }
    ensures least { IsLeastFrom (covers (drop place.old ranges.now)) from result }
    ensures rest { (l : ℕ) → from ≤ l → covers (drop place.new ranges.now) l ≡ covers (drop place.old ranges.now) l }
{
    for index in *place..ranges.len() {
        if let Some(latch) = least_of(ranges[index], from) {
            *place = index;
            return Some(latch);
        }
    }
    *place = ranges.len();
    None
}
