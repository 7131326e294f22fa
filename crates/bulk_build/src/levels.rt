//! How high a woven structure is, and into how many parts it is cut.
ghost use Rattle.std.specs.Prelude.{◌≡◌, ◌<◌, ◌≤◌, ◌+◌, ◌*◌, ◌/◌, ◌^◌, suc};
ghost use Rattle.bulk_build.specs.Layouts.{FitsLevels};

/// The levels of a woven node below it, and how many gaps fit into them all. There is one gap more than elements.
#[derive(Clone, Copy, Debug)]
pub(crate) struct Levels {
    pub(crate) below: u32,
    pub(crate) room: u64,
}

/// The fewest levels into which so many gaps fit, where a node has up to `width` children.
pub(crate) fn levels_for(gaps: u64, width: u64) -> Levels
    requires some { 1 < gaps }
    requires few { gaps ≤ 4294967296 }
    requires wide { 3 ≤ width }
    requires narrow { width ≤ 17 }
    ensures value { FitsLevels width result.below result.room gaps }
{
    let mut below = 0;
    let mut room = width;
    'rising: while room < gaps {
        room *= width;
        below += 1;
    }
    Levels { below, room }
}

/// The least number of parts of at most so many each.
pub(crate) fn parts_for(all: u64, most: u64) -> u64
    requires some { 0 < most }
    ensures fits { all ≤ result * most }
    ensures least { result * most < all + most }
{
    let whole = all / most;
    if all % most == 0 { whole } else { whole + 1 }
}

/// How many children a node has behind its first one, where as few as can hold so many gaps are made.
pub(crate) fn later_children(gaps: u64, room: u64, width: u64) -> u64
    requires wide { 3 ≤ width }
    requires some { 0 < room }
    requires needed { room < gaps }
    requires fits { gaps ≤ room * width }
    ensures some { 0 < result }
    ensures few { result < width }
    ensures fits { gaps ≤ result * room + room }
    ensures half { result * ((room + 1) / 2) + (room + 1) / 2 ≤ gaps }
    ensures most { room * width ≤ 2 * gaps → width ≤ 2 * result + 2 }
{
    parts_for(gaps, room) - 1
}

/// Where the last child of some elements begins. It takes all that it can hold, but leaves enough for each child before it to be half full,
/// and one element for between them.
pub(crate) fn start_of_last(left: usize, room: u64, before: u64) -> usize
    requires some { 0 < before }
    requires fits { left + 1 ≤ before * room + room }
    requires half { before * ((room + 1) / 2) + (room + 1) / 2 ≤ left + 1 }
    requires wide { 0 < room }
    requires few { left < 4294967296 }
    ensures some { 0 < result }
    ensures short { result ≤ left }
    ensures fits { left + 1 ≤ result + room }
    ensures half { room + 2 * result ≤ 2 * (left + 1) }
    ensures rest_fits { result ≤ before * room }
    ensures rest_half { before * ((room + 1) / 2) ≤ result }
{
    let gaps = left as u64 + 1;
    let kept = before * ((room + 1) / 2);
    (gaps - room.min(gaps - kept)) as usize
}

/// The levels of a child.
pub(crate) fn child_levels(levels: Levels, width: u64) -> Levels
    requires wide { 3 ≤ width }
    requires some { 0 < levels.below }
    requires room { levels.room ≡ width ^ suc levels.below }
    ensures below { result.below + 1 ≡ levels.below }
    ensures room { result.room ≡ width ^ levels.below }
    ensures parts { levels.room ≡ result.room * width }
    ensures some { 0 < result.room }
{
    Levels {
        below: levels.below - 1,
        room: levels.room / width,
    }
}
