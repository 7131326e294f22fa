//! Sessions that follow one another: their texts are fetched in turn, read at once on threads, and added in turn.
ghost use Rattle.std.specs.Prelude.{◌≡◌, ◌≤◌, ◌<◌, ℕ, List, true, length, drop, All, IfErr, IfOk, IfSome, OnOk, Ok, slice_index_or};
ghost use Rattle.dt_model.specs.declared.limits.TheConstants.{FILE_LIMIT, MOST_LINES};
ghost use Rattle.dt_model.specs.Worlds.{decls_are_valid};
ghost use Rattle.dyntensor.specs.declared.drafts.Draft.{Draft};
ghost use Rattle.dyntensor.specs.Workload.{decls_of, with_text, work_of};
ghost use Rattle.dyntensor.specs.Readings.{IsQuiet, IsFaultStop};
ghost use Rattle.dyntensor.specs.Gathering.{IsRunnable};
ghost use Rattle.dyntensor.specs.Adding.{CanAddAll, IsAdded, IsItemsStop};
ghost use Rattle.dyntensor.specs.Drafts.{CanAddDrafts, Fetches, IsRead, IsShort, Reads, is_run, is_session, with_drafts};

use crate::fetching::fetch;
use crate::gathering::Gathering;
use crate::scripts::add_text;
use crate::stops::Stop;
use dt_model::{Decls, FILE_LIMIT, NoMemory, Verdicts};
use dt_outside::Shelf;
use script_read::{FileName, Item, read_script};
use std::alloc::Global;
use std::collections::VecDeque;
use std::thread::{Threads, for_each_mut};

/// A script that was fetched, and what a thread has read of it.
#[derive(Drop)]
pub struct Draft {
    /// Its file.
    pub file: FileName,
    /// Its bytes.
    pub text: Vec<u8>,
    /// Its verdicts. None before it is read, and where it has a fault or memory ran out.
    pub read: Option<Verdicts>,
}

/// The scripts that were fetched one after the other.
#[derive(Drop)]
pub struct Fetched {
    /// The scripts.
    pub drafts: Vec<Draft>,
    /// Why the one behind them was not fetched, if it was tried.
    pub stop: Option<Stop>,
}

/// Whether an item is a session.
fn is_session(item: &Item) -> bool
    ensures value { result ≡ is_session item.now }
{
    matches!(item, Item::Session { .. })
}

/// Whether items begin with two sessions.
fn is_run(items: &[(u32, Item)]) -> bool
    ensures value { result ≡ is_run items.now }
{
    match items {
        [first, second, ..] => is_session(&first.1) && is_session(&second.1),
        _ => false,
    }
}

/// Fetches the scripts of the sessions that items begin with. It ends behind the last of these, behind the script with which
/// all scripts pass the limit of a workload, where so many bytes were read before, and at the first fetch that fails.
fn fetch_drafts<S: Shelf>(
    alloc: Global,
    shelf: &mut S,
    bytes: u64,
    items: &[(u32, Item)],
) -> Result<Fetched, NoMemory>
    requires small { bytes ≤ FILE_LIMIT }
    ensures fetched { IfOk result (Fetches (S.state shelf.old) (S.state shelf.new) items.now) }
    ensures files { (S.state shelf.new).files ≡ (S.state shelf.old).files }
{
    let mut drafts = Vec::new(alloc);
    let mut held = bytes;
    let mut rest = items;
    while let Some((item, more)) = rest.split_first() {
        let Item::Session { file } = &item.1 else {
            break;
        };
        if held > FILE_LIMIT {
            break;
        }
        let text = match fetch(alloc, shelf, file) {
            Ok(text) => text,
            Err(stop) => {
                let stop = Some(stop);
                return Ok(Fetched { drafts, stop });
            }
        };
        held += text.len() as u64;
        let file = file.copy();
        let read = None;
        drafts.push(Draft { file, text, read })?;
        rest = more;
    }
    Ok(Fetched { drafts, stop: None })
}

/// Reads a draft, where so many updates more may be accepted.
fn read_draft(alloc: Global, decls: &Decls, most: u32, draft: &mut Draft)
    requires short { IsShort draft.old }
    requires decls { decls_are_valid decls.now ≡ true }
    requires few { most ≤ MOST_LINES }
    ensures reads { Reads decls.now draft.old draft.new }
{
    draft.read = match read_script(alloc, decls, draft.text.as_slice(), most) {
        Ok(script) => Some(script),
        Err(_fault) => None,
    };
}

/// Reads all drafts at once, each on a thread of its own where one can be made.
fn read_drafts<R: Threads + Sync>(
    rt: &R,
    alloc: Global,
    decls: &Decls,
    most: u32,
    drafts: &mut [Draft],
)
    requires short { All IsShort drafts.old }
    requires decls { decls_are_valid decls.now ≡ true }
    requires few { most ≤ MOST_LINES }
    ensures reads { (k : ℕ) (d : Draft) → k < length drafts.old → Reads decls.now (slice_index_or drafts.old k d) (slice_index_or drafts.new k d) }
{
    let threads = drafts.len();
    if threads == 0 {
        return;
    }
    let each = |_place: usize, draft: &mut Draft|
        requires { IsShort draft.now × (decls_are_valid decls.now ≡ true) × (most ≤ MOST_LINES) }
        ensures { Reads decls.entry.now draft.entry.now draft.exit.now }
    { read_draft(alloc, decls, most, draft) };
    for_each_mut(rt, drafts, threads, &each);
}

/// Adds a draft. A script that has no verdicts, or more of them than may be added, is read again.
fn add_draft(alloc: Global, gathering: &mut Gathering, draft: Draft) -> Result<(), Stop>
    requires runnable { IsRunnable (work_of gathering.old).world gathering.old.printed }
    requires short { IsShort draft }
    requires read { IsRead (decls_of gathering.old) draft }
    ensures script { OnOk result (with_text gathering.old draft.file draft.text.items ≡ Ok gathering.new) }
    ensures stop { IfErr result (IsFaultStop (with_text gathering.old draft.file draft.text.items)) }
{
    let Draft { file, text, read } = draft;
    let Some(script) = read else {
        return add_text(alloc, gathering, &file, text.as_slice());
    };
    if !gathering.has_room(text.len(), script.as_slice()) {
        drop(script);
        return add_text(alloc, gathering, &file, text.as_slice());
    }
    Ok(gathering.add_script(text.len(), script)?)
}

/// Adds drafts, one after the other, up to the first fault.
fn add_drafts(
    alloc: Global,
    gathering: &mut Gathering,
    mut drafts: VecDeque<Draft>,
) -> Result<(), Stop>
    requires can { CanAddDrafts gathering.old drafts.items }
    requires short { All IsShort drafts.items }
    requires read { All (IsRead (decls_of gathering.old)) drafts.items }
    ensures scripts { OnOk result (with_drafts gathering.old drafts.items ≡ Ok gathering.new) }
    ensures stop { IfErr result (IsFaultStop (with_drafts gathering.old drafts.items)) }
{
    let Some(draft) = drafts.pop_front() else {
        return Ok(());
    };
    add_draft(alloc, gathering, draft)?;
    add_drafts(alloc, gathering, drafts)
}

/// Adds the sessions that items begin with, if they are two or more, and answers how many; else nothing, and 0. A fault of an
/// earlier script comes before that of a later one, and before a later fetch that fails. It holds the texts of all of them,
/// and with the last one they may pass the limit of a workload's scripts.
pub fn add_run<R: Threads + Sync, S: Shelf>(
    rt: &R,
    alloc: Global,
    shelf: &mut S,
    gathering: &mut Gathering,
    items: &[(u32, Item)],
) -> Result<usize, Stop>
    requires can { CanAddAll gathering.old items.now }
    ensures quiet { OnOk result (IsQuiet (S.state shelf.old) (S.state shelf.new)) }
    ensures within { IfOk result (λ n. n ≤ length items.now) }
    ensures added { IfOk result (λ n. (manifest : List ℕ) → IsAdded (S.state shelf.old).files manifest gathering.old items.now gathering.new (drop n items.now)) }
    ensures files { (S.state shelf.new).files ≡ (S.state shelf.old).files }
    ensures stop { IfErr result (λ stop. (manifest : List ℕ) → IsItemsStop (S.state shelf.old) (S.state shelf.new) manifest gathering.old items.now stop) }
{
    if !is_run(items) {
        return Ok(0);
    }
    let fetched = fetch_drafts(alloc, shelf, gathering.script_bytes(), items)?;
    let Fetched { mut drafts, stop } = fetched;
    let count = drafts.len();
    read_drafts(
        rt,
        alloc,
        gathering.decls(),
        gathering.lines_left(),
        drafts.as_mut_slice(),
    );
    add_drafts(alloc, gathering, VecDeque::from_vec(drafts))?;
    match stop {
        None => Ok(count),
        Some(stop) => Err(stop),
    }
}
