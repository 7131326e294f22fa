//! The top calls of `run`, `check` and `sample`.
ghost use Rattle.std.specs.Prelude.{◌≡◌, ◌≢◌, ◌≤◌, ◌↔◌, ◌⊎◌, map, string_bytes, None, IfSome, IsSome};
ghost use Rattle.dt_outside.specs.Faults.{HasRisen};
ghost use Rattle.dyntensor.specs.Checks.{PrintsChecks, HasCheckCause, CompletesCheck};
ghost use Rattle.dyntensor.specs.Commands.{manifest_named, sample_numbered, schemas_named};
ghost use Rattle.dyntensor.specs.Headline.{PrintsWorkload, WritesWhere, Completes};
ghost use Rattle.dyntensor.specs.Outcome.{HasCause, Ends};
ghost use Rattle.dyntensor.specs.Samples.{sample_text, HasSampleCause, IsSampleStatus};

use crate::checks::outcome_of_check;
use crate::drivers::outcome_of;
use crate::outcomes::write_outcome;
use crate::samples::outcome_of_sample;
use dt_outside::{Gate, Shelf, Sink};
use fiber_latch::Closed;
use fiber_store::FiberStore;
use std::alloc::Global;
use std::sync::Wait;
use std::thread::Threads;

/// Runs the workload of the manifest that the words name, writes the text due, and answers the
/// status: 0 a report, 1 the usage line, 2 a fault of the workload, 3 a file that the shelf failed to
/// give, 4 a sink that failed, 5 out of memory outside a session's call. The texts of 1, 3 and 5
/// take no memory. Each session runs on a thread of its own, if there is one to be had; no clause names an order in
/// which their calls take effect. Scripts of sessions that follow one another are fetched ahead: at a fault of one, later ones may
/// have been fetched, and the shelf's count of faults may have risen at status 2. The gate is told of each call that holds its fibers. If the text due is a report,
/// `end` has what is left of the table of latches then.
pub fn top_run<R: Threads + Wait + Sync, S: Shelf, K: Sink, G: Gate + Sync>(
    rt: &R,
    alloc: Global,
    words: &[String],
    shelf: &mut S,
    sink: &mut K,
    gate: &G,
    end: &mut Option<Closed<FiberStore>>,
) -> u8
    requires empty { end.old ≡ None }

    // Status 0: what was written is the report of the history that it has, over the workload of the files. `end` has that
    // history, and for each latch a store that is sound, with what the history leaves in its cells.
    ensures headline { result ≡ 0 → IfSome (S.state shelf.old).files (λ files. IfSome (manifest_named (map string_bytes words.now))
        (λ manifest. WritesWhere (PrintsWorkload files manifest end.new) (K.written sink.old) (K.written sink.new))) }

    // Every status: the text that was written is due for it, or at 4 a beginning of one that is due, each with its cause.
    // Where a report is due, `end` has what is left of its table, and else it has nothing.
    ensures ended { Ends (HasCause (manifest_named (map string_bytes words.now)) (S.state shelf.old) (S.state shelf.new) end.new) result (K.written sink.old) (K.written sink.new) (K.faults sink.old) (K.faults sink.new) }
    ensures statuses { result ≤ 5 }

    // Each fault has its cause.
    ensures usage { result ≢ 4 → ((result ≡ 1) ↔ (manifest_named (map string_bytes words.now) ≡ None)) }
    ensures shelf { result ≡ 3 → HasRisen (S.state shelf.old).faults (S.state shelf.new).faults }
    ensures sink { result ≡ 4 → HasRisen (K.faults sink.old) (K.faults sink.new) }
    ensures quiet { result ≢ 4 → K.faults sink.new ≡ K.faults sink.old }
    ensures end { result ≢ 4 → ((result ≡ 0) ↔ IsSome end.new) }

    // Where no count rises, a sound workload is run and a faulty one is refused, unless the run is out of memory.
    ensures complete { (HasRisen (S.state shelf.old).faults (S.state shelf.new).faults → ⊥) → (HasRisen (K.faults sink.old) (K.faults sink.new) → ⊥) → IfSome (S.state shelf.old).files
        (λ files. IfSome (manifest_named (map string_bytes words.now)) (λ manifest. Completes files manifest result)) }
    ensures files { (S.state shelf.new).files ≡ (S.state shelf.old).files }
{
    let outcome = outcome_of(rt, alloc, words, shelf, gate, end);
    write_outcome(sink, &outcome)
}

/// Checks the schemas of the file that the words name, writes a row for each, and answers the status:
/// 0 if all keep the rules, 1 the usage line, 2 if a schema breaks a rule or the file is refused, 3 a
/// file that the shelf failed to give, 4 a sink that failed, 5 out of memory. The texts of 1, 3 and 5
/// take no memory.
pub fn top_check<S: Shelf, K: Sink>(
    alloc: Global,
    words: &[String],
    shelf: &mut S,
    sink: &mut K,
) -> u8
    // Status 0: what was written are the rows of the file's schemas, and all keep the rules.
    ensures kept { result ≡ 0 → IfSome (S.state shelf.old).files (λ files. IfSome (schemas_named (map string_bytes words.now))
        (λ file. WritesWhere (PrintsChecks files file) (K.written sink.old) (K.written sink.new))) }

    // Every status: the text that was written is due for it, or at 4 a beginning of one that is due, each with its cause.
    ensures ended { Ends (HasCheckCause (schemas_named (map string_bytes words.now)) (S.state shelf.old) (S.state shelf.new)) result (K.written sink.old) (K.written sink.new) (K.faults sink.old) (K.faults sink.new) }
    ensures statuses { result ≤ 5 }

    // Each fault has its cause.
    ensures usage { result ≢ 4 → ((result ≡ 1) ↔ (schemas_named (map string_bytes words.now) ≡ None)) }
    ensures shelf { result ≡ 3 → HasRisen (S.state shelf.old).faults (S.state shelf.new).faults }
    ensures sink { result ≡ 4 → HasRisen (K.faults sink.old) (K.faults sink.new) }
    ensures quiet { result ≢ 4 → K.faults sink.new ≡ K.faults sink.old }

    // Where no count rises, the schemas are checked, or the file is refused, unless the call is out of memory.
    ensures complete { (HasRisen (S.state shelf.old).faults (S.state shelf.new).faults → ⊥) → (HasRisen (K.faults sink.old) (K.faults sink.new) → ⊥) → IfSome (S.state shelf.old).files
        (λ files. IfSome (schemas_named (map string_bytes words.now)) (λ file. CompletesCheck files file result)) }
    ensures files { (S.state shelf.new).files ≡ (S.state shelf.old).files }
{
    let outcome = outcome_of_check(alloc, words, shelf);
    write_outcome(sink, &outcome)
}

/// Runs the sample of the number that the words have, its sessions one after the other on this thread, writes the number, the
/// count of the nonzeros and their sum, and answers the status: 0 a text, 1 the usage line, 4 a sink that failed, 5 out of
/// memory, also where a call of a session was. The texts of 1 and 5 take no memory.
pub fn top_sample<K: Sink>(alloc: Global, words: &[String], sink: &mut K) -> u8
    // Status 0: what was written is the text of the number, which is taken from the contents once every call was made.
    ensures sampled { result ≡ 0 → IfSome (sample_numbered (map string_bytes words.now))
        (λ n. WritesWhere (λ bytes. bytes ≡ sample_text n) (K.written sink.old) (K.written sink.new)) }

    // Every status: the text that was written is due for it, or at 4 a beginning of one that is due, each with its cause.
    ensures ended { Ends (HasSampleCause (sample_numbered (map string_bytes words.now))) result (K.written sink.old) (K.written sink.new) (K.faults sink.old) (K.faults sink.new) }
    ensures statuses { IsSampleStatus result }

    // Each fault has its cause.
    ensures usage { result ≢ 4 → ((result ≡ 1) ↔ (sample_numbered (map string_bytes words.now) ≡ None)) }
    ensures sink { result ≡ 4 → HasRisen (K.faults sink.old) (K.faults sink.new) }
    ensures quiet { result ≢ 4 → K.faults sink.new ≡ K.faults sink.old }

    // Where the count doesn't rise, a number is sampled, unless the call is out of memory.
    ensures complete { (HasRisen (K.faults sink.old) (K.faults sink.new) → ⊥) → IfSome (sample_numbered (map string_bytes words.now)) (λ n. (result ≡ 0) ⊎ (result ≡ 5)) }
{
    let outcome = outcome_of_sample(alloc, words);
    write_outcome(sink, &outcome)
}
