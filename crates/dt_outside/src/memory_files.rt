//! Files in memory: the last one that is put under a name counts.
ghost use Rattle.std.specs.Prelude.{◌≡◌, ◌≢◌, ◌≤◌, ◌<◌, [], length, OnOk, OnErr, IfOk, Some, None, Err, MatchOption};
ghost use Rattle.dt_outside.specs.MemoryFiles.{find_file, PutsFile};

use crate::shelves::FetchFault;
use dt_model::NoMemory;
use std::alloc::Global;

/// A file in memory.
#[derive(Drop)]
pub struct MemFile {
    /// The bytes of its name.
    pub name: Vec<u8>,
    /// Its bytes.
    pub bytes: Vec<u8>,
}

/// A file with copies of a name and of bytes.
fn memory_file(alloc: Global, name: &[u8], bytes: &[u8]) -> Result<MemFile, NoMemory>
    ensures name { IfOk result (λ file. file.name.items ≡ name.now) }
    ensures bytes { IfOk result (λ file. file.bytes.items ≡ bytes.now) }
{
    let name = name.to_vec(alloc)?;
    let bytes = bytes.to_vec(alloc)?;
    Ok(MemFile { name, bytes })
}

/// Puts a file behind the others.
pub(crate) fn put(
    alloc: Global,
    files: &mut Vec<MemFile>,
    name: &[u8],
    bytes: &[u8],
) -> Result<(), NoMemory>
    ensures ok { OnOk result (PutsFile files.old.items files.new.items name.now bytes.now) }
    ensures err { OnErr result (files.new.items ≡ files.old.items) }
{
    let file = memory_file(alloc, name, bytes)?;
    files.push(file)?;
    Ok(())
}

/// The bytes of the last file under a name.
pub(crate) fn find<'a>(files: &'a [MemFile], name: &[u8]) -> Option<&'a [u8]>
    ensures content { MatchOption result (find_file files.now name.now ≡ None) (λ bytes. find_file files.now name.now ≡ Some bytes.now) }
{
    let mut found = None;
    for file in files {
        if file.name.as_slice() == name {
            found = Some(file.bytes.as_slice());
        }
    }
    found
}

/// Copies a file of at most `limit` bytes into an empty buffer.
pub(crate) fn fill(into: &mut Vec<u8>, bytes: &[u8], limit: u64) -> Result<(), FetchFault>
    requires fresh { into.old.items ≡ [] }
    ensures ok { OnOk result ((into.new.items ≡ bytes.now) × (length bytes.now ≤ limit)) }
    ensures large { result ≡ Err FetchFault.TooLarge → (into.new.items ≡ bytes.now) × (limit < length bytes.now) }
    ensures no_failure { result ≢ Err FetchFault.Failed }
{
    if into.extend_from_slice(bytes).is_err() {
        return Err(FetchFault::NoMemory);
    }
    if into.len() as u64 > limit {
        return Err(FetchFault::TooLarge);
    }
    Ok(())
}
