//! Shelves: where files are read from.
ghost use Rattle.std.specs.Prelude.{◌≡◌, ◌≤◌, [], length};
ghost use Rattle.dt_model.specs.declared.limits.TheConstants.{FILE_NAME_LIMIT};
ghost use Rattle.dt_model.specs.FileNames.{HasNameLength};
ghost use Rattle.dt_outside.specs.Faults.{ShelfState, IsFetch};

use arrayvec::ArrayVec;
use dt_model::FILE_NAME_LIMIT;
use thiserror::Error;

/// Why a fetch gives no file.
#[derive(Clone, Copy, Debug, PartialEq, Eq, Error)]
pub enum FetchFault {
    /// The shelf failed: the name isn't there, or its file can't be read.
    #[error("the name is not that of a file that can be read")]
    Failed,
    /// The file has more bytes than the limit.
    #[error("the file has more bytes than the limit allows")]
    TooLarge,
    /// Out of memory.
    #[error("out of memory, which the bytes of a file need")]
    NoMemory,
}

/// A source of files under names. Contracts see it as a `ShelfState`: the bytes under each name, if the
/// shelf exposes them; the count of the fetches that failed, which never falls and ends at 2^64 - 1; and
/// the name of the last one that failed.
pub trait Shelf {
    ghost state: { Self → ShelfState };

    /// Reads the file under a name into an empty buffer, if it has at most `limit` bytes. After a
    /// refusal the buffer may hold any bytes.
    fn fetch(&mut self, name: &str, limit: u64, into: &mut Vec<u8>) -> Result<(), FetchFault>
        requires fresh { into.old.items ≡ [] }
        requires named { HasNameLength name.now }
        ensures answer { IsFetch (state self.old) (state self.new) name.now limit result into.new.items };
}

/// The bytes of a name.
pub(crate) fn name_of(name: &str) -> ArrayVec<u8, FILE_NAME_LIMIT>
    requires in_range { length name.now ≤ FILE_NAME_LIMIT }
    ensures value { result.items ≡ name.now }
{
    match ArrayVec::try_from(name.as_bytes()) {
        Ok(bytes) => bytes,
        Err(_) => unreachable!(),
    }
}
