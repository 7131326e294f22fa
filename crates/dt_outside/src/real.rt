//! The files of the system and its standard output.
ghost use Rattle.std.specs.Prelude.{◌≡◌, [], None};

use crate::shelves::{FetchFault, Shelf, name_of};
use crate::sinks::{Sink, SinkFailed};
use arrayvec::ArrayVec;
use dt_model::FILE_NAME_LIMIT;
use std::fs::{File, Files};
use std::io::{ErrorKind, Print, Read};

/// The files of the system, under names that are read from the current folder on. A name that isn't
/// there and a folder are failed fetches. It exposes no content.
#[derive(Drop)]
pub struct FileShelf<R> {
    rt: R,
    faults: u64,
    blamed: ArrayVec<u8, FILE_NAME_LIMIT>,
}

impl<R> FileShelf<R> {
    /// The files of the system, read through a runtime. No fetch has failed yet.
    pub fn new(rt: R) -> FileShelf<R>
        ensures fresh { (result.faults ≡ 0) × (result.blamed.items ≡ []) }
    {
        FileShelf {
            rt,
            faults: 0,
            blamed: ArrayVec::new(),
        }
    }
}

impl<R: Files> Shelf for FileShelf<R> {
    ghost state = { λ s. record { files = None; faults = s.faults; blamed = s.blamed.items } };

    fn fetch(&mut self, name: &str, limit: u64, into: &mut Vec<u8>) -> Result<(), FetchFault> {
        match read_up_to(&self.rt, name, limit, into) {
            Ok(()) if into.len() as u64 > limit => Err(FetchFault::TooLarge),
            Ok(()) => Ok(()),
            Err(ErrorKind::OutOfMemory) => Err(FetchFault::NoMemory),
            Err(_) => {
                self.faults = self.faults.saturating_add(1);
                self.blamed = name_of(name);
                Err(FetchFault::Failed)
            }
        }
    }
}

/// Reads a file to its end, or to one byte past the limit.
fn read_up_to<R: Files>(
    rt: &R,
    name: &str,
    limit: u64,
    into: &mut Vec<u8>,
) -> Result<(), ErrorKind> {
    let file = File::open(rt, name).map_err(|e| e.kind())?;
    match file.take(limit.saturating_add(1)).read_to_end(into) {
        Ok(_) => Ok(()),
        Err(e) => Err(e.kind()),
    }
}

/// The standard output. It exposes no content.
#[derive(Drop)]
pub struct StreamSink<R> {
    rt: R,
    faults: u64,
}

impl<R> StreamSink<R> {
    /// The standard output of a runtime. No write has failed yet.
    pub fn new(rt: R) -> StreamSink<R>
        ensures fresh { result.faults ≡ 0 }
    {
        StreamSink { rt, faults: 0 }
    }
}

impl<R: Print> Sink for StreamSink<R> {
    ghost written = { λ s. None };

    ghost faults = { λ s. s.faults };

    fn write_some(&mut self, piece: &[u8]) -> Result<usize, SinkFailed> {
        match self.rt.write_some(piece) {
            Ok(n) if n > 0 => Ok(n),
            _ => {
                self.faults = self.faults.saturating_add(1);
                Err(SinkFailed)
            }
        }
    }
}
