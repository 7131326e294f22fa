//! The names of files.
ghost use Rattle.std.specs.Prelude.{◌≡◌, ◌≤◌, length, Some, None, if◌then◌else◌};
ghost use Rattle.std.specs.Str.{is_utf8};
ghost use Rattle.dt_model.specs.FileNames.{HasNameLength};
ghost use Rattle.dt_model.specs.declared.limits.TheConstants.{FILE_NAME_LIMIT};
ghost use Rattle.dt_model.specs.FileNames.{is_file_name};

use arrayvec::ArrayVec;
use dt_model::FILE_NAME_LIMIT;
use std::marker::Model;

/// The name of a file: 1 to 255 bytes of UTF-8.
#[derive(Debug, Drop, PartialEq, Eq)]
pub struct FileName {
    bytes: ArrayVec<u8, FILE_NAME_LIMIT>,
}

impl Model for FileName {
    ghost use Rattle.std.specs.Prelude.{List, ℕ, IsTrue};
    ghost use Rattle.dt_model.specs.FileNames.{is_file_name};

    ghost Value = { List ℕ };

    ghost view = { λ n. n.bytes.items };

    ghost invariant = { λ n. IsTrue (is_file_name n.bytes.items) };

    ghost inverse = { λ xs. record { bytes = record { items = xs } } };
}

/// Whether bytes are UTF-8.
fn is_utf8(bytes: &[u8]) -> bool
    ensures value { result ≡ is_utf8 bytes.now }
{
    match std::str::from_utf8(bytes) {
        Ok(_) => true,
        Err(_) => false,
    }
}

/// Whether bytes are 1 to 255 bytes of UTF-8.
fn is_name(bytes: &[u8]) -> bool
    ensures value { result ≡ is_file_name bytes.now }
{
    bytes.len() >= 1 && bytes.len() <= FILE_NAME_LIMIT && is_utf8(bytes)
}

impl FileName {
    /// The name of these bytes, if they are one.
    pub fn from_bytes(bytes: &[u8]) -> Option<FileName>
        ensures value { result ≡ (if is_file_name bytes.now then Some bytes.now else None) }
    {
        if !is_name(bytes) {
            return None;
        }
        match ArrayVec::try_from(bytes) {
            Ok(bytes) => Some(FileName { bytes }),
            Err(_) => None,
        }
    }

    /// The name of a text of 1 to 255 bytes.
    pub fn new(name: &str) -> FileName
        requires length { HasNameLength name.now }
        ensures value { result ≡ name.now }
    {
        match FileName::from_bytes(name.as_bytes()) {
            Some(name) => name,
            None => unreachable!(),
        }
    }

    /// The name's bytes.
    pub fn bytes(&self) -> &[u8]
        ensures value { result.now ≡ self.now }
        ensures fits { length result.now ≤ FILE_NAME_LIMIT }
    {
        self.bytes.as_slice()
    }

    /// The name as text.
    pub fn text(&self) -> &str
        ensures value { result.now ≡ self.now }
        ensures length { HasNameLength result.now }
    {
        match std::str::from_utf8(self.bytes.as_slice()) {
            Ok(name) => name,
            Err(_) => unreachable!(),
        }
    }

    /// An equal name. It takes no memory.
    pub fn copy(&self) -> FileName
        ensures value { result ≡ self.now }
    {
        match ArrayVec::try_from(self.bytes.as_slice()) {
            Ok(bytes) => FileName { bytes },
            Err(_) => unreachable!(),
        }
    }
}
