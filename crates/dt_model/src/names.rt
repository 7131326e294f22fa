//! Names of tensors, variables, schemas and kinds.
ghost use Rattle.std.specs.Prelude.{◌≡◌, ◌↔◌, [], ◌∷◌, IfSome, IsSome, IsTrue};
ghost use Rattle.std.specs.List.{list_all};
ghost use Rattle.dt_model.specs.Names.{is_name, is_name_start, is_name_byte};

use crate::limits::{NAME_LIMIT, UNDERSCORE};
use arrayvec::ArrayVec;
use std::marker::Model;

/// A name of 1 to 32 bytes: an ASCII letter or `_`, then ASCII letters, digits and `_`. Case
/// matters.
#[derive(Debug, Drop, PartialEq, Eq)]
pub struct Name {
    bytes: ArrayVec<u8, NAME_LIMIT>,
}

impl Model for Name {
    ghost use Rattle.std.specs.Prelude.{List, ℕ, IsTrue};
    ghost use Rattle.dt_model.specs.Names.{is_name};

    ghost Value = { List ℕ };

    ghost view = { λ n. n.bytes.items };

    ghost invariant = { λ n. IsTrue (is_name n.bytes.items) };

    ghost inverse = { λ xs. record { bytes = record { items = xs } } };
}

/// Whether a name may begin with the byte.
fn is_name_start(byte: u8) -> bool
    ensures value { result ≡ is_name_start byte }
{
    byte.is_ascii_alphabetic() || byte == UNDERSCORE
}

/// Whether a name may have the byte behind its first.
fn is_name_byte(byte: u8) -> bool
    ensures value { result ≡ is_name_byte byte }
{
    is_name_start(byte) || byte.is_ascii_digit()
}

/// Whether each of the bytes may be in a name.
fn are_name_bytes(bytes: &[u8]) -> bool
    ensures value { result ≡ list_all is_name_byte bytes.now }
{
    bytes.iter().all(|byte| is_name_byte(*byte))
}

/// Whether the bytes are a name.
fn is_name(bytes: &[u8]) -> bool
    ensures value { result ≡ is_name bytes.now }
{
    match bytes {
        [] => false,
        [first, rest @ ..] => {
            is_name_start(*first) && rest.len() < NAME_LIMIT && are_name_bytes(rest)
        }
    }
}

impl Name {
    /// The name of these bytes. None exactly where they aren't a name.
    pub fn new(bytes: &[u8]) -> Option<Name>
        ensures exact { IsSome result ↔ IsTrue (is_name bytes.now) }
        ensures value { IfSome result (λ name. name ≡ bytes.now) }
    {
        if !is_name(bytes) {
            return None;
        }
        match ArrayVec::try_from(bytes) {
            Ok(bytes) => Some(Name { bytes }),
            Err(_) => None,
        }
    }

    /// The name's bytes.
    pub fn bytes(&self) -> &[u8]
        ensures value { result.now ≡ self.now }
        ensures name { IsTrue (is_name result.now) }
    {
        self.bytes.as_slice()
    }

    /// An equal name. It takes no memory.
    pub fn copy(&self) -> Name
        ensures value { result ≡ self.now }
    {
        match ArrayVec::try_from(self.bytes.as_slice()) {
            Ok(bytes) => Name { bytes },
            Err(_) => unreachable!(),
        }
    }
}

impl Default for Name {
    /// The name `_`. It fills the unused places of an `ArrayVec`. A text may have this name too.
    fn default() -> Name
        ensures value { result ≡ 95 ∷ [] }
    {
        let mut bytes = ArrayVec::new();
        bytes.push(UNDERSCORE);
        Name { bytes }
    }
}
