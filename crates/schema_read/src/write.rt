//! The canonical text of a schema.

ghost use Rattle.std.specs.Prelude.{◌≡◌, ◌++◌, [], ◌∷◌, ℕ, List, true, OnOk, OnErr};
ghost use Rattle.std.specs.List.{flat_map};
ghost use Rattle.dt_model.specs.declared.declared_tensors.Schema.{Schema};
ghost use Rattle.schema_read.specs.Grammar.{are_linked};
ghost use Rattle.schema_read.specs.Readings.{ReadsAs};
ghost use Rattle.schema_read.specs.Canonical.{Extends, links_text, kind_text, canonical_text, canonical_texts};

use dt_model::{Kind, Links, NoMemory, Schema};
use dt_text::append;
use itoa::Buffer;

/// Appends some pieces. Out of memory, the text begins as before.
fn write_pieces(into: &mut Vec<u8>, pieces: &[&[u8]]) -> Result<(), NoMemory>
    ensures ok { OnOk result (into.new.items ≡ into.old.items ++ flat_map (λ p. p.now) pieces.now) }
    ensures err { OnErr result (Extends into.old.items into.new.items) }
{
    for piece in pieces {
        match append(into, piece) {
            Ok(()) => {}
            Err(NoMemory) => return Err(NoMemory),
        }
    }
    Ok(())
}

/// Appends links. Out of memory, the text begins as before.
fn write_links(into: &mut Vec<u8>, links: &Links) -> Result<(), NoMemory>
    ensures ok { OnOk result (into.new.items ≡ into.old.items ++ links_text links.now) }
    ensures err { OnErr result (Extends into.old.items into.new.items) }
{
    match links {
        Links::Flat => write_pieces(into, &[]),
        Links::Post(post) => write_pieces(into, &[b" post ", post.bytes()]),
        Links::Ends { pre, post } => {
            write_pieces(into, &[b" pre ", pre.bytes(), b" post ", post.bytes()])
        }
        Links::Woven => write_pieces(into, &[b" woven"]),
    }
}

/// Appends the line of a kind. Out of memory, the text begins as before.
fn write_kind(into: &mut Vec<u8>, kind: &Kind) -> Result<(), NoMemory>
    ensures ok { OnOk result (into.new.items ≡ into.old.items ++ kind_text kind.now) }
    ensures err { OnErr result (Extends into.old.items into.new.items) }
{
    let mut lo = Buffer::new();
    let mut hi = Buffer::new();
    let lo = lo.format(kind.lo).as_bytes();
    let hi = hi.format(kind.hi).as_bytes();
    write_pieces(
        into,
        &[b"  node ", kind.name.bytes(), b" { run ", lo, b"..", hi],
    )?;
    write_links(into, &kind.links)?;
    write_pieces(into, &[b" }\n"])
}

/// Appends the lines of kinds. Out of memory, the text begins as before.
fn write_kinds(into: &mut Vec<u8>, kinds: &[Kind]) -> Result<(), NoMemory>
    ensures ok { OnOk result (into.new.items ≡ into.old.items ++ flat_map kind_text kinds.now) }
    ensures err { OnErr result (Extends into.old.items into.new.items) }
{
    for kind in kinds {
        match write_kind(into, kind) {
            Ok(()) => {}
            Err(NoMemory) => return Err(NoMemory),
        }
    }
    Ok(())
}

/// Appends the whole text. Out of memory, the text begins as before.
fn write_text(into: &mut Vec<u8>, schema: &Schema) -> Result<(), NoMemory>
    ensures ok { OnOk result (into.new.items ≡ into.old.items ++ canonical_text schema.now) }
    ensures err { OnErr result (Extends into.old.items into.new.items) }
{
    write_pieces(into, &[b"schema ", schema.name.bytes(), b" {\n"])?;
    write_kinds(into, schema.kinds.as_slice())?;
    write_pieces(into, &[b"  root ", schema.root.bytes(), b"\n}\n"])
}

/// Appends the canonical text of a schema: a line for its name, one for each kind, one for the root
/// and one for the brace, with two spaces before each inner line, single spaces between words, none
/// beside `..`, and numbers without leading zeros. Each line ends with a line feed. Out of memory,
/// `into` is as before.
pub fn write_schema(schema: &Schema, into: &mut Vec<u8>) -> Result<(), NoMemory>
    requires linked { are_linked schema.now.kinds.items ≡ true }
    ensures ok { OnOk result (into.new.items ≡ into.old.items ++ canonical_text schema.now) }
    ensures err { OnErr result (into.new.items ≡ into.old.items) }
    // If some text declares the schema, its canonical text is read as the schema alone.
    ensures reads_back { (text : List ℕ) (front behind : List Schema) → ReadsAs text (front ++ schema.now ∷ behind) → ReadsAs (canonical_text schema.now) (schema.now ∷ []) }
    // The canonical texts of the schemas of some text, one after the other, are read as these schemas.
    ensures all_read_back { (text : List ℕ) (schemas : List Schema) → ReadsAs text schemas → ReadsAs (canonical_texts schemas) schemas }
{
    let before = into.len();
    match write_text(into, schema) {
        Ok(()) => Ok(()),
        Err(NoMemory) => {
            into.truncate(before);
            Err(NoMemory)
        }
    }
}
