//! The first pass over a manifest.
ghost use Rattle.std.specs.Prelude.{◌≡◌, ◌≤◌, ◌<◌, true, length, IfOk};
ghost use Rattle.script_read.specs.Readings.{at_line};
ghost use Rattle.tns_io.specs.Faults.{fault_at, Tells};
ghost use Rattle.tns_io.specs.declared.faults.ReadFault.TheVariants.{At};
ghost use Rattle.script_read.specs.Manifests.{is_within_limits, declared_with, nothing, item_after, manifest_of};
ghost use Rattle.script_read.specs.Sound.{AreSound};
ghost use Rattle.dt_model.specs.declared.limits.TheConstants.{FILE_LIMIT};

use crate::declarations::Declared;
use crate::item_lines::read_item;
use crate::items::{Item, Manifest};
use crate::words::words_in;
use dt_model::NoMemory;
use dt_text::{content_lines, is_within_limit};
use std::alloc::Global;
use tns_io::{FileCause, FileFault, ReadFault};

/// A fault at a line.
pub fn fault_at(line: u32, cause: FileCause) -> ReadFault
    ensures value { result ≡ At (fault_at line cause) }
{
    ReadFault::At(FileFault { line, cause })
}

/// The item of a line after what earlier lines declare, or the line's first fault.
fn read_line(
    alloc: Global,
    declared: &Declared,
    number: u32,
    line: &[u8],
) -> Result<Item, ReadFault>
    requires limits { is_within_limits declared.now ≡ true }
    ensures reads { Tells (at_line number (item_after declared.now line.now)) result }
    ensures limits { IfOk result (λ item. is_within_limits (declared_with declared.now item) ≡ true) }
{
    if !is_within_limit(line) {
        return Err(fault_at(number, FileCause::Limit));
    }
    let Ok(words) = words_in(alloc, line, 0) else {
        return Err(ReadFault::NoMemory);
    };
    let Some(item_line) = read_item(words.as_slice()) else {
        return Err(fault_at(number, FileCause::Form));
    };
    match declared.judge(item_line) {
        Ok(item) => Ok(item),
        Err(cause) => Err(fault_at(number, cause)),
    }
}

/// The items of a manifest; or its first fault.
pub fn read_manifest(alloc: Global, text: &[u8]) -> Result<Manifest, ReadFault>
    requires few { length text.now ≤ FILE_LIMIT }
    ensures reads { Tells (manifest_of text.now) result }
    ensures sound { IfOk result (AreSound nothing) }
{
    let mut manifest = Manifest::new(alloc);
    let mut declared = Declared::new(alloc);
    let mut lines = content_lines(text);
    while let Some(line) = lines.next() {
        let item = read_line(alloc, &declared, line.number, line.line)?;
        if declared.add(&item).is_err() {
            return Err(ReadFault::NoMemory);
        }
        if manifest.push((line.number, item)).is_err() {
            return Err(ReadFault::NoMemory);
        }
    }
    Ok(manifest)
}
