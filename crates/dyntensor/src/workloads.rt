//! Reads what a manifest asks for: its items, and the files that they name, in the order of its lines.
ghost use Rattle.std.specs.Prelude.{◌≡◌, ◌≤◌, ◌<◌, [], length, IfOk, IfErr, OnOk, IfSome, Ok, None, Some};
ghost use Rattle.std.specs.List.{list_all};
ghost use Rattle.dt_model.specs.Verdicts.{tensor_number};
ghost use Rattle.dt_model.specs.declared.limits.TheConstants.{FILE_LIMIT, MOST_ORDER};
ghost use Rattle.tns_io.specs.Faults.{fault_at};
ghost use Rattle.script_read.specs.Sound.{AreSound};
ghost use Rattle.script_read.specs.Manifests.{nothing as nothing_declared};
ghost use Rattle.dyntensor.specs.Reached.{file_of};
ghost use Rattle.dyntensor.specs.Workload.{text_in, located, is_flat, decls_of, taken, all_taken, with_schemas, declared_tensor, loaded, with_session, with_item, with_items, items_in, workload, nothing, work_of};
ghost use Rattle.dyntensor.specs.Readings.{HoldsOf, IsQuiet, IsFaultStop, IsFileStop, IsStop};
ghost use Rattle.dyntensor.specs.Gathering.{CanAdd, IsRunnable};

use crate::drafts::add_run;
use crate::faults::{Cause, Fault, fault_in};
use crate::fetching::{fetch, fetch_schemas};
use crate::gathering::Gathering;
use crate::scripts::add_session;
use crate::stops::{Stop, stop_in};
use dt_model::{Coords, MOST_SCHEMAS, Name, Schema, World};
use dt_outside::Shelf;
use schema_check::check;
use script_read::{FileName, Item, Manifest, read_manifest};
use std::alloc::Global;
use std::thread::Threads;
use tns_io::{FileCause, FileFault, read_tns};

/// The name of the schema `flat`.
const FLAT: &[u8] = b"flat";

/// Reads the items of a manifest.
fn read_items<S: Shelf>(alloc: Global, shelf: &mut S, manifest: &FileName) -> Result<Manifest, Stop>
    ensures quiet { OnOk result (IsQuiet (S.state shelf.old) (S.state shelf.new)) }
    ensures items { IfOk result (λ items. HoldsOf (S.state shelf.old).files (λ files. items_in files manifest.now ≡ Ok items)) }
    ensures sound { IfOk result (AreSound nothing_declared) }
    ensures files { (S.state shelf.new).files ≡ (S.state shelf.old).files }
    ensures stop { IfErr result (IsFileStop (S.state shelf.old) (S.state shelf.new) (Some manifest.now) (λ files. items_in files manifest.now)) }
{
    let text = fetch(alloc, shelf, manifest)?;
    match read_manifest(alloc, text.as_slice()) {
        Ok(items) => Ok(items),
        Err(fault) => Err(stop_in(manifest, fault)),
    }
}

/// Reads the lines of a file into a tensor.
fn load<S: Shelf>(
    alloc: Global,
    shelf: &mut S,
    gathering: &mut Gathering,
    name: &Name,
    file: &FileName,
) -> Result<(), Stop>
    requires runnable { IsRunnable (work_of gathering.old).world gathering.old.printed }
    requires declared { tensor_number (decls_of gathering.old) name.now < length gathering.old.tensors }
    ensures quiet { OnOk result (IsQuiet (S.state shelf.old) (S.state shelf.new)) }
    ensures lines { OnOk result (HoldsOf (S.state shelf.old).files (λ files. loaded files gathering.old name.now file.now ≡ Ok gathering.new)) }
    ensures files { (S.state shelf.new).files ≡ (S.state shelf.old).files }
    ensures stop { IfErr result (IsFileStop (S.state shelf.old) (S.state shelf.new) (Some file.now) (λ files. loaded files gathering.old name.now file.now)) }
{
    let text = fetch(alloc, shelf, file)?;
    let tensor = gathering.tensor_number(name);
    let most = gathering.lines_left();
    let read = read_tns(alloc, text.as_slice(), gathering.dims(tensor), most);
    drop(text);
    match read {
        Ok(lines) => Ok(gathering.add_lines(tensor, lines)?),
        Err(fault) => Err(stop_in(file, fault)),
    }
}

/// Adds a schema of a line's file, where its name is new, it is one of the first 16, and it keeps the rules.
fn take_schema(
    gathering: &mut Gathering,
    manifest: &FileName,
    line: u32,
    schema: &Schema,
) -> Result<(), Stop>
    ensures ok { OnOk result (taken manifest.now line gathering.old schema.now ≡ Ok gathering.new) }
    ensures stop { IfErr result (IsFaultStop (taken manifest.now line gathering.old schema.now)) }
{
    if gathering.is_schema(&schema.name) {
        let cause = FileCause::Twice;
        return Err(Stop::Refused(fault_in(manifest, FileFault { line, cause })));
    }
    if gathering.schema_count() >= MOST_SCHEMAS {
        let cause = FileCause::Limit;
        return Err(Stop::Refused(fault_in(manifest, FileFault { line, cause })));
    }
    match check(schema) {
        Ok(checked) => Ok(gathering.add_schema(&checked)?),
        Err(breach) => Err(Stop::Refused(Fault {
            file: manifest.copy(),
            line,
            cause: Cause::Breach(breach),
        })),
    }
}

/// Adds the schemas of a line's file, one after the other.
fn take_schemas(
    gathering: &mut Gathering,
    manifest: &FileName,
    line: u32,
    schemas: &[Schema],
) -> Result<(), Stop>
    ensures ok { OnOk result (all_taken manifest.now line gathering.old schemas.now ≡ Ok gathering.new) }
    ensures stop { IfErr result (IsFaultStop (all_taken manifest.now line gathering.old schemas.now)) }
{
    match schemas {
        [] => Ok(()),
        [schema, rest @ ..] => {
            take_schema(gathering, manifest, line, schema)?;
            take_schemas(gathering, manifest, line, rest)
        }
    }
}

/// Reads the schemas of a file into what was gathered.
fn add_schemas<S: Shelf>(
    alloc: Global,
    shelf: &mut S,
    manifest: &FileName,
    gathering: &mut Gathering,
    line: u32,
    file: &FileName,
) -> Result<(), Stop>
    ensures quiet { OnOk result (IsQuiet (S.state shelf.old) (S.state shelf.new)) }
    ensures schemas { OnOk result (HoldsOf (S.state shelf.old).files (λ files. with_schemas files manifest.now gathering.old line file.now ≡ Ok gathering.new)) }
    ensures files { (S.state shelf.new).files ≡ (S.state shelf.old).files }
    ensures stop { IfErr result (IsFileStop (S.state shelf.old) (S.state shelf.new) (Some file.now) (λ files. with_schemas files manifest.now gathering.old line file.now)) }
{
    let schemas = fetch_schemas(alloc, shelf, file)?;
    take_schemas(gathering, manifest, line, schemas.as_slice())
}

/// Whether each of some schemas is `flat`.
fn are_flat(names: &[Name]) -> bool
    ensures value { result ≡ list_all is_flat names.now }
{
    names.iter().all(|name| name.bytes() == FLAT)
}

/// Adds a tensor, where each of its schemas is one and all are flat.
fn declare_tensor(
    alloc: Global,
    gathering: &mut Gathering,
    manifest: &FileName,
    line: u32,
    name: &Name,
    dims: &Coords,
    formats: &[Name],
    latches: u32,
) -> Result<(), Stop>
    requires few { length dims.now ≤ MOST_ORDER }
    ensures ok { OnOk result (declared_tensor manifest.now gathering.old line name.now dims.now formats.now latches ≡ Ok gathering.new) }
    ensures stop { IfErr result (IsFaultStop (declared_tensor manifest.now gathering.old line name.now dims.now formats.now latches)) }
{
    if !gathering.are_schemas(formats) {
        let cause = FileCause::Name;
        return Err(Stop::Refused(fault_in(manifest, FileFault { line, cause })));
    }
    if !are_flat(formats) {
        let cause = FileCause::NotBuilt;
        return Err(Stop::Refused(fault_in(manifest, FileFault { line, cause })));
    }
    Ok(gathering.add_tensor(alloc, name, dims, latches)?)
}

/// Reads what an item of the manifest brings.
fn add_item<S: Shelf>(
    alloc: Global,
    shelf: &mut S,
    manifest: &FileName,
    gathering: &mut Gathering,
    line: u32,
    item: &Item,
) -> Result<(), Stop>
    requires may_follow { CanAdd gathering.old item.now }
    ensures quiet { OnOk result (IsQuiet (S.state shelf.old) (S.state shelf.new)) }
    ensures item { OnOk result (HoldsOf (S.state shelf.old).files (λ files. with_item files manifest.now gathering.old line item.now ≡ Ok gathering.new)) }
    ensures files { (S.state shelf.new).files ≡ (S.state shelf.old).files }
    ensures stop { IfErr result (IsFileStop (S.state shelf.old) (S.state shelf.new) (file_of item.now) (λ files. with_item files manifest.now gathering.old line item.now)) }
{
    match item {
        Item::Schema { file } => add_schemas(alloc, shelf, manifest, gathering, line, file),
        Item::Tensor {
            name,
            dims,
            formats,
            latches,
        } => declare_tensor(
            alloc,
            gathering,
            manifest,
            line,
            name,
            dims,
            formats.as_slice(),
            *latches,
        ),
        Item::Load { name, file } => load(alloc, shelf, gathering, name, file),
        Item::Session { file } => add_session(alloc, shelf, gathering, file),
        Item::Print { name } => Ok(gathering.add_print(name)?),
    }
}

/// Reads what the items of a manifest bring, in their order. The scripts of sessions that follow one another are read at once.
fn add_items<R: Threads + Sync, S: Shelf>(
    rt: &R,
    alloc: Global,
    shelf: &mut S,
    manifest: &FileName,
    items: &Manifest,
) -> Result<Gathering, Stop>
    requires sound { AreSound nothing_declared items.now }
    requires items { HoldsOf (S.state shelf.old).files (λ files. items_in files manifest.now ≡ Ok items.now) }
    ensures quiet { OnOk result (IsQuiet (S.state shelf.old) (S.state shelf.new)) }
    ensures gathered { IfOk result (λ g. IfSome (S.state shelf.old).files (λ files. with_items files manifest.now nothing items.now ≡ Ok g)) }
    ensures runnable { IfOk result (λ g. IsRunnable (work_of g).world g.printed) }
    ensures files { (S.state shelf.new).files ≡ (S.state shelf.old).files }
    ensures stop { IfErr result (IsStop (S.state shelf.old) (S.state shelf.new) manifest.now (λ files. with_items files manifest.now nothing items.now)) }
{
    let mut gathering = Gathering::new(alloc)?;
    let mut rest = items.as_slice();
    while let Some((item, more)) = rest.split_first() {
        let added = add_run(rt, alloc, shelf, &mut gathering, rest)?;
        if added == 0 {
            add_item(alloc, shelf, manifest, &mut gathering, item.0, &item.1)?;
            rest = more;
        } else {
            rest = &rest[added..];
        }
    }
    Ok(gathering)
}

/// Reads the workload of a manifest: a world, and the numbers of the tensors to print after its run.
pub fn read_workload<R: Threads + Sync, S: Shelf>(
    rt: &R,
    alloc: Global,
    shelf: &mut S,
    manifest: &FileName,
) -> Result<(World, Vec<u32>), Stop>
    ensures work { IfOk result (λ w. IfSome (S.state shelf.old).files (λ files. workload files manifest.now ≡ Ok (record { world = w.0; printed = w.1.items }))) }
    ensures runnable { IfOk result (λ w. IsRunnable w.0 w.1.items) }
    ensures files { (S.state shelf.new).files ≡ (S.state shelf.old).files }
    ensures stop { IfErr result (IsStop (S.state shelf.old) (S.state shelf.new) manifest.now (λ files. workload files manifest.now)) }
{
    let items = read_items(alloc, shelf, manifest)?;
    let gathering = add_items(rt, alloc, shelf, manifest, &items)?;
    Ok(gathering.into_work())
}
