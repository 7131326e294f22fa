//! What the items of a manifest bring, one after the other.
ghost use Rattle.std.specs.Prelude.{◌≡◌, ◌<◌, ◌≤◌, ◌+◌, ◌++◌, ◌∷◌, [], length, map, sum_by, OnOk, IfOk, IfSome};
ghost use Rattle.std.specs.List.{list_all};
ghost use Rattle.dt_model.specs.declared.limits.TheConstants.{FILE_LIMIT, MOST_LINES, MOST_ORDER, MOST_TENSORS};
ghost use Rattle.dt_model.specs.Tensors.{dims_of, tensor_named};
ghost use Rattle.dt_model.specs.Verdicts.{tensor_number};
ghost use Rattle.dt_model.specs.Worlds.{updates_in};
ghost use Rattle.dyntensor.specs.Workload.{nothing, decls_of, is_schema, with_schema, with_tensor, with_lines, with_script, with_print, work_of, lines_left, updates_of, lines_in};
ghost use Rattle.dyntensor.specs.Gathering.{has_room};

use arrayvec::ArrayVec;
use dt_model::{
    Call, Coords, Decls, FILE_LIMIT, List, MOST_LINES, MOST_ORDER, Name, NoMemory, Pairs, Schema,
    Scripts, TensorDecl, Verdict, Verdicts, World,
};
use schema_check::Checked;
use std::alloc::Global;
use std::marker::Model;

/// The schemas, the tensors, the loaded lines of each, the scripts and the tensors to print, as far as the items of
/// a manifest have been read. Contracts see them as `Gathered`.
#[derive(Drop)]
pub struct Gathering {
    decls: Decls,
    base: Vec<Pairs>,
    scripts: Scripts,
    script_bytes: u64,
    printed: Vec<u32>,
}

impl Model for Gathering {
    ghost use Rattle.std.specs.Prelude.{◌≡◌, ◌∷◌, ◌≤◌, drop};
    ghost use Rattle.std.specs.Coded.{codes};
    ghost use Rattle.dt_model.specs.contracts.statements.Expr as expr;
    ghost use Rattle.dt_model.specs.declared.limits.TheConstants.{FILE_LIMIT};
    ghost use Rattle.dt_model.specs.Flat.{flat_schema};
    ghost use Rattle.dyntensor.specs.Workload.{Gathered};

    ghost Value = { Gathered };

    ghost coded = { Prim.hlevel (codes, expr.the_row.coded) };

    ghost view = { λ g. record { schemas = drop 1 g.decls.schemas; tensors = g.decls.tensors; base = g.base.items; scripts = g.scripts; script_bytes = g.script_bytes; printed = g.printed.items } };

    ghost invariant = { λ g. (g.decls.schemas ≡ flat_schema ∷ drop 1 g.decls.schemas) × (g.script_bytes ≤ FILE_LIMIT) };
}

/// The number of `flat` for each mode.
fn flat_formats(dims: &Coords) -> ArrayVec<u32, MOST_ORDER>
    requires few { length dims.now ≤ MOST_ORDER }
    ensures value { result.items ≡ map (λ d. 0) dims.now }
{
    let mut formats = ArrayVec::new();
    for _dim in dims.as_slice() {
        formats.push(0);
    }
    formats
}

/// How many lines tensors have together.
fn lines_in(base: &[Pairs]) -> u32
    requires few { lines_in base.now ≤ MOST_LINES }
    ensures value { result ≡ lines_in base.now }
{
    let mut sum = 0;
    for lines in base {
        sum += lines.len() as u32;
    }
    sum
}

/// How many updates a verdict's call has.
fn updates_in(verdict: &Verdict) -> u32
    requires few { updates_in verdict.now ≤ MOST_LINES }
    ensures value { result ≡ updates_in verdict.now }
{
    match verdict {
        Verdict::Accepted(Call::Batch(updates)) => updates.len() as u32,
        _ => 0,
    }
}

/// How many updates the calls of a script have together.
fn updates_of(script: &[Verdict]) -> u32
    requires few { sum_by updates_in script.now ≤ MOST_LINES }
    ensures value { result ≡ sum_by updates_in script.now }
{
    let mut sum = 0;
    for verdict in script {
        sum += updates_in(verdict);
    }
    sum
}

/// How many updates the calls of scripts have together.
fn updates_in_all(scripts: &[Verdicts]) -> u32
    requires few { updates_of scripts.now ≤ MOST_LINES }
    ensures value { result ≡ updates_of scripts.now }
{
    let mut sum = 0;
    for script in scripts {
        sum += updates_of(script.as_slice());
    }
    sum
}

/// Puts lines behind others. Where there were none, these are taken over as they are.
fn put_lines(lines: &mut Pairs, more: Pairs) -> Result<(), NoMemory>
    ensures ok { OnOk result (lines.new ≡ lines.old ++ more) }
{
    if lines.len() == 0 {
        *lines = more;
        return Ok(());
    }
    append_lines(lines, &more)
}

/// Puts copies of lines behind others.
fn append_lines(lines: &mut Pairs, more: &Pairs) -> Result<(), NoMemory>
    ensures ok { OnOk result (lines.new ≡ lines.old ++ more.now) }
{
    let mut rest = more.iter();
    while let Some(line) = rest.next() {
        lines.push(line)?;
    }
    Ok(())
}

impl Gathering {
    /// Nothing but the schema `flat`.
    pub fn new(alloc: Global) -> Result<Gathering, NoMemory>
        ensures value { IfOk result (λ g. g ≡ nothing) }
    {
        let mut schemas = List::new(alloc);
        schemas.push(Schema::flat())?;
        let tensors = List::new(alloc);
        Ok(Gathering {
            decls: Decls { schemas, tensors },
            base: Vec::new(alloc),
            scripts: List::new(alloc),
            script_bytes: 0,
            printed: Vec::new(alloc),
        })
    }

    /// The declarations.
    pub fn decls(&self) -> &Decls
        ensures value { result.now ≡ decls_of self.now }
    {
        &self.decls
    }

    /// Whether a schema has this name: `flat`, or one that was read. It takes time by the number of schemas.
    pub fn is_schema(&self, name: &Name) -> bool
        ensures value { result ≡ is_schema self.now name.now }
    {
        let schemas = self.decls.schemas.as_slice();
        schemas
            .iter()
            .any(|schema| schema.name.bytes() == name.bytes())
    }

    /// Whether each of some names is that of a schema.
    pub fn are_schemas(&self, names: &[Name]) -> bool
        ensures value { result ≡ list_all (is_schema self.now) names.now }
    {
        names.iter().all(|name| self.is_schema(name))
    }

    /// How many schemas were read.
    pub fn schema_count(&self) -> usize
        ensures value { result ≡ length self.now.schemas }
    {
        self.decls.schemas.len() - 1
    }

    /// Adds a schema.
    pub fn add_schema(&mut self, checked: &Checked) -> Result<(), NoMemory>
        ensures ok { OnOk result (self.new ≡ with_schema self.old checked.now) }
    {
        Ok(self.decls.schemas.push(checked.schema().copy())?)
    }

    /// How many lines may still be loaded, or updates accepted.
    pub fn lines_left(&self) -> u32
        requires few { lines_in self.now.base + updates_of self.now.scripts ≤ MOST_LINES }
        ensures value { result ≡ lines_left self.now }
    {
        let loaded = lines_in(self.base.as_slice());
        MOST_LINES - (loaded + updates_in_all(self.scripts.as_slice()))
    }

    /// How many bytes the scripts have together.
    pub fn script_bytes(&self) -> u64
        ensures value { result ≡ self.now.script_bytes }
        ensures small { result ≤ FILE_LIMIT }
    {
        self.script_bytes
    }

    /// Whether a script that was read from so many bytes may be added. It takes time by the scripts that were added.
    pub fn has_room(&self, bytes: usize, script: &[Verdict]) -> bool
        requires few { lines_in self.now.base + updates_of self.now.scripts ≤ MOST_LINES }
        requires script { sum_by updates_in script.now ≤ MOST_LINES }
        requires bytes { bytes ≤ FILE_LIMIT }
        ensures value { result ≡ has_room self.now bytes script.now }
    {
        self.script_bytes + bytes as u64 <= FILE_LIMIT && updates_of(script) <= self.lines_left()
    }

    /// The number of the tensor with this name, or 0.
    pub fn tensor_number(&self, name: &Name) -> u32
        requires few { length self.now.tensors ≤ MOST_TENSORS }
        ensures value { result ≡ tensor_number (decls_of self.now) name.now }
    {
        match self.decls.find_tensor(name) {
            Some(number) => number as u32,
            None => 0,
        }
    }

    /// The dimensions of a tensor.
    pub fn dims(&self, tensor: u32) -> &Coords
        requires declared { tensor < length self.now.tensors }
        ensures value { result.now ≡ dims_of (decls_of self.now) tensor }
    {
        &self.decls.tensors.as_slice()[tensor as usize].dims
    }

    /// Adds a tensor without lines.
    pub fn add_tensor(
        &mut self,
        alloc: Global,
        name: &Name,
        dims: &Coords,
        latches: u32,
    ) -> Result<(), NoMemory>
        requires few { length dims.now ≤ MOST_ORDER }
        ensures ok { OnOk result (self.new ≡ with_tensor self.old name.now dims.now latches) }
    {
        self.decls.tensors.push(TensorDecl {
            name: name.copy(),
            dims: dims.copy(),
            formats: flat_formats(dims),
            latches,
        })?;
        Ok(self.base.push(Pairs::new(alloc))?)
    }

    /// Puts lines behind those of a tensor.
    pub fn add_lines(&mut self, tensor: u32, lines: Pairs) -> Result<(), NoMemory>
        requires declared { tensor < length self.old.base }
        ensures ok { OnOk result (self.new ≡ with_lines self.old tensor lines) }
    {
        put_lines(&mut self.base[tensor as usize], lines)
    }

    /// Adds a script that was read from so many bytes.
    pub fn add_script(&mut self, bytes: usize, script: Verdicts) -> Result<(), NoMemory>
        requires short { self.old.script_bytes + bytes ≤ FILE_LIMIT }
        ensures ok { OnOk result (self.new ≡ with_script self.old bytes script) }
    {
        self.script_bytes += bytes as u64;
        Ok(self.scripts.push(script)?)
    }

    /// Adds the tensor with this name to those that are printed.
    pub fn add_print(&mut self, name: &Name) -> Result<(), NoMemory>
        requires few { length self.old.tensors ≤ MOST_TENSORS }
        ensures ok { OnOk result (self.new ≡ with_print self.old (tensor_number (decls_of self.old) name.now)) }
    {
        let tensor = self.tensor_number(name);
        Ok(self.printed.push(tensor)?)
    }

    /// The world, and the numbers of the tensors to print.
    pub fn into_work(self) -> (World, Vec<u32>)
        ensures value { record { world = result.0; printed = result.1.items } ≡ work_of self }
    {
        let world = World {
            decls: self.decls,
            base: List::from_vec(self.base),
            scripts: self.scripts,
        };
        (world, self.printed)
    }
}
