//! What the lines of a manifest declare, for the lines that come later.
ghost use Rattle.std.specs.Prelude.{◌≡◌, ◌+◌, ◌<◌, ◌≤◌, ◌^◌, OnOk, IfOk, length, true};
ghost use Rattle.script_read.specs.Manifests.{nothing, declared_with, is_declared, is_in_order, is_known, is_new, is_within_limits, item_in_turn};

use crate::item_lines::ItemLine;
use crate::items::Item;
use dt_model::{List, MOST_LATCHES, MOST_PRINTS, MOST_SESSIONS, MOST_TENSORS, Name, NoMemory};
use std::alloc::Global;
use tns_io::FileCause;

/// What lines declare together.
#[derive(Debug, Drop)]
pub struct Declared {
    /// The tensors' names, in order.
    pub tensors: List<Name>,
    /// How many sessions there are.
    pub sessions: u32,
    /// How many `print` lines there are.
    pub prints: u32,
    /// How many latches there are in all.
    pub latches: u32,
}

impl Declared {
    /// Nothing.
    pub fn new(alloc: Global) -> Declared
        ensures value { result ≡ nothing }
    {
        Declared {
            tensors: List::new(alloc),
            sessions: 0,
            prints: 0,
            latches: 0,
        }
    }

    /// Whether a tensor has this name. It takes time by the number of tensors.
    fn is_declared(&self, name: &Name) -> bool
        ensures value { result ≡ is_declared self.now name.now }
    {
        let tensors = self.tensors.as_slice();
        tensors.iter().any(|tensor| name.bytes() == tensor.bytes())
    }

    /// Whether a `schema`, `tensor` or `load` line stands before each session.
    fn is_in_order(&self, line: &ItemLine) -> bool
        ensures value { result ≡ is_in_order self.now line.now }
    {
        match line {
            ItemLine::Whole(Item::Session { .. }) => true,
            ItemLine::Whole(Item::Print { .. }) => true,
            _ => self.sessions == 0,
        }
    }

    /// Whether the tensor of a `load` or `print` line is declared.
    fn is_known(&self, line: &ItemLine) -> bool
        ensures value { result ≡ is_known self.now line.now }
    {
        match line {
            ItemLine::Whole(Item::Load { name, .. }) => self.is_declared(name),
            ItemLine::Whole(Item::Print { name }) => self.is_declared(name),
            _ => true,
        }
    }

    /// Whether a tensor's name is new.
    fn is_new(&self, line: &ItemLine) -> bool
        ensures value { result ≡ is_new self.now line.now }
    {
        match line {
            ItemLine::Whole(Item::Tensor { name, .. }) => !self.is_declared(name),
            ItemLine::OutOfRange(name) => !self.is_declared(name),
            _ => true,
        }
    }

    /// Whether the limits hold with an item more.
    fn has_room(&self, item: &Item) -> bool
        requires limits { is_within_limits self.now ≡ true }
        ensures value { result ≡ is_within_limits (declared_with self.now item.now) }
    {
        match item {
            Item::Tensor { latches, .. } => {
                self.tensors.len() < MOST_TENSORS && *latches <= MOST_LATCHES - self.latches
            }
            Item::Session { .. } => self.sessions < MOST_SESSIONS,
            Item::Print { .. } => (self.prints as usize) < MOST_PRINTS,
            _ => true,
        }
    }

    /// The item of a line after these declarations, or the line's first fault.
    pub fn judge(&self, line: ItemLine) -> Result<Item, FileCause>
        requires limits { is_within_limits self.now ≡ true }
        ensures value { result ≡ item_in_turn self.now line }
        ensures limits { IfOk result (λ item. is_within_limits (declared_with self.now item) ≡ true) }
    {
        if !self.is_in_order(&line) {
            return Err(FileCause::Order);
        }
        if !self.is_known(&line) {
            return Err(FileCause::Name);
        }
        if !self.is_new(&line) {
            return Err(FileCause::Twice);
        }
        match line {
            ItemLine::OutOfRange(_) => Err(FileCause::Range),
            ItemLine::Whole(item) => {
                if self.has_room(&item) {
                    Ok(item)
                } else {
                    Err(FileCause::Limit)
                }
            }
        }
    }

    /// Adds what an item declares.
    pub fn add(&mut self, item: &Item) -> Result<(), NoMemory>
        requires limits { is_within_limits (declared_with self.old item.now) ≡ true }
        ensures ok { OnOk result (self.new ≡ declared_with self.old item.now) }
    {
        match item {
            Item::Tensor { name, latches, .. } => {
                self.tensors.push(name.copy())?;
                self.latches += *latches;
            }
            Item::Session { .. } => self.sessions += 1,
            Item::Print { .. } => self.prints += 1,
            _ => {}
        }
        Ok(())
    }
}
