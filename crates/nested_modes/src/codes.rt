//! The codes of the modes.
ghost use Rattle.std.specs.Prelude.{◌≡◌, ◌++◌, ◌∷◌, [], length, OnOk, OnErr};

use dt_model::NoMemory;
use insert_gen::{InsertCode, derive_insert};
use iter_gen::{WalkCode, derive_walk};
use schema_check::Checked;
use std::alloc::Global;
use std::marker::Model;

/// The code of walks and the code of insertions of each mode, first mode first. Contracts see the schemas.
#[derive(Drop)]
pub struct ModeCodes {
    walks: Vec<WalkCode>,
    inserts: Vec<InsertCode>,
}

impl Model for ModeCodes {
    ghost use Rattle.std.specs.Prelude.{◌≡◌, List};
    ghost use Rattle.dt_model.specs.declared.declared_tensors.Schema.{Schema};

    ghost Value = { List Schema };

    ghost view = { λ c. c.walks.items };

    ghost invariant = { λ c. c.inserts.items ≡ c.walks.items };
}

impl ModeCodes {
    /// No modes. It takes no memory.
    pub fn new(alloc: Global) -> ModeCodes
        ensures value { result ≡ [] }
    {
        ModeCodes {
            walks: Vec::new(alloc),
            inserts: Vec::new(alloc),
        }
    }

    /// Puts a mode of this schema behind the others. When out of memory the modes are as before.
    pub fn push(&mut self, checked: &Checked) -> Result<(), NoMemory>
        ensures ok { OnOk result (self.new ≡ self.old ++ checked.now ∷ []) }
        ensures err { OnErr result (self.new ≡ self.old) }
    {
        if self.walks.push(derive_walk(checked)).is_err() {
            return Err(NoMemory);
        }
        if self.inserts.push(derive_insert(checked)).is_err() {
            self.walks.pop();
            return Err(NoMemory);
        }
        Ok(())
    }

    /// How many modes there are.
    pub fn len(&self) -> usize
        ensures value { result ≡ length self.now }
    {
        self.walks.len()
    }

    /// The codes of walks.
    pub fn walks(&self) -> &[WalkCode]
        ensures value { result.now ≡ self.now }
    {
        &self.walks
    }

    /// The codes of insertions.
    pub fn inserts(&self) -> &[InsertCode]
        ensures value { result.now ≡ self.now }
    {
        &self.inserts
    }
}
