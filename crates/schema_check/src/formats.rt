//! The checked schemas of a world.
ghost use Rattle.std.specs.Prelude.{◌≡◌, [], ◌∷◌, ◌++◌, All, length, slice_get, OnOk, OnErr};
ghost use Rattle.std.specs.Option.{option_copied};
ghost use Rattle.schema_check.specs.Rules.{KeepsRules};

use crate::checking::Checked;
use dt_model::{List, NoMemory};
use std::alloc::Global;
use std::marker::Model;

/// Checked schemas by number, counted from 0. Contracts see a list of schemas, each of which keeps the rules.
#[derive(Debug, Drop)]
pub struct Formats {
    items: List<Checked>,
}

impl Model for Formats {
    ghost use Rattle.std.specs.Prelude.{List, All};
    ghost use Rattle.dt_model.specs.declared.declared_tensors.Schema.{Schema};
    ghost use Rattle.schema_check.specs.Rules.{KeepsRules};

    ghost Value = { List Schema };

    ghost view = { λ f. f.items };

    ghost invariant = { λ f. All KeepsRules f.items };
}

impl Formats {
    /// No schemas. It takes no memory until the first push.
    pub fn new(alloc: Global) -> Formats
        ensures value { result ≡ [] }
    {
        Formats {
            items: List::new(alloc),
        }
    }

    /// Puts a schema at the end, under the next number.
    pub fn push(&mut self, checked: Checked) -> Result<(), NoMemory>
        ensures ok { OnOk result (self.new ≡ self.old ++ checked ∷ []) }
        ensures err { OnErr result (self.new ≡ self.old) }
    {
        let _schema = checked.schema();
        match self.items.push(checked) {
            Ok(()) => Ok(()),
            Err(_back) => Err(NoMemory),
        }
    }

    /// How many schemas there are.
    pub fn len(&self) -> usize
        ensures value { result ≡ length self.now }
    {
        self.items.len()
    }

    /// The schema with this number. None exactly where the number isn't below the length.
    pub fn get(&self, number: u32) -> Option<&Checked>
        ensures value { option_copied result ≡ slice_get self.now number }
        ensures rules { All KeepsRules self.now }
    {
        self.items.get(number as usize)
    }
}
