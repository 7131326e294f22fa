//! Schemas that keep the rules.
ghost use Rattle.std.specs.Prelude.{◌≡◌, Ok, IfOk, IfErr};
ghost use Rattle.dt_model.specs.Flat.{flat_schema};
ghost use Rattle.schema_check.specs.Breaches.{checked, IsFirstBreach};
ghost use Rattle.schema_check.specs.Rules.{KeepsRules};

use crate::breaches::{Breach, first_breach};
use dt_model::Schema;
use std::marker::Model;

/// A schema that keeps rules 1 to 7. Contracts see the schema.
#[derive(Debug, Drop)]
pub struct Checked {
    schema: Schema,
}

impl Model for Checked {
    ghost use Rattle.dt_model.specs.declared.declared_tensors.Schema.{Schema};
    ghost use Rattle.schema_check.specs.Rules.{KeepsRules};

    ghost Value = { Schema };

    ghost view = { λ c. c.schema };

    ghost invariant = { λ c. KeepsRules c.schema };
}

impl Checked {
    /// The schema.
    pub fn schema(&self) -> &Schema
        ensures value { result.now ≡ self.now }
        ensures rules { KeepsRules self.now }
    {
        &self.schema
    }
}

/// A copy of the schema, or the first rule that it breaks. It takes no memory.
pub fn check(schema: &Schema) -> Result<Checked, Breach>
    ensures value { result ≡ checked schema.now }
    ensures ok { IfOk result KeepsRules }
    ensures only { KeepsRules schema.now → result ≡ Ok schema.now }
    ensures err { IfErr result (IsFirstBreach schema.now) }
{
    match first_breach(schema) {
        Some(breach) => Err(breach),
        None => Ok(Checked {
            schema: schema.copy(),
        }),
    }
}

/// The schema `flat`, which no text declares.
pub fn flat() -> Checked
    ensures value { result ≡ flat_schema }
{
    Checked {
        schema: Schema::flat(),
    }
}
