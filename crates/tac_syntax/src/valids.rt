//! Functions that are known to be valid.

ghost use Rattle.std.specs.Prelude.{◌≡◌, ◌↔◌, ℕ, IsTrue, IfOk};
ghost use Rattle.pact_record.specs.FieldSets.{has_field};
ghost use Rattle.tac_syntax.specs.Bounded.{Names};
ghost use Rattle.tac_syntax.specs.Valid.{IsValid};

use crate::functions::Function;
use crate::named_fields::named_in;
use pact_record::{Fields, OutOfMemory};
use std::alloc::Global;
use std::marker::Model;

/// A function with the number of fields of its program. It keeps every rule.
#[derive(Debug, Drop)]
pub struct Valid {
    function: Function,
    fields: u32,
}

impl Model for Valid {
    ghost use Rattle.tac_syntax.specs.Valid.{IsValid, WithFields};
    ghost use Rattle.tac_syntax.specs.Sealed.{coded_with_fields};

    ghost Value = { WithFields };

    ghost coded = { coded_with_fields };

    ghost view = { λ v. record { function = v.function; fields = v.fields } };

    ghost invariant = { λ v. IsValid v.function v.fields };
}

impl Valid {
    pub fn seal(function: Function, fields: u32) -> Valid
        requires { IsValid function fields }
        ensures function { result.function ≡ function }
        ensures fields { result.fields ≡ fields }
    {
        Valid { function, fields }
    }

    pub fn function(&self) -> &Function
        ensures function { result.now ≡ self.now.function }
        ensures valid { IsValid self.now.function self.now.fields }
    {
        &self.function
    }

    /// The number of fields of the program.
    pub fn fields(&self) -> u32
        ensures { result ≡ self.now.fields }
    {
        self.fields
    }

    /// The fields that some `set` of the function names, or all fields if a `set` takes its field from a register.
    pub fn named(&self) -> Fields
        ensures { (k : ℕ) → IsTrue (has_field result k) ↔ Names self.now.fields k self.now.function.body }
    {
        named_in(&self.function.body, self.fields)
    }

    pub fn copy(&self, alloc: Global) -> Result<Valid, OutOfMemory>
        ensures { IfOk result (λ v. v ≡ self.now) }
    {
        Ok(Valid {
            function: self.function.copy(alloc)?,
            fields: self.fields,
        })
    }
}
