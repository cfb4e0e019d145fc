//! Whether a function is valid, and if not why.

ghost use Rattle.std.specs.Prelude.{◌≡◌, ◌≤◌, IsOk, IfOk, IfErr};
ghost use Rattle.pact_record.specs.declared.records.TheConstants.{MAX_FIELDS};
ghost use Rattle.tac_syntax.specs.Valid.{IsValid, IsRefusal};

use crate::walks::first_break;
use tac_syntax::{Function, Rule, Valid};

// In the order of their codes.
const RULES: [Rule; 8] = [
    Rule::Registers,
    Rule::Operands,
    Rule::Fields,
    Rule::KeyPositions,
    Rule::NestedIfs,
    Rule::NestedLoops,
    Rule::Statements,
    Rule::Repeats,
];

/// Why a function isn't valid. The function is handed back.
#[derive(Debug, Drop)]
pub struct Refused {
    /// The number of the rule that is broken, from 1 to 8, as after the letter V.
    pub code: u32,
    /// The number of the first statement that breaks it, from 0 in text order.
    pub at: u32,
    pub function: Function,
}

/// The function, if it keeps every rule in a program with `fields` fields. If it breaks some, the least code is
/// reported.
pub fn validate(function: Function, fields: u32) -> Result<Valid, Refused>
    requires some_field { 1 ≤ fields }
    requires few_fields { fields ≤ MAX_FIELDS }
    ensures function { IfOk result (λ v. v.function ≡ function) }
    ensures fields { IfOk result (λ v. v.fields ≡ fields) }
    ensures valid { IsOk result → IsValid function fields }
    ensures complete { IsValid function fields → IsOk result }
    ensures refused { IfErr result (λ r. IsRefusal function fields r.code r.at) }
    ensures handed_back { IfErr result (λ r. r.function ≡ function) }
{
    for rule in &RULES {
        if let Some(at) = first_break(*rule, &function, fields) {
            return Err(Refused {
                code: rule.code(),
                at,
                function,
            });
        }
    }
    Ok(Valid::seal(function, fields))
}
