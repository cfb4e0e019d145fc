//! Lists of exchanges.

ghost use Rattle.std.specs.Prelude.{◌≡◌};

use crate::legality::Condition;
use std::marker::Model;

/// Exchanges one after the other. If they lead from one plan to another, they are in the order in which they are made.
#[derive(Debug, Drop)]
pub struct ConditionList {
    held: Vec<Condition>,
}

impl Model for ConditionList {
    ghost use Rattle.std.specs.Prelude.{List};
    ghost use Rattle.std.specs.Coded.{coded_list};
    ghost use Rattle.reorder_pair.specs.contracts.legality.Condition as condition;
    ghost use Rattle.reorder_pair.specs.declared.legality.Condition.{Condition};

    ghost Value = { List Condition };

    ghost coded = { coded_list condition.the_row.coded };

    ghost view = { λ l. l.held.items };
}

impl ConditionList {
    pub fn of(conditions: Vec<Condition>) -> ConditionList
        ensures { result ≡ conditions.items }
    {
        ConditionList { held: conditions }
    }

    pub fn conditions(&self) -> &[Condition]
        ensures { result.now ≡ self.now }
    {
        &self.held
    }
}
