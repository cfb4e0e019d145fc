//! Exchanges there and back, by the calls for every rule and by those for rules that make no group. The command `check`
//! shows what is legal, and why another exchange isn't.

ghost use Rattle.std.specs.Prelude.{IfSome};
ghost use Rattle.pact_operators.specs.Programs.{IsPlanOf};
ghost use Rattle.reorder_pair.specs.Rules.{IsPairRule};

use crate::programs::program;
use pact_operators::{Plan, Program};
use reorder_group::{apply, legal};
use reorder_pair::{Rule, apply_pair, legal_pair};
use std::test::Fail;

// The number of `h` is 4, and that of `g` 3.
const TWO_MATCHES: &str = "pact 1
fields 6
source s s.csv int:0 int:1
source t t.csv int:2 int:3
source u u.csv int:4 int:5
function jn match
  r0 = copy join
  emit r0
end
match g jn s t by 0 = 2
match h jn g u by 3 = 4
sink h 0 1 2 3 4 5
";

/// The plan after an exchange, if the exchange is legal.
pub fn exchanged(program: &Program, plan: &Plan, at: u32, rule: Rule) -> Option<Plan>
    requires { IsPlanOf program.now.functions program.now.ops plan.now }
    ensures { IfSome result (IsPlanOf program.now.functions program.now.ops) }
{
    match legal(program, plan, at, rule) {
        Ok(_condition) => Some(apply(program, plan, at, rule)),
        Err(_) => None,
    }
}

// The plan after an exchange by a rule that makes no group, if the exchange is legal.
fn pair_exchanged(program: &Program, plan: &Plan, at: u32, rule: Rule) -> Option<Plan>
    requires plan { IsPlanOf program.now.functions program.now.ops plan.now }
    requires rule { IsPairRule rule }
{
    match legal_pair(program, plan, at, rule) {
        Ok(_condition) => Some(apply_pair(program, plan, at, rule)),
        Err(_) => None,
    }
}

#[test]
fn matches_rotate_there_and_back(rt: HostRuntime) -> Result<(), Fail> {
    let program = program(rt.alloc(), TWO_MATCHES.as_bytes())?;
    let plan = program.plan();
    let Some(after) = exchanged(&program, plan, 4, Rule::Rotate) else {
        return Err(Fail::new("not legal"));
    };
    assert!(rt; after != *plan && after.root() == 3);
    assert!(rt; exchanged(&program, &after, 3, Rule::RotateUp) == Some(*plan));
    assert!(rt; pair_exchanged(&program, plan, 4, Rule::Rotate) == Some(after));
    assert!(rt; pair_exchanged(&program, plan, 4, Rule::RotateUp).is_none());
    Ok(())
}
