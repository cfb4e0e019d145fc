//! What a program of eight fields has.

use crate::programs::program;
use pact_operators::{Plan, attrs, context, functions_of};
use pact_record::Fields;
use program_text::read_program;
use std::test::Fail;
use tac_syntax::Context;

const PAIR: &str = "pact 1
fields 8
function f map
  set r0 4 v0
end
function g match
  set r0 6 v0
end
function h cross
  set r0 5 v0
end
source d d.csv text:0
map m f d
source e e.csv text:1
match j g m e by 4 = 1
sink j 0
";

#[test]
fn names_become_numbers(rt: HostRuntime) -> Result<(), Fail> {
    let alloc = rt.alloc();
    let draft = read_program(alloc, PAIR.as_bytes())?;
    assert!(rt; draft.fields() == 8 && draft.decls().len() == 8);
    assert!(rt; functions_of(&draft).len() == 3);
    let program = program(alloc, PAIR.as_bytes())?;
    assert!(rt; program.fields() == 8 && program.functions().len() == 3);
    assert!(rt; program.sink() == [0].as_slice() && program.ops().len() == 4);
    let left = Plan::over(1, &Plan::leaf(0));
    assert!(rt; *program.plan() == Plan::pair(3, &left, &Plan::leaf(2)));
    let fields = Fields::empty().with(0).with(1).with(4).with(6);
    let plan = program.plan();
    assert!(rt; plan.has(3) && attrs(&program, plan, 3) == fields);
    assert!(rt; plan.has(3) && is_context(context(&program, plan, 3), [&[0, 4], &[1], &[4], &[1]]));
    assert!(rt; plan.has(1) && is_context(context(&program, plan, 1), [&[0], &[], &[], &[]]));
    Ok(())
}

// Whether a context has these fields and keys of either side.
fn is_context(found: Context, wanted: [&[u32]; 4]) -> bool {
    let [left, right, left_keys, right_keys] = wanted;
    has(found.left, left)
        && has(found.right, right)
        && has(found.left_keys.fields(), left_keys)
        && has(found.right_keys.fields(), right_keys)
}

fn has(set: Fields, wanted: &[u32]) -> bool {
    (0..8).all(|field| set.has(field) == wanted.contains(&field))
}
