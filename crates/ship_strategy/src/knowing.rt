//! What is known of the operators of a program in a plan.

ghost use Rattle.std.specs.Prelude.{◌≡◌, ◌<◌, ◌↔◌, ◌||◌, ℕ, true, slice_get};
ghost use Rattle.pact_record.specs.FieldSets.{has_field};
ghost use Rattle.tac_syntax.specs.Contexts.{Has, IsBelow, IsContextOf};
ghost use Rattle.tac_syntax.specs.declared.declarations.OpKind.TheVariants.{Source};
ghost use Rattle.tac_flow.specs.Known.{no_fields};
ghost use Rattle.tac_flow.specs.Views.{found_of};
ghost use Rattle.plan_trees.specs.Plans.{has, node_limit, subtree_of};
ghost use Rattle.pact_operators.specs.PlanOps.{kind_at, left_keys_in, right_keys_in};
ghost use Rattle.pact_operators.specs.Programs.{HasLeftAttribute, HasRightAttribute};
ghost use Rattle.ship_strategy.specs.PlanFacts as known;
ghost use Rattle.ship_strategy.specs.PlanFacts.{attribute, facts_of, filled, no_sets, owned, sets_at};
ghost use Rattle.ship_strategy.specs.EarlierFindings.{AreTrueFindings};
ghost use Rattle.ship_strategy.specs.Views.{facts_in, known_of, put};

use crate::earlier_findings::EarlierFindings;
use crate::tables::{OpFacts, Table};
use pact_operators::{OpKind, Parts, Plan, Program, attrs};
use pact_record::{Fields, Keys};
use tac_flow::Sets;
use tac_syntax::Context;

// A source's columns, or the fields that an operator's function names.
fn own_fields(program: &Program, at: u32) -> Fields
    requires { at < node_limit }
    ensures own { has_field result ≡ owned program.now.functions program.now.ops at }
    ensures below { IsBelow program.now.fields (has_field result) }
{
    // `fields` makes it known that the program's attributes are below its number of fields
    let _fields = program.fields();
    attrs(program, &Plan::leaf(at), at)
}

/// The sets of a source, which has no function.
pub fn nothing_found() -> Sets
    ensures { found_of result ≡ no_sets }
{
    Sets {
        reads: Fields::empty(),
        writes: Fields::empty(),
        control: Fields::empty(),
        touched: Fields::empty(),
        anchor_left: false,
        anchor_right: false,
    }
}

// The findings about an operator's function in a context.
fn sets_for(program: &Program, at: u32, context: &Context) -> Sets
    requires operator { kind_at program.now.ops at ≡ Source → ⊥ }
    requires fields { IsContextOf program.now.fields context.now }
    requires left_keys { context.now.left_keys ≡ left_keys_in (slice_get program.now.ops at) }
    requires right_keys { context.now.right_keys ≡ right_keys_in (slice_get program.now.ops at) }
    ensures { found_of result ≡ sets_at program.now at (has_field context.now.left) (has_field context.now.right) }
{
    // `fields` makes it known that the program's functions are valid
    let _fields = program.fields();
    tac_flow::sets(program.function_at(at), context)
}

// The findings about a source or an operator of this kind.
fn sets_unless_source(program: &Program, at: u32, kind: OpKind, context: &Context) -> Sets
    requires kind { kind ≡ kind_at program.now.ops at }
    requires fields { (kind_at program.now.ops at ≡ Source → ⊥) → IsContextOf program.now.fields context.now }
    requires left_keys { context.now.left_keys ≡ left_keys_in (slice_get program.now.ops at) }
    requires right_keys { context.now.right_keys ≡ right_keys_in (slice_get program.now.ops at) }
    ensures { found_of result ≡ sets_at program.now at (has_field context.now.left) (has_field context.now.right) }
{
    match kind {
        OpKind::Source => nothing_found(),
        _ => sets_for(program, at, context),
    }
}

fn kind_and_keys(program: &Program, at: u32) -> (OpKind, Keys, Keys)
    ensures kind { result.0 ≡ kind_at program.now.ops at }
    ensures left_keys { result.1 ≡ left_keys_in (slice_get program.now.ops at) }
    ensures right_keys { result.2 ≡ right_keys_in (slice_get program.now.ops at) }
{
    match program.ops().get(at as usize) {
        Some(op) => (op.kind, op.left_keys, op.right_keys),
        None => (OpKind::Source, Keys::new(), Keys::new()),
    }
}

// The facts of the source or operator with this number, if its inputs have these attributes.
fn facts_for(program: &Program, at: u32, left: Fields, right: Fields) -> OpFacts
    requires left { IsBelow program.now.fields (has_field left) }
    requires right { IsBelow program.now.fields (has_field right) }
    ensures { known_of result ≡ known.facts_for program.now at (has_field left) (has_field right) }
{
    let (kind, left_keys, right_keys) = kind_and_keys(program, at);
    let context = Context {
        left,
        right,
        left_keys,
        right_keys,
    };
    // `fields` makes it known that the program's keys are below its number of fields
    let _fields = program.fields();
    let found = sets_unless_source(program, at, kind, &context);
    OpFacts::of(kind, &context, &found)
}

// What `facts_for` returns, from earlier findings if there are any in this context.
fn facts_after(
    program: &Program,
    at: u32,
    left: Fields,
    right: Fields,
    seen: &EarlierFindings,
) -> OpFacts
    requires left { IsBelow program.now.fields (has_field left) }
    requires right { IsBelow program.now.fields (has_field right) }
    requires seen { AreTrueFindings program.now seen.now.tables }
    ensures { known_of result ≡ known.facts_for program.now at (has_field left) (has_field right) }
{
    match seen.row(at, left, right) {
        Some(x) => x,
        None => facts_for(program, at, left, right),
    }
}

// Enters into the table what is known of a tree's root, by the attributes of its inputs, and returns the tree's
// attributes.
fn fill_root(
    program: &Program,
    at: u32,
    left: Fields,
    right: Fields,
    seen: &EarlierFindings,
    table: &mut Table,
) -> Fields
    requires at { at < node_limit }
    requires seen { AreTrueFindings program.now seen.now.tables }
    requires left { IsBelow program.now.fields (has_field left) }
    requires right { IsBelow program.now.fields (has_field right) }
    ensures attributes { (k : ℕ) → has_field result k ≡ (owned program.now.functions program.now.ops at k || (has_field left k || has_field right k)) }
    ensures below { IsBelow program.now.fields (has_field result) }
    ensures table { facts_in table.new ≡ put at (known.facts_for program.now at (has_field left) (has_field right)) (facts_in table.old) }
{
    table.set(at, facts_after(program, at, left, right, seen));
    own_fields(program, at).union(left.union(right))
}

// Enters what is known of each source and operator of the tree, and returns its attributes.
fn fill(program: &Program, tree: &Plan, seen: &EarlierFindings, table: &mut Table) -> Fields
    requires seen { AreTrueFindings program.now seen.now.tables }
    ensures attributes { has_field result ≡ attribute program.now tree.now }
    ensures below { IsBelow program.now.fields (has_field result) }
    ensures table { facts_in table.new ≡ filled program.now tree.now (facts_in table.old) }
{
    match tree.parts() {
        Parts::Alone { at } => {
            fill_root(program, at, Fields::empty(), Fields::empty(), seen, table)
        }
        Parts::OverOne { at, input } => {
            let below = fill(program, &input, seen, table);
            fill_root(program, at, below, Fields::empty(), seen, table)
        }
        Parts::OverTwo { at, left, right } => {
            let on_right = fill(program, &right, seen, table);
            let on_left = fill(program, &left, seen, table);
            fill_root(program, at, on_left, on_right, seen, table)
        }
    }
}

/// What is known of each source and operator of the plan; `seen` remembers it. A function is analysed only if no plan
/// that is still remembered had its operator in the same context.
pub fn known_after(program: &Program, plan: &Plan, seen: &mut EarlierFindings) -> Table
    requires seen { AreTrueFindings program.now seen.old.tables }
    ensures value { facts_in result ≡ facts_of program.now plan.now }
    ensures left { (n k : ℕ) → has n plan.now ≡ true → Has (facts_in result n).left k ↔ HasLeftAttribute program.now.functions program.now.ops (subtree_of n plan.now) k }
    ensures right { (n k : ℕ) → has n plan.now ≡ true → Has (facts_in result n).right k ↔ HasRightAttribute program.now.functions program.now.ops (subtree_of n plan.now) k }
    ensures seen { AreTrueFindings program.now seen.new.tables }
{
    let mut table = Table::blank();
    fill(program, plan, seen, &mut table);
    seen.keep(&table);
    table
}

/// What is known of each source and operator of the plan. Each function is analysed once.
pub fn known(program: &Program, plan: &Plan) -> Table
    ensures value { facts_in result ≡ facts_of program.now plan.now }
    ensures left { (n k : ℕ) → has n plan.now ≡ true → Has (facts_in result n).left k ↔ HasLeftAttribute program.now.functions program.now.ops (subtree_of n plan.now) k }
    ensures right { (n k : ℕ) → has n plan.now ≡ true → Has (facts_in result n).right k ↔ HasRightAttribute program.now.functions program.now.ops (subtree_of n plan.now) k }
{
    let mut seen = EarlierFindings::nothing();
    known_after(program, plan, &mut seen)
}
