//! The findings about a CoGroup in any context, composed from those in four.

ghost use Rattle.std.specs.Prelude.{◌≡◌, ◌≤◌, ◌↔◌, ℕ, IsTrue};
ghost use Rattle.pact_record.specs.FieldSets.{has_field};
ghost use Rattle.pact_record.specs.declared.records.TheConstants.{MAX_FIELDS};
ghost use Rattle.tac_syntax.specs.declared.declarations.OpKind.TheVariants.{Source};
ghost use Rattle.pact_operators.specs.PlanOps.{kind_at};
ghost use Rattle.reorder_pair.specs.Corners as specs;
ghost use Rattle.reorder_pair.specs.Corners.{AreCorners, IsComposed, IsCornered};
ghost use Rattle.reorder_pair.specs.Places.{IsFoundFor, IsOperatorIn};

use crate::finding::Found;
use pact_operators::Program;
use pact_record::Fields;
use tac_flow::{Sets, takes_numbers};
use tac_syntax::{Context, Kind, Valid};

/// The findings about an operator in four contexts: neither input may hold a field, only the left one may hold all,
/// only the right one, or both.
#[derive(Clone, Copy)]
pub(crate) struct Corners {
    pub(crate) neither: Found,
    pub(crate) left: Found,
    pub(crate) right: Found,
    pub(crate) both: Found,
}

// Whether the function is a CoGroup's and some statement takes a field's number from a register.
fn has_corners(f: &Valid) -> bool
    ensures { result ≡ specs.has_corners f.now }
{
    let function = f.function();
    match function.kind {
        Kind::CoGroup => takes_numbers(&function.body),
        _ => false,
    }
}

/// Whether the operator calls such a function.
pub(crate) fn is_cornered(program: &Program, at: u32) -> bool
    requires { kind_at program.now.ops at ≡ Source → ⊥ }
    ensures { IsTrue result ↔ IsCornered program.now at }
{
    has_corners(program.function_at(at))
}

// All fields below the bound, or none.
fn whole(fields: u32, all: bool) -> Fields
    requires { fields ≤ MAX_FIELDS }
    ensures { result ≡ specs.whole fields all }
{
    if all {
        Fields::all(fields)
    } else {
        Fields::empty()
    }
}

/// The context with the same keys in which each input may hold all fields, or none.
pub(crate) fn corner(fields: u32, left: bool, right: bool, context: &Context) -> Context
    requires { fields ≤ MAX_FIELDS }
    ensures { result ≡ specs.corner fields left right context.now }
{
    Context {
        left: whole(fields, left),
        right: whole(fields, right),
        left_keys: context.left_keys,
        right_keys: context.right_keys,
    }
}

// At each field this takes the set of the corner that agrees with the context on whether each input may hold the field.
fn chosen(context: &Context, neither: Fields, left: Fields, right: Fields, both: Fields) -> Fields
    ensures { (k : ℕ) → has_field result k ≡ specs.chosen (has_field context.now.left k) (has_field context.now.right k) (has_field neither k) (has_field left k) (has_field right k) (has_field both k) }
{
    let none = neither.minus(context.left.union(context.right));
    let one = left.meet(context.left.minus(context.right));
    let other = right.meet(context.right.minus(context.left));
    let two = both.meet(context.left.meet(context.right));
    none.union(one).union(other.union(two))
}

fn composed(context: &Context, corners: &Corners) -> Found
    ensures { IsComposed context.now corners.now result }
{
    let Corners {
        neither,
        left,
        right,
        both,
    } = corners;
    let sets = Sets {
        reads: chosen(
            context,
            neither.sets.reads,
            left.sets.reads,
            right.sets.reads,
            both.sets.reads,
        ),
        writes: chosen(
            context,
            neither.sets.writes,
            left.sets.writes,
            right.sets.writes,
            both.sets.writes,
        ),
        control: chosen(
            context,
            neither.sets.control,
            left.sets.control,
            right.sets.control,
            both.sets.control,
        ),
        touched: chosen(
            context,
            neither.sets.touched,
            left.sets.touched,
            right.sets.touched,
            both.sets.touched,
        ),
        anchor_left: neither.sets.anchor_left,
        anchor_right: neither.sets.anchor_right,
    };
    Found {
        sets,
        lo: neither.lo,
        hi: neither.hi,
    }
}

/// The findings about an operator in a context, from those in its corners.
pub(crate) fn from_corners(
    program: &Program,
    at: u32,
    context: &Context,
    corners: &Corners,
) -> Found
    requires operator { IsOperatorIn program.now at context.now }
    requires cornered { IsCornered program.now at }
    requires corners { AreCorners program.now at context.now corners.now }
    ensures { IsFoundFor program.now at context.now result }
{
    // `function` makes it known that the function follows every rule.
    let _function = program.function_at(at).function();
    composed(context, corners)
}
