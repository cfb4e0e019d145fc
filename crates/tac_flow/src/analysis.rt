//! The analysis of a function.

ghost use Rattle.std.specs.Prelude.{◌≡◌, ◌≤◌, ◌↔◌, ℕ, false};
ghost use Rattle.std.specs.List.{AllByRecursion};
ghost use Rattle.pact_record.specs.declared.records.TheConstants.{MAX_FIELDS};
ghost use Rattle.pact_record.specs.FieldSets.{has_field};
ghost use Rattle.tac_syntax.specs.declared.functions.Kind.TheVariants.{Map};
ghost use Rattle.tac_syntax.specs.Call.{Out};
ghost use Rattle.tac_syntax.specs.declared.contexts.Side.{Side};
ghost use Rattle.tac_syntax.specs.Contexts.{FieldSet, Has, IsContextOf, ports_of};
ghost use Rattle.tac_syntax.specs.EmitBounds.{least_emits, most_emits};
ghost use Rattle.tac_syntax.specs.Forms.{HasForm, HasFormAlone, KeepsGroups};
ghost use Rattle.tac_flow.specs.Results.{IsAlone, IsAnchoredOn, IsBoundToKeys, IsTouched, found_by, reads_by};
ghost use Rattle.tac_flow.specs.Results as results;
ghost use Rattle.tac_flow.specs.Gathering.{noted_of};
ghost use Rattle.tac_flow.specs.Views.{IsTouchedOf, found_of, scope_of, sets_in};

use crate::found_sets::Sets;
use crate::noted::Noted;
use crate::noting::noted_in;
use crate::places::least_size;
use crate::scopes::Scope;
use pact_record::Fields;
use tac_syntax::{Context, Kind, Valid};

/// Which fields the function reads, writes and decides by, if the records of its inputs may have values only in the
/// context's fields. The function touches what it reads, writes and names in a `set`.
///
/// The sets are those of the rules in `specs/Steps.antt`, `Walks.antt` and `Results.antt`, even if the context's two
/// sides share a field. Their promises about calls hold only if the sides share none.
pub fn sets(f: &Valid, context: &Context) -> Sets
    requires { IsContextOf f.now.fields context.now }
    ensures sets { found_of result ≡ sets_in f.now context.now }
    ensures touched { (k : ℕ) → Has (has_field result.touched) k ↔ IsTouched (found_of result) f.now.fields f.now.function.body k }
    ensures left_keys { AllByRecursion (Has (has_field result.reads)) context.now.left_keys }
    ensures right_keys { AllByRecursion (Has (has_field result.reads)) context.now.right_keys }
    ensures form { (side : Side) → IsAnchoredOn f.now.function.kind side (found_of result)
        → HasForm f.now.function.kind f.now.fields (ports_of context.now) (has_field result.reads) (has_field result.writes) side (Out f.now.fields f.now.function.body) }
    ensures alone { IsAlone f.now.function.kind (found_of result)
        → HasFormAlone f.now.function.kind f.now.fields (ports_of context.now) (has_field result.reads) (has_field result.writes) (Out f.now.fields f.now.function.body) }
    ensures groups { f.now.function.kind ≡ Map → (keys : FieldSet)
        → IsBoundToKeys (least_emits f.now.function.body) (most_emits f.now.function.body) (has_field result.control) keys
        → KeepsGroups f.now.fields (ports_of context.now) keys (Out f.now.fields f.now.function.body) }
{
    let function = f.function();
    let scope = Scope {
        kind: function.kind,
        fields: f.fields(),
        context: *context,
        least: least_size(&function.body),
    };
    let noted = noted_in(&scope, &function.body);
    found(&scope, &noted, f.named())
}

// The sets that follow from the notes, with the fields that the function names.
fn found(scope: &Scope, noted: &Noted, named: Fields) -> Sets
    requires { scope.now.fields ≤ MAX_FIELDS }
    ensures found { found_of result ≡ found_by scope.now.kind (scope_of scope.now) (noted_of noted.now) }
    ensures touched { IsTouchedOf result named }
{
    match scope.kind {
        Kind::CoGroup => by_anchors(scope, noted, named),
        _ => anchored(false, false, scope, noted, named),
    }
}

// The sets of a CoGroup.
fn by_anchors(scope: &Scope, noted: &Noted, named: Fields) -> Sets
    requires { scope.now.fields ≤ MAX_FIELDS }
    ensures found { found_of result ≡ results.by_anchors (noted_of noted.now).all_left (noted_of noted.now).all_right (scope_of scope.now) (noted_of noted.now) }
    ensures touched { IsTouchedOf result named }
{
    if noted.all_left {
        anchored(true, noted.all_right, scope, noted, named)
    } else if noted.all_right {
        anchored(false, true, scope, noted, named)
    } else {
        alone(scope, noted, named)
    }
}

// The sets of a CoGroup that is anchored on neither side: it reads and writes all fields.
fn alone(scope: &Scope, noted: &Noted, named: Fields) -> Sets
    requires { scope.now.fields ≤ MAX_FIELDS }
    ensures found { found_of result ≡ results.by_anchors false false (scope_of scope.now) (noted_of noted.now) }
    ensures touched { IsTouchedOf result named }
{
    let all = Fields::all(scope.fields);
    Sets {
        reads: all,
        writes: all,
        control: noted.control,
        touched: all.union(named),
        anchor_left: false,
        anchor_right: false,
    }
}

fn anchored(left: bool, right: bool, scope: &Scope, noted: &Noted, named: Fields) -> Sets
    ensures found { found_of result ≡ results.anchored left right (scope_of scope.now) (noted_of noted.now) }
    ensures touched { IsTouchedOf result named }
{
    let reads = reads_of(scope, noted);
    Sets {
        reads,
        writes: noted.writes,
        control: noted.control,
        touched: reads.union(noted.writes).union(named),
        anchor_left: left,
        anchor_right: right,
    }
}

fn reads_of(scope: &Scope, noted: &Noted) -> Fields
    ensures { has_field result ≡ reads_by (scope_of scope.now) (noted_of noted.now) }
{
    let found = noted.depends.union(noted.control);
    let keyed = found.union(scope.context.left_keys.fields());
    let both_keyed = keyed.union(scope.context.right_keys.fields());
    both_keyed.union(noted.writes.minus(noted.common))
}
