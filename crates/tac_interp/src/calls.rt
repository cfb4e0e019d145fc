//! Calls of functions.

ghost use Rattle.std.specs.Prelude.{◌≡◌, ◌<◌, ◌⊎◌, ◌++◌, List, [], None, length, IfOk, OnOk};
ghost use Rattle.std.specs.List.{AllByRecursion};
ghost use Rattle.pact_record.specs.declared.values.Value.{Value as FieldValue};
ghost use Rattle.pact_record.specs.Record.{key_of};
ghost use Rattle.tac_syntax.specs.declared.functions.Kind.TheVariants.{CoGroup, Cross, Map, Match, Reduce};
ghost use Rattle.tac_syntax.specs.Call.{of_group, of_groups, of_pair, of_record, end_state, Out};
ghost use Rattle.tac_syntax.specs.Bounded.{AreBounded};
ghost use Rattle.pact_record.specs.Widths.{AreBelow, AreWide};
ghost use Rattle.tac_syntax.specs.CallInputs.{HasKeys, HasWidth, IsInputOf};
ghost use Rattle.pact_bag.specs.Rows.{HaveOneWidth};
ghost use Rattle.tac_interp.specs.Machine.{AreEmitted, HasKeyFields, input_of, record_of};

use crate::endings::finish_body;
use crate::inputs::Input;
use crate::machines::Machine;
use crate::scratches::{Parts, Scratch};
use pact_bag::Rows;
use pact_record::{Keys, OutOfMemory, Record};
use std::alloc::Global;
use tac_syntax::Valid;

// The state after a call. If `passes`, it also emits the input's record, after all records in `parts.emitted`.
#[derive(Drop)]
struct Ended {
    parts: Parts,
    passes: bool,
}

// Runs the function on an input of its kind.
fn run_for(alloc: Global, f: &Valid, input: Input<'_>, parts: Parts) -> Result<Ended, OutOfMemory>
    requires kind { IsInputOf f.now.function.kind (input_of input) }
    requires keys { HasKeys f.now.function.keys (input_of input) }
    requires width { HasWidth f.now.fields (input_of input) }
    requires key_fields { HasKeyFields input }
    requires empty { parts.emitted ≡ [] }
    ensures emitted { IfOk result (λ ended. AreEmitted ended.passes (input_of input.entry) ended.parts.emitted (Out f.now.fields f.now.function.body (input_of input.entry))) }
    ensures bounded { AreBounded f.now.fields f.now.function.body (input_of input.entry) (Out f.now.fields f.now.function.body (input_of input.entry)) }
    ensures widths { IfOk result (λ ended. AreWide f.now.fields ended.parts.emitted) }
{
    let function = f.function();
    let mut machine = Machine::start(alloc, f.fields(), input, parts);
    let passes = finish_body(alloc, &function.body, &mut machine)?;
    Ok(Ended {
        parts: machine.into_parts(),
        passes,
    })
}

// What the function emits for an input that isn't one record. Such a call lends no record, so none passes.
fn call(alloc: Global, f: &Valid, input: Input<'_>) -> Result<Rows, OutOfMemory>
    requires kind { IsInputOf f.now.function.kind (input_of input) }
    requires keys { HasKeys f.now.function.keys (input_of input) }
    requires width { HasWidth f.now.fields (input_of input) }
    requires key_fields { HasKeyFields input }
    requires lends_none { record_of input ≡ None }
    ensures emitted { IfOk result (λ rows. rows ≡ Out f.now.fields f.now.function.body (input_of input.entry)) }
    ensures bounded { IfOk result (λ rows. AreBounded f.now.fields f.now.function.body (input_of input.entry) rows) }
    ensures widths { IfOk result (AreWide f.now.fields) }
{
    let ended = run_for(alloc, f, input, Parts::new(alloc))?;
    Ok(ended.parts.emitted)
}

// Appends what a call emitted, and keeps its memory for the next call.
fn hand_over(parts: Parts, scratch: &mut Scratch, out: &mut Rows) -> Result<(), OutOfMemory>
    requires { HaveOneWidth (out.old ++ parts.emitted) }
    ensures { OnOk result (out.new ≡ out.old ++ parts.emitted) }
{
    let mut parts = parts;
    out.append(&mut parts.emitted)?;
    scratch.put(parts);
    Ok(())
}

// Appends what the function emits for an input that isn't one record.
fn call_into(
    alloc: Global,
    f: &Valid,
    input: Input<'_>,
    scratch: &mut Scratch,
    out: &mut Rows,
) -> Result<(), OutOfMemory>
    requires kind { IsInputOf f.now.function.kind (input_of input) }
    requires keys { HasKeys f.now.function.keys (input_of input) }
    requires width { HasWidth f.now.fields (input_of input) }
    requires key_fields { HasKeyFields input }
    requires lends_none { record_of input ≡ None }
    requires widths { AreWide f.now.fields out.old }
    ensures given { OnOk result (out.new ≡ out.old ++ Out f.now.fields f.now.function.body (input_of input.entry)) }
    ensures bounded { AreBounded f.now.fields f.now.function.body (input_of input.entry) (Out f.now.fields f.now.function.body (input_of input.entry)) }
    ensures widths { OnOk result (AreWide f.now.fields out.new) }
{
    let ended = run_for(alloc, f, input, scratch.take(alloc))?;
    hand_over(ended.parts, scratch, out)
}

/// What a Map's function emits for a record, in its order.
pub fn call_map(alloc: Global, f: &Valid, row: &Record) -> Result<Rows, OutOfMemory>
    requires kind { f.now.function.kind ≡ Map }
    requires width { length row.now ≡ f.now.fields }
    ensures emitted { IfOk result (λ rows. rows ≡ Out f.now.fields f.now.function.body (of_record row.now)) }
    ensures ends { (end_state f.now.fields f.now.function.body (of_record row.now)).items ≡ [] }
    ensures bounded { IfOk result (λ rows. AreBounded f.now.fields f.now.function.body (of_record row.now) rows) }
    ensures widths { IfOk result (AreWide f.now.fields) }
{
    let ended = run_for(alloc, f, Input::Record(row), Parts::new(alloc))?;
    let passes = ended.passes;
    let parts = ended.parts;
    let mut emitted = parts.emitted;
    if !passes {
        return Ok(emitted);
    }
    let row = row.copy(alloc)?;
    emitted.push(row)?;
    Ok(emitted)
}

/// Appends what `call_map` returns. The call takes the record: if the function ends by emitting it unchanged,
/// the record is moved and not copied.
pub fn map_into(
    alloc: Global,
    f: &Valid,
    row: Record,
    scratch: &mut Scratch,
    out: &mut Rows,
) -> Result<(), OutOfMemory>
    requires kind { f.now.function.kind ≡ Map }
    requires width { length row ≡ f.now.fields }
    requires widths { AreWide f.now.fields out.old }
    ensures given { OnOk result (out.new ≡ out.old ++ Out f.now.fields f.now.function.body (of_record row)) }
    ensures ends { (end_state f.now.fields f.now.function.body (of_record row)).items ≡ [] }
    ensures bounded { AreBounded f.now.fields f.now.function.body (of_record row) (Out f.now.fields f.now.function.body (of_record row)) }
    ensures widths { OnOk result (AreWide f.now.fields out.new) }
{
    let ended = run_for(alloc, f, Input::Record(&row), scratch.take(alloc))?;
    let passes = ended.passes;
    hand_over(ended.parts, scratch, out)?;
    if !passes {
        return Ok(());
    }
    out.push(row)?;
    Ok(())
}

/// What the function of a Match or a Cross emits for two records, in its order.
pub fn call_pair(
    alloc: Global,
    f: &Valid,
    left: &Record,
    right: &Record,
) -> Result<Rows, OutOfMemory>
    requires kind { (f.now.function.kind ≡ Match) ⊎ (f.now.function.kind ≡ Cross) }
    requires left_width { length left.now ≡ f.now.fields }
    requires right_width { length right.now ≡ f.now.fields }
    ensures emitted { IfOk result (λ rows. rows ≡ Out f.now.fields f.now.function.body (of_pair left.now right.now)) }
    ensures ends { (end_state f.now.fields f.now.function.body (of_pair left.now right.now)).items ≡ [] }
    ensures bounded { IfOk result (λ rows. AreBounded f.now.fields f.now.function.body (of_pair left.now right.now) rows) }
    ensures widths { IfOk result (AreWide f.now.fields) }
{
    call(alloc, f, Input::Pair(left, right))
}

/// Appends what `call_pair` returns.
pub fn pair_into(
    alloc: Global,
    f: &Valid,
    left: &Record,
    right: &Record,
    scratch: &mut Scratch,
    out: &mut Rows,
) -> Result<(), OutOfMemory>
    requires kind { (f.now.function.kind ≡ Match) ⊎ (f.now.function.kind ≡ Cross) }
    requires left_width { length left.now ≡ f.now.fields }
    requires right_width { length right.now ≡ f.now.fields }
    requires widths { AreWide f.now.fields out.old }
    ensures given { OnOk result (out.new ≡ out.old ++ Out f.now.fields f.now.function.body (of_pair left.now right.now)) }
    ensures ends { (end_state f.now.fields f.now.function.body (of_pair left.now right.now)).items ≡ [] }
    ensures bounded { AreBounded f.now.fields f.now.function.body (of_pair left.now right.now) (Out f.now.fields f.now.function.body (of_pair left.now right.now)) }
    ensures widths { OnOk result (AreWide f.now.fields out.new) }
{
    call_into(alloc, f, Input::Pair(left, right), scratch, out)
}

/// What a Reduce's function emits for the records of a group, in its order. The clauses speak of the key values that
/// all of the records have.
pub fn call_group(alloc: Global, f: &Valid, keys: &Keys, group: &Rows) -> Result<Rows, OutOfMemory>
    requires kind { f.now.function.kind ≡ Reduce }
    requires keys { length keys.now ≡ f.now.function.keys }
    requires below { AreBelow f.now.fields keys.now }
    requires some { 0 < length group.now }
    requires widths { AreWide f.now.fields group.now }
    ensures emitted { (key : List FieldValue) → AllByRecursion (λ row. key_of keys.now row ≡ key) group.now → IfOk result (λ rows. rows ≡ Out f.now.fields f.now.function.body (of_group key group.now)) }
    ensures ends { (key : List FieldValue) → (end_state f.now.fields f.now.function.body (of_group key group.now)).items ≡ [] }
    ensures bounded { (key : List FieldValue) → IfOk result (λ rows. AreBounded f.now.fields f.now.function.body (of_group key group.now) rows) }
    ensures widths { IfOk result (AreWide f.now.fields) }
{
    let group = group.rows();
    let one = &group[0];
    call(alloc, f, Input::Group { keys, one, group })
}

/// Appends what `call_group` returns.
pub fn group_into(
    alloc: Global,
    f: &Valid,
    keys: &Keys,
    group: &Rows,
    scratch: &mut Scratch,
    out: &mut Rows,
) -> Result<(), OutOfMemory>
    requires kind { f.now.function.kind ≡ Reduce }
    requires keys { length keys.now ≡ f.now.function.keys }
    requires below { AreBelow f.now.fields keys.now }
    requires some { 0 < length group.now }
    requires group_widths { AreWide f.now.fields group.now }
    requires widths { AreWide f.now.fields out.old }
    ensures given { (key : List FieldValue) → AllByRecursion (λ row. key_of keys.now row ≡ key) group.now → OnOk result (out.new ≡ out.old ++ Out f.now.fields f.now.function.body (of_group key group.now)) }
    ensures ends { (key : List FieldValue) → (end_state f.now.fields f.now.function.body (of_group key group.now)).items ≡ [] }
    ensures bounded { (key : List FieldValue) → AllByRecursion (λ row. key_of keys.now row ≡ key) group.now → AreBounded f.now.fields f.now.function.body (of_group key group.now) (Out f.now.fields f.now.function.body (of_group key group.now)) }
    ensures widths { OnOk result (AreWide f.now.fields out.new) }
{
    let group = group.rows();
    let one = &group[0];
    call_into(alloc, f, Input::Group { keys, one, group }, scratch, out)
}

/// What a CoGroup's function emits for the groups of either side, in its order. One of them may be empty. The clauses
/// speak of the key values that all of their records have.
pub fn call_cogroup(
    alloc: Global,
    f: &Valid,
    left_keys: &Keys,
    right_keys: &Keys,
    left: &Rows,
    right: &Rows,
) -> Result<Rows, OutOfMemory>
    requires kind { f.now.function.kind ≡ CoGroup }
    requires left_keys { length left_keys.now ≡ f.now.function.keys }
    requires right_keys { length right_keys.now ≡ f.now.function.keys }
    requires left_below { AreBelow f.now.fields left_keys.now }
    requires right_below { AreBelow f.now.fields right_keys.now }
    requires some { (0 < length left.now) ⊎ (0 < length right.now) }
    requires left_widths { AreWide f.now.fields left.now }
    requires right_widths { AreWide f.now.fields right.now }
    ensures emitted { (key : List FieldValue) → AllByRecursion (λ row. key_of left_keys.now row ≡ key) left.now → AllByRecursion (λ row. key_of right_keys.now row ≡ key) right.now → IfOk result (λ rows. rows ≡ Out f.now.fields f.now.function.body (of_groups key left.now right.now)) }
    ensures ends { (key : List FieldValue) → (end_state f.now.fields f.now.function.body (of_groups key left.now right.now)).items ≡ [] }
    ensures bounded { (key : List FieldValue) → IfOk result (λ rows. AreBounded f.now.fields f.now.function.body (of_groups key left.now right.now) rows) }
    ensures widths { IfOk result (AreWide f.now.fields) }
{
    let (left, right) = (left.rows(), right.rows());
    let (keys, one) = match left.first() {
        Some(row) => (left_keys, row),
        None => (right_keys, &right[0]),
    };
    call(
        alloc,
        f,
        Input::Groups {
            keys,
            one,
            left,
            right,
        },
    )
}

/// Appends what `call_cogroup` returns.
pub fn cogroup_into(
    alloc: Global,
    f: &Valid,
    left_keys: &Keys,
    right_keys: &Keys,
    left: &Rows,
    right: &Rows,
    scratch: &mut Scratch,
    out: &mut Rows,
) -> Result<(), OutOfMemory>
    requires kind { f.now.function.kind ≡ CoGroup }
    requires left_keys { length left_keys.now ≡ f.now.function.keys }
    requires right_keys { length right_keys.now ≡ f.now.function.keys }
    requires left_below { AreBelow f.now.fields left_keys.now }
    requires right_below { AreBelow f.now.fields right_keys.now }
    requires some { (0 < length left.now) ⊎ (0 < length right.now) }
    requires left_widths { AreWide f.now.fields left.now }
    requires right_widths { AreWide f.now.fields right.now }
    requires widths { AreWide f.now.fields out.old }
    ensures given { (key : List FieldValue) → AllByRecursion (λ row. key_of left_keys.now row ≡ key) left.now → AllByRecursion (λ row. key_of right_keys.now row ≡ key) right.now → OnOk result (out.new ≡ out.old ++ Out f.now.fields f.now.function.body (of_groups key left.now right.now)) }
    ensures ends { (key : List FieldValue) → (end_state f.now.fields f.now.function.body (of_groups key left.now right.now)).items ≡ [] }
    ensures bounded { (key : List FieldValue) → AllByRecursion (λ row. key_of left_keys.now row ≡ key) left.now → AllByRecursion (λ row. key_of right_keys.now row ≡ key) right.now → AreBounded f.now.fields f.now.function.body (of_groups key left.now right.now) (Out f.now.fields f.now.function.body (of_groups key left.now right.now)) }
    ensures widths { OnOk result (AreWide f.now.fields out.new) }
{
    let (left, right) = (left.rows(), right.rows());
    let (keys, one) = match left.first() {
        Some(row) => (left_keys, row),
        None => (right_keys, &right[0]),
    };
    let input = Input::Groups {
        keys,
        one,
        left,
        right,
    };
    call_into(alloc, f, input, scratch, out)
}
