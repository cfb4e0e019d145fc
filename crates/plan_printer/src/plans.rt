//! A chosen plan as text: how it was found, its tree, and the exchanges that lead to it.

ghost use Rattle.std.specs.Prelude.{◌≡◌, ◌++◌, ℕ, IfOk, OnOk, Some, codes, decimal, slice_get, true};
ghost use Rattle.plan_trees.specs.Physicals.{ship_at};
ghost use Rattle.plan_trees.specs.Plans.{has, root_of};
ghost use Rattle.reorder_pair.specs.Rules.{word_of};
ghost use Rattle.plan_printer.specs.FoundText.{found_text};
ghost use Rattle.plan_printer.specs.PlanText as texts;

use crate::findings::{found_text, push_number};
use cost_model::estimate_of;
use pact_bag::Counts;
use pact_operators::{Op, OpKind, Parts, Physical, Plan, Program, Ship};
use pact_record::{Bytes, Keys, OutOfMemory};
use reorder_pair::{Condition, ConditionList, Found};
use std::alloc::Global;

/// A chosen plan, with everything that is printed about it.
#[derive(Debug, Drop)]
pub struct Shown {
    /// The number of listed plans.
    pub plans: u32,
    /// Whether the list is complete. Otherwise the listing stopped at its limit.
    pub complete: bool,
    /// The plan's number in the list.
    pub entry: u32,
    /// The number of its layout.
    pub layout: u32,
    pub cost: u64,
    pub physical: Physical,
    /// The number of rows of each source, by the source's number.
    pub counts: Counts,
    /// The exchanges that lead to the plan, in the order in which they are made.
    pub steps: ConditionList,
}

// Appends the words for a number, and the number.
fn push_told(alloc: Global, text: &mut Bytes, what: &[u8], number: u64) -> Result<(), OutOfMemory>
    ensures { OnOk result (text.new ≡ text.old ++ (what.now ++ decimal number)) }
{
    text.extend_from_slice(what)?;
    push_number(alloc, text, number)
}

// Appends keys, with a space before each.
fn push_keys(alloc: Global, text: &mut Bytes, keys: &Keys) -> Result<(), OutOfMemory>
    ensures { OnOk result (text.new ≡ text.old ++ texts.behind_spaces keys.now) }
{
    for n in 0..keys.len() {
        text.extend_from_slice(b" ")?;
        push_number(alloc, text, u64::from(keys.at(n)))?;
    }
    Ok(())
}

fn push_both_keys(alloc: Global, text: &mut Bytes, op: &Op) -> Result<(), OutOfMemory>
    ensures { OnOk result (text.new ≡ text.old ++ (codes " by" ++ (texts.behind_spaces op.now.left_keys ++ (codes " =" ++ texts.behind_spaces op.now.right_keys)))) }
{
    text.extend_from_slice(b" by")?;
    push_keys(alloc, text, &op.left_keys)?;
    text.extend_from_slice(b" =")?;
    push_keys(alloc, text, &op.right_keys)
}

// Appends the keys of an operator if its kind has keys.
fn push_keys_of(alloc: Global, text: &mut Bytes, op: &Op) -> Result<(), OutOfMemory>
    ensures { OnOk result (text.new ≡ text.old ++ texts.keys_text op.now.kind op.now.left_keys op.now.right_keys) }
{
    match op.kind {
        OpKind::Reduce => {
            text.extend_from_slice(b" by")?;
            push_keys(alloc, text, &op.left_keys)
        }
        OpKind::Match | OpKind::CoGroup => push_both_keys(alloc, text, op),
        _ => Ok(()),
    }
}

fn push_operator(alloc: Global, text: &mut Bytes, op: &Op) -> Result<(), OutOfMemory>
    ensures { OnOk result (text.new ≡ text.old ++ texts.head_text (Some op.now)) }
{
    text.extend_from_slice(op.name.bytes())?;
    text.extend_from_slice(b" ")?;
    text.extend_from_slice(op.kind.word())?;
    push_keys_of(alloc, text, op)
}

// Appends the name, kind and keys of the source or operator with a number.
fn push_head(alloc: Global, text: &mut Bytes, ops: &[Op], at: u32) -> Result<(), OutOfMemory>
    ensures { OnOk result (text.new ≡ text.old ++ texts.head_text (slice_get ops.now at)) }
{
    match ops.get(at as usize) {
        Some(op) => push_operator(alloc, text, op),
        None => Ok(()),
    }
}

fn push_ship(alloc: Global, text: &mut Bytes, ship: &Ship) -> Result<(), OutOfMemory>
    ensures { OnOk result (text.new ≡ text.old ++ texts.ship_text (Some ship.now)) }
{
    match ship {
        Ship::Forward => text.extend_from_slice(b"forward"),
        Ship::Partition(keys) => {
            text.extend_from_slice(b"partition")?;
            push_keys(alloc, text, keys)
        }
        Ship::Broadcast => text.extend_from_slice(b"broadcast"),
    }
}

// Appends how the records of a node go to its consumer.
fn push_ship_at(
    alloc: Global,
    text: &mut Bytes,
    physical: &Physical,
    at: u32,
) -> Result<(), OutOfMemory>
    requires { has at physical.now.tree ≡ true }
    ensures { OnOk result (text.new ≡ text.old ++ texts.ship_text (ship_at physical.now at)) }
{
    match physical.ship(at) {
        Some(ship) => push_ship(alloc, text, &ship),
        None => text.extend_from_slice(b"sink"),
    }
}

// Appends the line of a node that is expected to emit this number of records.
fn push_node(
    alloc: Global,
    text: &mut Bytes,
    program: &Program,
    physical: &Physical,
    at: u32,
    records: u64,
) -> Result<(), OutOfMemory>
    requires { has at physical.now.tree ≡ true }
    ensures { OnOk result (text.new ≡ text.old ++ texts.node_line (slice_get program.now.ops at) (ship_at physical.now at) records) }
{
    push_head(alloc, text, program.ops(), at)?;
    text.extend_from_slice(b" ship ")?;
    push_ship_at(alloc, text, physical, at)?;
    push_told(alloc, text, b" estimate ", records)?;
    text.extend_from_slice(b"\n")
}

// Appends the line of a tree's root.
fn push_root(
    alloc: Global,
    text: &mut Bytes,
    program: &Program,
    shown: &Shown,
    margin: &[u8],
    tree: &Plan,
) -> Result<(), OutOfMemory>
    requires { has (root_of tree.now) shown.now.physical.tree ≡ true }
    ensures { OnOk result (text.new ≡ text.old ++ texts.root_line program.now shown.now.counts shown.now.physical margin.now (root_of tree.now) tree.now) }
{
    let records = estimate_of(program, &shown.counts, tree);
    text.extend_from_slice(margin)?;
    push_node(alloc, text, program, &shown.physical, tree.root(), records)
}

// The margin of the inputs of a line's operator.
fn deeper(alloc: Global, margin: &[u8]) -> Result<Bytes, OutOfMemory>
    ensures { IfOk result (λ inner. inner ≡ margin.now ++ codes "  ") }
{
    let mut inner = Bytes::from_slice(alloc, margin)?;
    inner.extend_from_slice(b"  ")?;
    Ok(inner)
}

// Appends the lines of a tree, each operator's before those of its inputs.
fn push_tree(
    alloc: Global,
    text: &mut Bytes,
    program: &Program,
    shown: &Shown,
    margin: &[u8],
    tree: &Plan,
) -> Result<(), OutOfMemory>
    requires { (n : ℕ) → has n tree.now ≡ true → has n shown.now.physical.tree ≡ true }
    ensures { OnOk result (text.new ≡ text.old ++ texts.tree_text program.now shown.now.counts shown.now.physical margin.now tree.now) }
{
    push_root(alloc, text, program, shown, margin, tree)?;
    match tree.parts() {
        Parts::Alone { .. } => Ok(()),
        Parts::OverOne { input, .. } => {
            let inner = deeper(alloc, margin)?;
            push_tree(alloc, text, program, shown, inner.bytes(), &input)
        }
        Parts::OverTwo { left, right, .. } => {
            let inner = deeper(alloc, margin)?;
            push_tree(alloc, text, program, shown, inner.bytes(), &left)?;
            push_tree(alloc, text, program, shown, inner.bytes(), &right)
        }
    }
}

fn push_name(text: &mut Bytes, ops: &[Op], at: u32) -> Result<(), OutOfMemory>
    ensures { OnOk result (text.new ≡ text.old ++ texts.operator_name (slice_get ops.now at)) }
{
    match ops.get(at as usize) {
        Some(op) => text.extend_from_slice(op.name.bytes()),
        None => Ok(()),
    }
}

// Appends the words for an operator, and the findings for it.
fn push_found(
    alloc: Global,
    text: &mut Bytes,
    of_which: &[u8],
    found: &Found,
) -> Result<(), OutOfMemory>
    ensures { OnOk result (text.new ≡ text.old ++ (of_which.now ++ found_text found.now)) }
{
    text.extend_from_slice(of_which)?;
    text.extend_from_slice(found_text(alloc, found)?.bytes())
}

// Appends the findings for both operators.
fn push_findings(alloc: Global, text: &mut Bytes, step: &Condition) -> Result<(), OutOfMemory>
    ensures { OnOk result (text.new ≡ text.old ++ (codes "\n  upper " ++ (found_text step.now.upper ++ (codes "\n  lower " ++ (found_text step.now.lower ++ codes "\n"))))) }
{
    push_found(alloc, text, b"\n  upper ", &step.upper)?;
    push_found(alloc, text, b"\n  lower ", &step.lower)?;
    text.extend_from_slice(b"\n")
}

// Appends the number of an exchange, its rule and its upper operator.
fn push_exchange(
    alloc: Global,
    text: &mut Bytes,
    ops: &[Op],
    number: u64,
    step: &Condition,
) -> Result<(), OutOfMemory>
    ensures { OnOk result (text.new ≡ text.old ++ (codes "swap " ++ (decimal number ++ (codes " " ++ (word_of step.now.rule ++ (codes " at " ++ texts.operator_name (slice_get ops.now step.now.at))))))) }
{
    push_told(alloc, text, b"swap ", number)?;
    text.extend_from_slice(b" ")?;
    text.extend_from_slice(step.rule.word().as_bytes())?;
    text.extend_from_slice(b" at ")?;
    push_name(text, ops, step.at)
}

// Appends the lines of the exchange with a number.
fn push_step(
    alloc: Global,
    text: &mut Bytes,
    program: &Program,
    number: u64,
    step: &Condition,
) -> Result<(), OutOfMemory>
    ensures { OnOk result (text.new ≡ text.old ++ texts.step_text program.now number step.now) }
{
    push_exchange(alloc, text, program.ops(), number, step)?;
    push_findings(alloc, text, step)
}

// Appends the exchanges, numbered from 1.
fn push_steps(
    alloc: Global,
    text: &mut Bytes,
    program: &Program,
    steps: &[Condition],
) -> Result<(), OutOfMemory>
    ensures { OnOk result (text.new ≡ text.old ++ texts.steps_text program.now 1 steps.now) }
{
    for (n, step) in steps.iter().enumerate() {
        push_step(alloc, text, program, n as u64 + 1, step)?;
    }
    Ok(())
}

fn listing_word(complete: bool) -> &'static [u8]
    ensures { result.now ≡ texts.listing_word complete }
{
    if complete { b"complete" } else { b"limit" }
}

// Appends the number of listed plans, and whether these are all.
fn push_listing(alloc: Global, text: &mut Bytes, shown: &Shown) -> Result<(), OutOfMemory>
    ensures { OnOk result (text.new ≡ text.old ++ (codes "plans " ++ (decimal shown.now.plans ++ (codes " " ++ texts.listing_word shown.now.complete)))) }
{
    push_told(alloc, text, b"plans ", u64::from(shown.plans))?;
    text.extend_from_slice(b" ")?;
    text.extend_from_slice(listing_word(shown.complete))
}

// Appends how the plan was found.
fn push_choice(alloc: Global, text: &mut Bytes, shown: &Shown) -> Result<(), OutOfMemory>
    ensures { OnOk result (text.new ≡ text.old ++ texts.choice_text shown.now) }
{
    push_listing(alloc, text, shown)?;
    push_told(alloc, text, b"\nchosen ", u64::from(shown.entry))?;
    push_told(alloc, text, b" layout ", u64::from(shown.layout))?;
    push_told(alloc, text, b" cost ", shown.cost)?;
    text.extend_from_slice(b"\n")
}

/// A chosen plan as text. It begins with the number of listed plans, and whether these are all plans or the listing
/// stopped at its limit. The number of the plan and of its layout follow, and its cost. Then comes its tree, each
/// operator before its inputs, with its keys, how its records are shipped, and how many records it is expected to emit.
/// The exchanges that lead to the plan come last, with the findings for their operators. Out of memory is the only
/// error.
pub fn plan_text(alloc: Global, program: &Program, shown: &Shown) -> Result<Bytes, OutOfMemory>
    ensures { IfOk result (λ text. text ≡ texts.plan_text program.now shown.now) }
{
    let mut text = Bytes::new(alloc);
    push_choice(alloc, &mut text, shown)?;
    push_tree(alloc, &mut text, program, shown, b"", shown.physical.plan())?;
    push_steps(alloc, &mut text, program, shown.steps.conditions())?;
    Ok(text)
}
