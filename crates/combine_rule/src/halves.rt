//! The sender and the merger of a function.

ghost use Rattle.std.specs.Prelude.{◌≡◌, ◌≤◌, ◌+◌, IfOk, OnOk};
ghost use Rattle.pact_record.specs.FieldSets.{has_field};
ghost use Rattle.tac_syntax.specs.Code.{joined, each, nesting, stop};
ghost use Rattle.tac_syntax.specs.Limits.{nesting_limit};
ghost use Rattle.tac_syntax.specs.Trees.{code_of, only};
ghost use Rattle.tac_syntax.specs.declared.statements.LoopList.TheVariants.{Group};
ghost use Rattle.combine_rule.specs.Combinable as specs;
ghost use Rattle.combine_rule.specs.Combinable.{IsCombinable};
ghost use Rattle.combine_rule.specs.Halves.{gathering, giving, keying, sending, zeroing};
ghost use Rattle.order_free.specs.Accumulators.{op_of};
ghost use Rattle.combine_rule.specs.Partials.{ArePartials};
ghost use Rattle.combine_rule.specs.Splits.{IsSplitIn, group_call};
ghost use Rattle.tac_syntax.specs.Valid.{IsValid};

use crate::parts::Partial;
use crate::pieces::{Pieces, split};
use crate::slots::{Slot, slots, spare_register};
use order_free::Accumulation;
use pact_record::{Fields, Keys, Op2, OutOfMemory, Word};
use std::alloc::Global;
use tac_syntax::{Body, Function, LoopList, Rec, Stmt, Valid};

// Appends copies of statements to a body.
fn put_copies(alloc: Global, body: &mut Body, stmts: &[Stmt]) -> Result<(), OutOfMemory>
    requires { nesting (code_of stmts.now) ≤ nesting_limit }
    ensures { OnOk result (body.new ≡ joined body.old (code_of stmts.now)) }
{
    for stmt in stmts {
        body.append(stmt.copy(alloc)?)?;
    }
    Ok(())
}

// Appends statements that start each sum from 0.
fn put_zeros(body: &mut Body, slots: &[Slot]) -> Result<(), OutOfMemory>
    ensures { OnOk result (body.new ≡ joined body.old (zeroing slots.now stop)) }
{
    for slot in slots {
        if let Accumulation::Sum = slot.by {
            body.append(Stmt::Int {
                to: slot.register,
                value: 0,
            })?;
        }
    }
    Ok(())
}

// Appends statements that copy the key values to the key fields.
fn put_keys(body: &mut Body, register: u32, keys: &Keys) -> Result<(), OutOfMemory>
    ensures { OnOk result (body.new ≡ joined body.old (keying register 0 keys.now stop)) }
{
    for n in 0..keys.len() {
        body.append(Stmt::Key {
            to: register,
            at: n,
        })?;
        body.append(Stmt::Set {
            to: 0,
            field: keys.at(n),
            value: register,
        })?;
    }
    Ok(())
}

// Appends statements that copy the accumulators to their fields.
fn put_values(body: &mut Body, slots: &[Slot]) -> Result<(), OutOfMemory>
    ensures { OnOk result (body.new ≡ joined body.old (giving slots.now stop)) }
{
    for slot in slots {
        body.append(Stmt::Set {
            to: 0,
            field: slot.field,
            value: slot.register,
        })?;
    }
    Ok(())
}

fn op_of(by: Accumulation) -> Op2
    ensures { result ≡ op_of by }
{
    match by {
        Accumulation::Sum => Op2::AddW,
        Accumulation::Least => Op2::Min,
        Accumulation::Greatest => Op2::Max,
    }
}

// A body in which the accumulators absorb the partial values of a record.
fn gathering(alloc: Global, register: u32, slots: &[Slot]) -> Result<Body, OutOfMemory>
    ensures { IfOk result (λ b. b ≡ gathering register slots.now) }
{
    let mut body = Body::new(alloc);
    for slot in slots {
        body.append(Stmt::Get {
            to: register,
            from: Rec::Loop(1),
            field: slot.field,
        })?;
        body.append(Stmt::Two {
            to: slot.register,
            op: op_of(slot.by),
            a: slot.register,
            b: register,
        })?;
    }
    Ok(body)
}

fn sender(
    alloc: Global,
    p: &Pieces<'_>,
    register: u32,
    keys: &Keys,
    slots: &[Slot],
) -> Result<Body, OutOfMemory>
    requires front { nesting (code_of p.now.front.now) ≤ nesting_limit }
    requires inner { 1 + nesting p.now.inner.now ≤ nesting_limit }
    ensures { IfOk result (λ b. b ≡ joined (code_of p.now.front.now) (zeroing slots.now (each 1 Group p.now.inner.now (sending register keys.now slots.now)))) }
{
    let mut body = Body::new(alloc);
    put_copies(alloc, &mut body, p.front)?;
    put_zeros(&mut body, slots)?;
    body.append(Stmt::Each {
        name: 1,
        list: LoopList::Group,
        body: p.inner.copy(alloc)?,
    })?;
    body.append(Stmt::New { to: 0 })?;
    put_keys(&mut body, register, keys)?;
    put_values(&mut body, slots)?;
    body.append(Stmt::Emit { from: 0 })?;
    Ok(body)
}

fn merger(alloc: Global, p: &Pieces<'_>, register: u32, slots: &[Slot]) -> Result<Body, OutOfMemory>
    requires front { nesting (code_of p.now.front.now) ≤ nesting_limit }
    requires rest { nesting (code_of p.now.rest.now) ≤ nesting_limit }
    ensures { IfOk result (λ b. b ≡ joined (code_of p.now.front.now) (each 1 Group (gathering register slots.now) (code_of p.now.rest.now))) }
{
    let mut body = Body::new(alloc);
    put_copies(alloc, &mut body, p.front)?;
    body.append(Stmt::Each {
        name: 1,
        list: LoopList::Group,
        body: gathering(alloc, register, slots)?,
    })?;
    put_copies(alloc, &mut body, p.rest)?;
    Ok(body)
}

// The function with another body.
fn with_body(alloc: Global, function: &Function, body: Body) -> Result<Function, OutOfMemory>
    ensures { IfOk result (λ f. f ≡ specs.with_body function.now body) }
{
    Ok(Function {
        name: Word::from_bytes(alloc, function.name.bytes())?,
        kind: function.kind,
        keys: function.keys,
        body,
    })
}

// The sender and the merger of a valid function.
fn halves_of(
    alloc: Global,
    function: &Function,
    fields: u32,
    keys: &Keys,
    attributes: Fields,
) -> Result<Partial, OutOfMemory>
    requires valid { IsValid function.now fields }
    requires combinable { IsCombinable function.now fields keys.now (has_field attributes) }
    ensures { IfOk result (λ p. ArePartials function.now fields keys.now (has_field attributes) p.sender p.merger) }
{
    // this call shows the prover that the body's depth is bounded
    let _depth = function.body.depth();
    let Some(p) = split(&function.body) else {
        unreachable!()
    };
    let Some(register) = spare_register(&function.body) else {
        unreachable!()
    };
    let slots = slots(alloc, p.inner, fields, keys, attributes)?;
    let sender = with_body(alloc, function, sender(alloc, &p, register, keys, &slots)?)?;
    let merger = with_body(alloc, function, merger(alloc, &p, register, &slots)?)?;
    Ok(Partial {
        sender: Valid::seal(sender, fields),
        merger: Valid::seal(merger, fields),
    })
}

/// The sender and the merger of a function for which `combinable` holds. For what the sender emits for the parts of a
/// group, the merger emits what the function emits for the group.
pub fn partial(
    alloc: Global,
    f: &Valid,
    keys: &Keys,
    attributes: Fields,
) -> Result<Partial, OutOfMemory>
    requires { IsCombinable f.now.function f.now.fields keys.now (has_field attributes) }
    ensures halves { IfOk result (λ p. ArePartials f.now.function f.now.fields keys.now (has_field attributes) p.sender p.merger) }
    ensures split { IfOk result (λ p. IsSplitIn keys.now (group_call f.now) (group_call p.sender) (group_call p.merger)) }
{
    halves_of(alloc, f.function(), f.fields(), keys, attributes)
}
