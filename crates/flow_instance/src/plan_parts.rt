//! The part that an instance keeps, made from a program and a physical plan.

ghost use Rattle.std.specs.Prelude.{◌≡◌, ◌<◌, true, length, map, IfOk};
ghost use Rattle.flow_instance.specs.Spots as spots;
ghost use Rattle.pact_operators.specs.Programs.{IsPlanOf};
ghost use Rattle.plan_trees.specs.Plans.{has, root_of, subtree_of};
ghost use Rattle.flow_instance.specs.Starting.{IsCalledAt, IsPartAt};
ghost use Rattle.flow_instance.specs.States.{port_of};

use crate::parts::{Part, Port};
use pact_operators::{OpKind, Parts, Physical, Plan, Program, Ship};
use pact_record::OutOfMemory;
use std::alloc::Global;
use tac_syntax::Valid;

fn port_from(physical: &Physical, input: &Plan) -> Port
    requires { has (root_of input.now) physical.now.tree ≡ true }
    ensures { port_of result ≡ spots.port_from physical.now input.now }
{
    // this call makes it known that the physical plan is a valid one
    let _workers = physical.workers();
    let edge = input.root();
    let ship = match physical.ship(edge) {
        Some(ship) => ship,
        None => Ship::Forward,
    };
    Port { edge, ship }
}

fn ports_of(alloc: Global, physical: &Physical, at: u32) -> Result<Vec<Port>, OutOfMemory>
    requires { has at physical.now.tree ≡ true }
    ensures { IfOk result (λ ports. map port_of ports.items ≡ spots.ports_of physical.now (subtree_of at physical.now.tree)) }
{
    match physical.plan().subtree(at).parts() {
        Parts::Alone { .. } => Ok(Vec::new(alloc)),
        Parts::OverOne { input, .. } => Ok(vec![in alloc; port_from(physical, &input)]?),
        Parts::OverTwo { left, right, .. } => Ok(vec![in alloc;
            port_from(physical, &left),
            port_from(physical, &right),
        ]?),
    }
}

// The function of an operator; a source has none.
fn function_at(alloc: Global, program: &Program, at: u32) -> Result<Option<Valid>, OutOfMemory>
    requires { at < length program.now.ops }
    ensures { IfOk result (IsCalledAt program.now at) }
{
    let op = &program.ops()[at as usize];
    if op.kind == OpKind::Source {
        return Ok(None);
    }
    let function = &program.functions()[op.function as usize];
    Ok(Some(function.copy(alloc)?))
}

/// What an instance keeps of a program and of a physical plan for it.
pub(crate) fn part_at(
    alloc: Global,
    program: &Program,
    physical: &Physical,
    at: u32,
    worker: u32,
    batch: u32,
) -> Result<Part, OutOfMemory>
    requires plan { IsPlanOf program.now.functions program.now.ops physical.now.tree }
    requires has { has at physical.now.tree ≡ true }
    ensures { IfOk result (IsPartAt program.now physical.now at worker batch) }
{
    let called = function_at(alloc, program, at)?;
    let ports = ports_of(alloc, physical, at)?;
    let op = &program.ops()[at as usize];
    Ok(Part {
        at,
        kind: op.kind,
        called,
        left_keys: op.left_keys,
        right_keys: op.right_keys,
        nulls: program.nulls_match(),
        fields: program.fields(),
        worker,
        workers: physical.workers(),
        batch,
        ports,
        out: physical.ship(at),
    })
}
