//! Plans: trees of the operators and sources of a program.

ghost use Rattle.std.specs.Prelude.{◌≡◌, ◌<◌, ◌↔◌, true, IsTrue};
ghost use Rattle.std.specs.Cmp.{partial_equiv_from_equiv};
ghost use Rattle.plan_trees.specs.Distinct.{IsAbsent};
ghost use Rattle.plan_trees.specs.Plans.{leaf, over, both, node_limit, root_of, nodes, has, subtree_of, replaced, input_of, IsPlan};
ghost use Rattle.plan_trees.specs.PlanEquality.{plan_writes, plan_writes-Alike, same_plan, same_plan_laws};
ghost use Rattle.plan_trees.specs.PlanParts.{parts_of};

use crate::preorders::{Node, Preorder};
use std::hash::{Hash, Hasher};
use std::marker::Model;

/// A tree of operators and sources, each at most once. It is copied without memory.
#[derive(Clone, Copy, Debug)]
pub struct Plan {
    nodes: Preorder,
}

impl Model for Plan {
    ghost use Rattle.plan_trees.specs.Plans.{PlanTree};
    ghost use Rattle.plan_trees.specs.PlanCode.{coded_plan};

    ghost Value = { PlanTree };

    ghost coded = { coded_plan };

    ghost use Rattle.plan_trees.specs.Preorders.{preorder_of, tree_of, ShowsPlan};

    ghost view = { λ p. tree_of p.nodes };

    ghost invariant = { λ p. ShowsPlan p.nodes };

    ghost inverse = { λ t. record { nodes = preorder_of t } };

    ghost inverse_ok = { λ p h i. record { nodes = h.shown i } };
}

impl PartialEq for Plan {
    ghost eq = { same_plan };

    ghost laws = { partial_equiv_from_equiv same_plan_laws };

    fn eq(&self, other: &Plan) -> bool
        ensures value { result ≡ same_plan self.now other.now }
        ensures same { IsTrue result ↔ (self.now ≡ other.now) }
    {
        self.nodes == other.nodes
    }
}

impl Eq for Plan {
    ghost laws = { same_plan_laws };
}

impl Hash for Plan {
    ghost hash_input = { plan_writes };

    ghost respects_eq = { plan_writes-Alike.fed };

    fn hash<H: Hasher>(&self, state: &mut H) {
        self.nodes.nodes().hash(state);
    }
}

/// The root of a plan and the plans of its inputs.
#[derive(Clone, Copy, Debug)]
pub enum Parts {
    /// A source.
    Alone { at: u32 },
    /// An operator of one input.
    OverOne { at: u32, input: Plan },
    /// An operator of two inputs.
    OverTwo { at: u32, left: Plan, right: Plan },
}

impl Plan {
    pub fn leaf(at: u32) -> Plan
        requires { at < node_limit }
        ensures { result ≡ leaf at }
    {
        Plan {
            nodes: Preorder::of(Node { at, count: 1 }),
        }
    }

    /// An operator over the plan of its only input.
    pub fn over(at: u32, input: &Plan) -> Plan
        requires below { at < node_limit }
        requires absent { IsAbsent at (nodes input.now) }
        ensures { result ≡ over at input.now }
    {
        let count = 1 + input.nodes.len();
        let mut nodes = Preorder::of(Node { at, count });
        nodes.append(&input.nodes);
        Plan { nodes }
    }

    /// An operator over the plans of its two inputs.
    pub fn pair(at: u32, left: &Plan, right: &Plan) -> Plan
        requires { IsPlan (both at left.now right.now) }
        ensures { result ≡ both at left.now right.now }
    {
        let count = 1 + left.nodes.len() + right.nodes.len();
        let mut nodes = Preorder::of(Node { at, count });
        nodes.append(&left.nodes);
        nodes.append(&right.nodes);
        Plan { nodes }
    }

    /// The number of the operator or source whose output is the plan's.
    pub fn root(&self) -> u32
        ensures root { result ≡ root_of self.now }
        ensures plan { IsPlan self.now }
    {
        self.nodes.at(0).at
    }

    /// The root and the plans of its inputs.
    pub fn parts(&self) -> Parts
        ensures parts { result ≡ parts_of self.now }
        ensures plan { IsPlan self.now }
    {
        let root = self.nodes.at(0);
        let at = root.at;
        if root.count == 1 {
            return Parts::Alone { at };
        }
        let middle = 1 + self.nodes.at(1).count;
        let first = Plan {
            nodes: self.nodes.part(1, middle),
        };
        if middle == root.count {
            return Parts::OverOne { at, input: first };
        }
        let second = Plan {
            nodes: self.nodes.part(middle, root.count),
        };
        Parts::OverTwo {
            at,
            left: first,
            right: second,
        }
    }

    pub fn has(&self, at: u32) -> bool
        ensures { result ≡ has at self.now }
    {
        match self.parts() {
            Parts::Alone { at: root } => at == root,
            Parts::OverOne { at: root, input } => at == root || input.has(at),
            Parts::OverTwo {
                at: root,
                left,
                right,
            } => at == root || left.has(at) || right.has(at),
        }
    }

    /// The number of the operator's input at a port: 0 is its only or its left input, 1 its right one.
    pub fn input(&self, at: u32, port: u32) -> Option<u32>
        requires { has at self.now ≡ true }
        ensures { result ≡ input_of at port self.now }
    {
        match self.subtree(at).parts() {
            Parts::Alone { .. } => None,
            Parts::OverOne { input, .. } => (port == 0).then_some(input.root()),
            Parts::OverTwo { left, right, .. } => match port {
                0 => Some(left.root()),
                1 => Some(right.root()),
                _ => None,
            },
        }
    }

    /// The plan below the operator and with it, or the source on its own.
    pub fn subtree(&self, at: u32) -> Plan
        requires { has at self.now ≡ true }
        ensures { result ≡ subtree_of at self.now }
    {
        match self.parts() {
            Parts::OverOne { at: root, input } if at != root => input.subtree(at),
            Parts::OverTwo {
                at: root,
                left,
                right,
            } if at != root => {
                if left.has(at) {
                    left.subtree(at)
                } else {
                    right.subtree(at)
                }
            }
            _ => *self,
        }
    }

    /// The plan in which a new tree replaces the one whose root has the number.
    pub fn with_subtree(&self, at: u32, tree: &Plan) -> Plan
        requires has { has at self.now ≡ true }
        requires plan { IsPlan (replaced at tree.now self.now) }
        ensures { result ≡ replaced at tree.now self.now }
    {
        match self.parts() {
            Parts::OverOne { at: root, input } if at != root => {
                Plan::over(root, &input.with_subtree(at, tree))
            }
            Parts::OverTwo {
                at: root,
                left,
                right,
            } if at != root => {
                if left.has(at) {
                    Plan::pair(root, &left.with_subtree(at, tree), &right)
                } else {
                    Plan::pair(root, &left, &right.with_subtree(at, tree))
                }
            }
            _ => *tree,
        }
    }
}
