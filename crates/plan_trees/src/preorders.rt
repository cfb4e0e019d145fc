//! Nodes of plans in an array of fixed length, each operator before its inputs.

ghost use Rattle.std.specs.Prelude.{◌≡◌, ◌≤◌, ◌<◌, ◌+◌, ◌-◌, ◌++◌, ◌∷◌, [], length, slice_get, slice_range, Some};
ghost use Rattle.plan_trees.specs.Plans.{node_limit};

use std::marker::Model;

/// A plan has at most this number of nodes, and their numbers are below it: 16 operators and 17 sources.
pub const MAX_NODES: usize = 33;

/// An operator or a source in its place in a plan.
#[derive(Clone, Copy, Debug, PartialEq, Eq, Hash)]
pub struct Node {
    /// Its number.
    pub at: u32,
    /// How many nodes the tree with this root has, itself included.
    pub count: u32,
}

const BLANK: Node = Node { at: 0, count: 0 };

/// A list of nodes.
#[derive(Clone, Copy, Debug, PartialEq, Eq)]
pub struct Preorder {
    held: [Node; MAX_NODES],
    count: u32,
}

impl Model for Preorder {
    ghost use Rattle.std.specs.Prelude.{List, length, take};
    ghost use Rattle.std.proofs.Common.{arith};
    ghost use Rattle.std.proofs.lemmas.List.{length-take-le};
    ghost use Rattle.plan_trees.specs.declared.preorders.Node.{Node};
    ghost use Rattle.plan_trees.specs.NodeRows.{padded, HoldsNodes};

    ghost Value = { List Node };

    ghost view = { λ p. take p.count p.held };

    ghost invariant = { λ p. HoldsNodes p.held p.count };

    ghost inverse = { λ xs. record { held = padded xs; count = length xs } };

    ghost inverse_ok = { λ p h i. record { held = h.rest i; count = length-take-le p.count p.held (omega (arith, h.few, h.long)) i } };
}

impl Preorder {
    /// A list of one node.
    pub fn of(node: Node) -> Preorder
        ensures { result ≡ node ∷ [] }
    {
        let mut nodes = Preorder::empty();
        nodes.push(node);
        nodes
    }

    pub fn len(&self) -> u32
        ensures len { result ≡ length self.now }
        ensures few { result ≤ node_limit }
    {
        self.count
    }

    pub fn at(&self, n: u32) -> Node
        requires { n < length self.now }
        ensures { slice_get self.now n ≡ Some result }
    {
        self.held[n as usize]
    }

    pub fn nodes(&self) -> &[Node]
        ensures { result.now ≡ self.now }
    {
        &self.held[..self.count as usize]
    }

    /// Appends all nodes of another list.
    pub fn append(&mut self, other: &Preorder)
        requires { length self.old + length other.now ≤ node_limit }
        ensures { self.new ≡ self.old ++ other.now }
    {
        self.append_part(other, 0, other.len());
    }

    /// The nodes from one place up to another, which is excluded.
    pub fn part(&self, start: u32, end: u32) -> Preorder
        requires order { start ≤ end }
        requires end { end ≤ length self.now }
        ensures { result ≡ slice_range self.now start end }
    {
        // `len` makes it known that the list has at most `MAX_NODES` nodes
        let _few = self.len();
        let mut nodes = Preorder::empty();
        nodes.append_part(self, start, end);
        nodes
    }

    fn empty() -> Preorder
        ensures { result ≡ [] }
    {
        Preorder {
            held: [BLANK; MAX_NODES],
            count: 0,
        }
    }

    fn push(&mut self, node: Node)
        requires { length self.old < node_limit }
        ensures { self.new ≡ self.old ++ node ∷ [] }
    {
        self.held[self.count as usize] = node;
        self.count += 1;
    }

    // Appends the other's nodes from one place up to another.
    fn append_part(&mut self, other: &Preorder, start: u32, end: u32)
        requires order { start ≤ end }
        requires end { end ≤ length other.now }
        requires room { length self.old + (end - start) ≤ node_limit }
        ensures { self.new ≡ self.old ++ slice_range other.now start end }
    {
        for n in start..end {
            self.push(other.at(n));
        }
    }
}
