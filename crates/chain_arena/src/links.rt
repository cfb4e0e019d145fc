//! Lists of node numbers, and the free list.

ghost use Rattle.std.specs.Prelude.{◌≡◌, ◌≢◌, ◌<◌, ◌+◌, ◌^◌, ◌++◌, ◌∷◌, [], get_or, length, OnErr, OnOk};
ghost use Rattle.chain_arena.specs.Linked.{FreesFirst, TakesFree, concatenated};

use crate::joins::{Chain, join, single, without_first};
use crate::walks::Nodes;
use std::alloc::{AllocError, Global};
use std::marker::Model;

/// Nodes by number. Each is at one place of one list or of the free list.
#[derive(Drop)]
pub(crate) struct Links {
    // The node that each node leads to. For a chain's last node it means nothing.
    next: Vec<usize>,
    chains: Vec<Chain>,
    free: Chain,
}

impl Model for Links {
    ghost use Rattle.std.specs.Prelude.{length, map};
    ghost use Rattle.chain_arena.specs.Joins.{empty_chain};
    ghost use Rattle.chain_arena.specs.Linked.{LinkData, AreLinked, nodes_of};

    ghost Value = { LinkData };

    ghost view = { λ l. record { free = nodes_of l.next.items l.free; lists = map (nodes_of l.next.items) l.chains.items; nodes = length l.next.items } };

    ghost invariant = { λ l. AreLinked l.next.items empty_chain l.free l.chains.items };
}

impl Links {
    pub(crate) fn new(alloc: Global) -> Links
        ensures { result ≡ record { free = []; lists = []; nodes = 0 } }
    {
        Links {
            next: Vec::new(alloc),
            chains: Vec::new(alloc),
            free: Chain::EMPTY,
        }
    }

    /// Adds a node at the end of the free list. If memory runs out, nothing changes.
    pub(crate) fn grow(&mut self) -> Result<(), AllocError>
        ensures ok { OnOk result (self.new ≡ record self.old { free = self.old.free ++ self.old.nodes ∷ []; nodes = self.old.nodes + 1 }) }
        ensures err { OnErr result (self.new ≡ self.old) }
    {
        let node = self.next.len();
        self.next.push(0)?;
        self.free = join(&mut self.next, self.free, single(node));
        Ok(())
    }

    /// Adds an empty list after the others. If memory runs out, nothing changes.
    pub(crate) fn add_list(&mut self) -> Result<(), AllocError>
        ensures ok { OnOk result (self.new ≡ record self.old { lists = self.old.lists ++ [] ∷ [] }) }
        ensures err { OnErr result (self.new ≡ self.old) }
    {
        self.chains.push(Chain::EMPTY)?;
        Ok(())
    }

    /// Moves the first node of the free list to the end of a list, and returns the node.
    pub(crate) fn take_free(&mut self, list: usize) -> usize
        requires list { list < length self.old.lists }
        requires some { 0 < length self.old.free }
        ensures { TakesFree list self.old self.new result }
    {
        let node = self.free.first;
        self.free = without_first(&self.next, self.free);
        self.chains[list] = join(&mut self.next, self.chains[list], single(node));
        node
    }

    /// Moves the first node of a list to the end of the free list, and returns the node.
    pub(crate) fn free_first(&mut self, list: usize) -> usize
        requires list { list < length self.old.lists }
        requires some { 0 < length (get_or self.old.lists list []) }
        ensures { FreesFirst list self.old self.new result }
    {
        let chain = self.chains[list];
        self.chains[list] = without_first(&self.next, chain);
        self.free = join(&mut self.next, self.free, single(chain.first));
        chain.first
    }

    /// Moves the nodes of list `b` to the end of list `a`.
    pub(crate) fn concat(&mut self, a: usize, b: usize)
        requires a { a < length self.old.lists }
        requires b { b < length self.old.lists }
        requires differ { a ≢ b }
        ensures { self.new ≡ concatenated a b self.old }
    {
        let behind = self.chains[b];
        self.chains[a] = join(&mut self.next, self.chains[a], behind);
        self.chains[b] = Chain::EMPTY;
    }

    /// The nodes of a list, in order.
    pub(crate) fn walk(&self, list: usize) -> Nodes<'_>
        requires { list < length self.now.lists }
        ensures rest { result ≡ get_or self.now.lists list [] }
        ensures fits { length result < 2 ^ 64 }
    {
        let chain = self.chains[list];
        Nodes {
            next: self.next.as_slice(),
            node: chain.first,
            left: chain.count,
        }
    }

    /// The number of lists.
    pub(crate) fn count(&self) -> usize
        ensures { result ≡ length self.now.lists }
    {
        self.chains.len()
    }

    /// The number of nodes of a list.
    pub(crate) fn len(&self, list: usize) -> usize
        requires { list < length self.now.lists }
        ensures { result ≡ length (get_or self.now.lists list []) }
    {
        self.chains[list].count
    }

    /// The number of free nodes.
    pub(crate) fn spare(&self) -> usize
        ensures { result ≡ length self.now.free }
    {
        self.free.count
    }
}
