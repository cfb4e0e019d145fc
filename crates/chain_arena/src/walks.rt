//! Iterates over a list, from its first node to its last.

ghost use Rattle.std.specs.Prelude.{◌≡◌, length};
ghost use Rattle.std.specs.Iterator.{YieldsFirst, YieldsFirstRef, item_count};

use std::iter::{ExactSizeIterator, FusedIterator};
use std::marker::Model;

/// The remaining nodes of a list, from the next one on.
#[derive(Drop)]
pub(crate) struct Nodes<'a> {
    // The node that each node leads to.
    pub(crate) next: &'a [usize],
    // The next node. If no node remains, it means nothing.
    pub(crate) node: usize,
    pub(crate) left: usize,
}

impl<'a> Model for Nodes<'a> {
    ghost use Rattle.std.specs.Prelude.{ℕ, List, length};
    ghost use Rattle.chain_arena.specs.Linked.{AreWithin, next_of, nodes_from};

    ghost Value = { List ℕ };

    ghost view = { λ n. nodes_from (next_of n.next.now) n.node n.left };

    ghost invariant = { λ n. AreWithin (length n.next.now) (nodes_from (next_of n.next.now) n.node n.left) };
}

impl<'a> Nodes<'a> {
    fn len(&self) -> usize
        ensures { result ≡ length self.now }
    {
        self.left
    }
}

impl<'a> Iterator for Nodes<'a> {
    type Item = usize;

    ghost next_gives = { YieldsFirst (λ rest. rest) };

    ghost remaining = { item_count (λ rest. rest) };

    fn next(&mut self) -> Option<usize> {
        if self.left == 0 {
            return None;
        }
        let node = self.node;
        self.node = self.next[node];
        self.left -= 1;
        Some(node)
    }
}

/// Lends the remaining items of a list, from the next one on.
///
/// Its value is the list of these items. `Chains::walk` returns one for all items of a list. Each call of `next`
/// returns the first remaining item. Once no item remains, it always returns `None`. It allocates no memory, and each
/// step takes constant time.
#[derive(Drop)]
pub struct Walk<'a, T> {
    pub(crate) nodes: Nodes<'a>,
    pub(crate) items: &'a [Option<T>],
}

impl<'a, T> Model for Walk<'a, T> {
    ghost use Rattle.std.specs.Prelude.{List};

    ghost Value = { List T };

    ghost use Rattle.chain_arena.specs.Arenas.{HaveItems, items_of};

    ghost view = { λ w. items_of w.items.now w.nodes };

    ghost invariant = { λ w. HaveItems w.items.now w.nodes };
}

impl<'a, T> Iterator for Walk<'a, T> {
    type Item = &'a T;

    ghost next_gives = { YieldsFirstRef (λ rest. rest) };

    ghost remaining = { item_count (λ rest. rest) };

    fn next(&mut self) -> Option<&'a T> {
        let node = self.nodes.next()?;
        self.items[node].as_ref()
    }

    fn size_hint(&self) -> (usize, Option<usize>) {
        let left = self.len();
        (left, Some(left))
    }
}

impl<'a, T> ExactSizeIterator for Walk<'a, T> {
    fn len(&self) -> usize {
        self.nodes.len()
    }
}

impl<'a, T> FusedIterator for Walk<'a, T> {}
