//! Chains of nodes, each of which leads to the next one.

ghost use Rattle.std.specs.Prelude.{◌≡◌, ◌<◌, ◌+◌, ◌^◌, length};
ghost use Rattle.chain_arena.specs.Joins.{joined, joined_next, single_of, without_first_of};

/// A linked list: its first node, its last node, and the number of its nodes. For an empty list the first two fields
/// mean nothing.
#[derive(Clone, Copy)]
pub(crate) struct Chain {
    pub(crate) first: usize,
    pub(crate) last: usize,
    pub(crate) count: usize,
}

impl Chain {
    pub(crate) const EMPTY: Chain = Chain {
        first: 0,
        last: 0,
        count: 0,
    };
}

/// The nodes of the first chain, followed by those of the second.
pub(crate) fn join(next: &mut Vec<usize>, a: Chain, b: Chain) -> Chain
    requires last { 0 < a.count → a.last < length next.old.items }
    requires fits { a.count + b.count < 2 ^ 64 }
    ensures chain { result ≡ joined a b }
    ensures next { next.new.items ≡ joined_next next.old.items a b }
{
    if b.count == 0 {
        return a;
    }
    if a.count == 0 {
        return b;
    }
    next[a.last] = b.first;
    Chain {
        first: a.first,
        last: b.last,
        count: a.count + b.count,
    }
}

/// The chain without its first node.
pub(crate) fn without_first(next: &Vec<usize>, a: Chain) -> Chain
    requires first { a.first < length next.now.items }
    requires some { 0 < a.count }
    ensures { result ≡ without_first_of next.now.items a }
{
    Chain {
        first: next[a.first],
        last: a.last,
        count: a.count - 1,
    }
}

/// The chain that has only this node.
pub(crate) fn single(node: usize) -> Chain
    ensures { result ≡ single_of node }
{
    Chain {
        first: node,
        last: node,
        count: 1,
    }
}
