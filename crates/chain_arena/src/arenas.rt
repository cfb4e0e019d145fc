//! Many lists of items that share one vector.

ghost use Rattle.std.specs.Prelude.{◌≡◌, ◌≢◌, ◌≤◌, ◌<◌, ◌+◌, ◌^◌, ◌++◌, ◌∷◌, [], get_or, length, slice_set, OnErr, OnOk, IfOk};
ghost use Rattle.chain_arena.specs.Arenas.{IsPushed, IsTaken, concatenated};

use crate::links::Links;
use crate::walks::Walk;
use std::alloc::{AllocError, Global};
use std::marker::Model;

/// An arena of linked lists.
///
/// Its value is `lists`, a list of lists, and `spare`, the number of further items for which there is room. Lists are
/// numbered from 0 in the order in which `new_chain` added them, and none is ever removed. Each list number passed to a
/// call must be below `count`.
///
/// Only `reserve` and `new_chain` allocate memory, and they return `AllocError` if it runs out. All lists share the
/// room. An item that is added or moved in uses room for one item; an item that is removed or moved out frees it.
/// `concat` needs no room. The arena keeps its memory until it is dropped.
#[derive(Drop)]
pub struct Chains<T> {
    links: Links,
    // The item at each node; `None` at a free node.
    items: Vec<Option<T>>,
}

impl<T> Model for Chains<T> {
    ghost use Rattle.std.specs.Prelude.{◌≡◌, length, map};
    ghost use Rattle.chain_arena.specs.Arenas.{ArenaData, arena_code};

    ghost Value = { ArenaData T };

    ghost coded = { arena_code T.code };

    ghost use Rattle.chain_arena.specs.Arenas.{AreOccupied, items_of};

    ghost view = { λ c. record { lists = map (items_of c.items.items) c.links.lists; spare = length c.links.free } };

    ghost invariant = { λ c. (length c.items.items ≡ c.links.nodes) × AreOccupied c.items.items c.links.lists };
}

impl<T: Drop> Chains<T> {
    /// An arena without lists and without room. It doesn't allocate memory.
    pub fn new(alloc: Global) -> Chains<T>
        ensures { result ≡ record { lists = []; spare = 0 } }
    {
        Chains {
            links: Links::new(alloc),
            items: Vec::new(alloc),
        }
    }

    // Makes room for one more item.
    fn grow(&mut self) -> Result<(), AllocError>
        ensures ok { OnOk result (self.new ≡ record self.old { spare = self.old.spare + 1 }) }
        ensures err { OnErr result (self.new ≡ self.old) }
    {
        self.items.reserve(1)?;
        self.links.grow()?;
        self.items.push_reserved(None);
        Ok(())
    }

    /// Makes room for at least `items` more items in all; room that exists already counts.
    ///
    /// It returns `AllocError` if memory for them runs out. Then there may be more room than before, but never less.
    /// The lists don't change in either case.
    pub fn reserve(&mut self, items: usize) -> Result<(), AllocError>
        ensures lists { self.new.lists ≡ self.old.lists }
        ensures spare { self.old.spare ≤ self.new.spare }
        ensures room { OnOk result (items ≤ self.new.spare) }
    {
        while self.spare() < items {
            self.grow()?;
        }
        Ok(())
    }

    /// Adds an empty list after the others, and returns its number, which is the number of lists before the call.
    ///
    /// It returns `AllocError` if memory runs out, and then nothing changes. It neither needs nor makes room for items.
    pub fn new_chain(&mut self) -> Result<usize, AllocError>
        ensures number { IfOk result (λ n. n ≡ length self.old.lists) }
        ensures ok { OnOk result (self.new ≡ record self.old { lists = self.old.lists ++ [] ∷ [] }) }
        ensures err { OnErr result (self.new ≡ self.old) }
    {
        let number = self.links.count();
        self.links.add_list()?;
        Ok(number)
    }

    /// Adds an item at the end of a list, in constant time. It uses room for one item.
    pub fn push_back(&mut self, chain: usize, item: T)
        requires chain { chain < length self.old.lists }
        requires room { 0 < self.old.spare }
        ensures { IsPushed chain item self.old self.new }
    {
        let node = self.links.take_free(chain);
        self.items[node] = Some(item);
    }

    /// Removes and returns the first item of a list that isn't empty, in constant time. Its room is free again.
    pub fn take_first(&mut self, chain: usize) -> T
        requires chain { chain < length self.old.lists }
        requires some { 0 < length (get_or self.old.lists chain []) }
        ensures { IsTaken chain result self.old self.new }
    {
        let node = self.links.free_first(chain);
        self.items[node].take().unwrap()
    }

    /// Moves the items of list `b` to the end of another list `a`, and leaves `b` empty.
    ///
    /// No item is copied, so it takes constant time for lists of any length.
    pub fn concat(&mut self, a: usize, b: usize)
        requires a { a < length self.old.lists }
        requires b { b < length self.old.lists }
        requires differ { a ≢ b }
        ensures { self.new ≡ concatenated a b self.old }
    {
        self.links.concat(a, b);
    }

    /// Moves the items of list `chain` of another arena to the end of list `into` of this one, and leaves that list
    /// empty.
    ///
    /// This arena must have room for the items. Their room in the other arena is free again. The call takes time in
    /// proportion to their number.
    pub fn move_all(&mut self, into: usize, from: &mut Chains<T>, chain: usize)
        requires into { into < length self.old.lists }
        requires chain { chain < length from.old.lists }
        requires room { length (get_or from.old.lists chain []) ≤ self.old.spare }
        ensures lists { self.new.lists ≡ slice_set self.old.lists into (get_or self.old.lists into [] ++ get_or from.old.lists chain []) }
        ensures emptied { from.new.lists ≡ slice_set from.old.lists chain [] }
        ensures spare { self.new.spare + length (get_or from.old.lists chain []) ≡ self.old.spare }
        ensures freed { from.new.spare ≡ from.old.spare + length (get_or from.old.lists chain []) }
    {
        while from.items(chain) > 0 {
            let item = from.take_first(chain);
            self.push_back(into, item);
        }
    }

    /// Lends the items of a list, in order. It allocates no memory.
    pub fn walk(&self, chain: usize) -> Walk<'_, T>
        requires { chain < length self.now.lists }
        ensures rest { result ≡ get_or self.now.lists chain [] }
        ensures fits { length result < 2 ^ 64 }
    {
        Walk {
            nodes: self.links.walk(chain),
            items: self.items.as_slice(),
        }
    }

    /// The number of lists.
    pub fn count(&self) -> usize
        ensures { result ≡ length self.now.lists }
    {
        self.links.count()
    }

    /// The number of items of a list, in constant time.
    pub fn items(&self, chain: usize) -> usize
        requires { chain < length self.now.lists }
        ensures { result ≡ length (get_or self.now.lists chain []) }
    {
        self.links.len(chain)
    }

    /// The number of further items for which there is room.
    pub fn spare(&self) -> usize
        ensures { result ≡ self.now.spare }
    {
        self.links.spare()
    }
}
