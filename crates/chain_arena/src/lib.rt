//! An arena of linked lists. Many lists share one vector of items, and are linked by the indices in another vector.
//!
//! The value of a `Chains<T>` is a list of lists, which are numbered, and `spare`, the number of further items for
//! which there is room. Only two calls allocate memory: `reserve` makes room, and `new_chain` adds a list. Within the
//! room, the other calls need no memory: they add an item to a list, join two lists, or move a list's items to another
//! arena. So none of these can fail, and none is left half done. Adding, removing and joining take constant time, for
//! lists of any length. Moving takes time in proportion to the length of the list. `Walk` lends the items of a list in
//! order.
//!
//! Each node has a place for an item and leads to the next node. It is at one place of one list, or of the free list,
//! from which `push_back` takes nodes and to which `take_first` returns them. Three layers ensure this. `joins`
//! represents a chain as its first node, its last node and a count, and joins two chains. `links` keeps lists of node
//! numbers, without items. `arenas` adds the items.
#![tactic(auto)]

pub mod arenas;
mod joins;
mod links;
pub mod walks;

pub use arenas::Chains;
pub use walks::Walk;
