//! The buckets of a hash table.

ghost use Rattle.std.specs.Prelude.{◌≡◌, ◌<◌, ◌++◌, ◌∷◌, [], ℕ, None, Some, cond, get_or, length, nat_eq, OnOk};
ghost use Rattle.indexmap.specs.IndexMap.{get};

use indexmap::IndexMap;
use pact_record::OutOfMemory;
use std::alloc::Global;

/// Numbers of groups by the hash codes of their keys. A bucket has the groups with one code, as a linked list from the
/// last one to the first.
#[derive(Drop)]
pub(crate) struct Buckets {
    // the last group, by code
    pub(crate) heads: IndexMap<u64, usize>,
    // by group: the previous one in its bucket
    pub(crate) nexts: Vec<Option<usize>>,
}

impl Buckets {
    pub(crate) fn new(alloc: Global) -> Buckets
        ensures heads { (c : ℕ) → get nat_eq result.heads c ≡ None }
        ensures nexts { result.nexts.items ≡ [] }
    {
        Buckets {
            heads: IndexMap::new(alloc),
            nexts: Vec::new(alloc),
        }
    }

    /// The last group in the bucket of this code.
    pub(crate) fn head(&self, code: u64) -> Option<usize>
        ensures { result ≡ get nat_eq self.now.heads code }
    {
        self.heads.get(&code).copied()
    }

    /// The previous group in this group's bucket.
    pub(crate) fn next(&self, n: usize) -> Option<usize>
        requires { n < length self.now.nexts.items }
        ensures { result ≡ get_or self.now.nexts.items n None }
    {
        self.nexts[n]
    }

    /// Adds one more group to the bucket of this code. After an out-of-memory error the contents of the buckets are
    /// unspecified.
    pub(crate) fn add(&mut self, code: u64) -> Result<(), OutOfMemory>
        ensures heads { OnOk result ((c : ℕ) → get nat_eq self.new.heads c ≡ cond (nat_eq code c) (Some (length self.old.nexts.items)) (get nat_eq self.old.heads c)) }
        ensures nexts { OnOk result (self.new.nexts.items ≡ self.old.nexts.items ++ get nat_eq self.old.heads code ∷ []) }
    {
        let n = self.nexts.len();
        let next = self.heads.insert(code, n)?;
        self.nexts.push(next)?;
        Ok(())
    }
}
