ghost use Rattle.std.specs.Prelude.{◌≡◌, ◌<◌, ◌↔◌, ◌++◌, ◌∷◌, [], length, slice_get, slice_index, option_map, IfSome, OnOk, OnErr, IfErr, IsTrue};
ghost use Rattle.pact_outside.specs.Outside.{file_named};
ghost use Rattle.pact_outside.specs.Memory.{bytes_at, is_listed};

use crate::NamedFile;
use std::alloc::{AllocFailed, Global};
use std::marker::Model;

/// Files in memory, in a fixed order. Of two files with the same name the first counts.
#[derive(Debug, Drop)]
pub struct MemFiles {
    held: Vec<NamedFile>,
}

impl Model for MemFiles {
    ghost use Rattle.std.specs.Prelude.{List};
    ghost use Rattle.pact_outside.specs.declared.files.NamedFile.{NamedFile};

    ghost Value = { List NamedFile };

    ghost view = { λ f. f.held.items };
}

impl MemFiles {
    pub fn new(alloc: Global) -> MemFiles
        ensures { result ≡ [] }
    {
        MemFiles {
            held: Vec::new(alloc),
        }
    }

    pub fn push(&mut self, file: NamedFile) -> Result<(), AllocFailed<NamedFile>>
        ensures ok { OnOk result (self.new ≡ self.old ++ file ∷ []) }
        ensures err { OnErr result (self.new ≡ self.old) }
        ensures handed_back { IfErr result (λ e. e.value ≡ file) }
    {
        self.held.push(file)
    }

    pub fn len(&self) -> usize
        ensures { result ≡ length self.now }
    {
        self.held.len()
    }

    pub fn is_empty(&self) -> bool
        ensures { IsTrue result ↔ (self.now ≡ []) }
    {
        self.held.is_empty()
    }

    pub fn at(&self, place: usize) -> &NamedFile
        requires { place < length self.now }
        ensures { slice_get self.now place ≡ Some result.now }
    {
        &self.held[place]
    }

    /// The place of the first file with that name.
    pub fn find(&self, name: &[u8]) -> Option<usize>
        ensures within { IfSome result (λ place. place < length self.now) }
        ensures first { option_map (bytes_at self.now) result ≡ file_named self.now name.now }
    {
        for (place, file) in self.held.iter().enumerate() {
            if file.name.bytes() == name {
                return Some(place);
            }
        }
        None
    }
}

/// Numbers of calls, counted from 1.
#[derive(Debug, Drop)]
pub struct FailList {
    held: Vec<u64>,
}

impl Model for FailList {
    ghost use Rattle.std.specs.Prelude.{List, ℕ};

    ghost Value = { List ℕ };

    ghost view = { λ f. f.held.items };
}

impl FailList {
    pub fn new(alloc: Global) -> FailList
        ensures { result ≡ [] }
    {
        FailList {
            held: Vec::new(alloc),
        }
    }

    pub fn push(&mut self, call: u64) -> Result<(), AllocFailed<u64>>
        ensures ok { OnOk result (self.new ≡ self.old ++ call ∷ []) }
        ensures err { OnErr result (self.new ≡ self.old) }
        ensures handed_back { IfErr result (λ e. e.value ≡ call) }
    {
        self.held.push(call)
    }

    pub fn len(&self) -> usize
        ensures { result ≡ length self.now }
    {
        self.held.len()
    }

    pub fn is_empty(&self) -> bool
        ensures { IsTrue result ↔ (self.now ≡ []) }
    {
        self.held.is_empty()
    }

    pub fn at(&self, place: usize) -> u64
        requires { place < length self.now }
        ensures { result ≡ slice_index self.now place }
    {
        self.held[place]
    }

    pub fn contains(&self, call: u64) -> bool
        ensures { result ≡ is_listed self.now call }
    {
        self.held.contains(&call)
    }
}
