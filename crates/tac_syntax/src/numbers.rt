//! Lists of numbers of fields.

ghost use Rattle.std.specs.Prelude.{◌≡◌, ◌<◌, ◌++◌, ◌∷◌, [], length, slice_index, OnOk, OnErr, IfErr};
ghost use Rattle.std.specs.List.{AllByRecursion};
ghost use Rattle.tac_syntax.specs.Grammar.{IsNumber};

use std::alloc::{AllocFailed, Global};
use std::marker::Model;

/// Numbers from 0 to 255, such as the fields of a key or of a sink, in their order.
#[derive(Debug, Drop)]
pub struct Numbers {
    held: Vec<u32>,
}

impl Model for Numbers {
    ghost use Rattle.std.specs.Prelude.{List, ℕ};
    ghost use Rattle.std.specs.List.{AllByRecursion};
    ghost use Rattle.tac_syntax.specs.Grammar.{IsNumber};

    ghost Value = { List ℕ };

    ghost view = { λ n. n.held.items };

    ghost invariant = { λ n. AllByRecursion IsNumber n.held.items };
}

impl Numbers {
    pub fn new(alloc: Global) -> Numbers
        ensures { result ≡ [] }
    {
        Numbers {
            held: Vec::new(alloc),
        }
    }

    pub fn push(&mut self, number: u32) -> Result<(), AllocFailed<u32>>
        requires { IsNumber number }
        ensures ok { OnOk result (self.new ≡ self.old ++ number ∷ []) }
        ensures err { OnErr result (self.new ≡ self.old) }
        ensures handed_back { IfErr result (λ e. e.value ≡ number) }
    {
        self.held.push(number)
    }

    pub fn len(&self) -> usize
        ensures { result ≡ length self.now }
    {
        self.held.len()
    }

    pub fn at(&self, n: usize) -> u32
        requires { n < length self.now }
        ensures at { result ≡ slice_index self.now n }
        ensures number { IsNumber result }
    {
        self.held[n]
    }

    pub fn numbers(&self) -> &[u32]
        ensures list { result.now ≡ self.now }
        ensures numbers { AllByRecursion IsNumber self.now }
    {
        &self.held
    }
}
