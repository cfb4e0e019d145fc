ghost use Rattle.std.specs.Prelude.{◌≡◌, ◌<◌, ◌++◌, ◌∷◌, [], length, slice_get, OnOk, OnErr, IfErr};
ghost use Rattle.tac_syntax.specs.ValidLists.{AreValid};

use crate::valids::Valid;
use std::alloc::{AllocFailed, Global};
use std::marker::Model;

/// Valid functions, in the order of their numbers.
#[derive(Debug, Drop)]
pub struct ValidList {
    held: Vec<Valid>,
}

impl Model for ValidList {
    ghost use Rattle.std.specs.Prelude.{List};
    ghost use Rattle.tac_syntax.specs.Valid.{WithFields};
    ghost use Rattle.tac_syntax.specs.ValidLists.{AreValid, coded_valids};

    ghost Value = { List WithFields };

    ghost coded = { coded_valids };

    ghost view = { λ v. v.held.items };

    ghost invariant = { λ v. AreValid v.held.items };
}

impl ValidList {
    pub fn new(alloc: Global) -> ValidList
        ensures { result ≡ [] }
    {
        ValidList {
            held: Vec::new(alloc),
        }
    }

    pub fn push(&mut self, valid: Valid) -> Result<(), AllocFailed<Valid>>
        ensures ok { OnOk result (self.new ≡ self.old ++ valid ∷ []) }
        ensures err { OnErr result (self.new ≡ self.old) }
        ensures handed_back { IfErr result (λ e. e.value ≡ valid) }
    {
        // The call makes it known that the function is valid.
        let _function = valid.function();
        self.held.push(valid)
    }

    pub fn len(&self) -> usize
        ensures { result ≡ length self.now }
    {
        self.held.len()
    }

    pub fn at(&self, n: usize) -> &Valid
        requires { n < length self.now }
        ensures { slice_get self.now n ≡ Some result.now }
    {
        &self.held[n]
    }

    pub fn functions(&self) -> &[Valid]
        ensures list { result.now ≡ self.now }
        ensures valid { AreValid self.now }
    {
        &self.held
    }
}
