//! Instances in lists by the number of their source or operator.

ghost use Rattle.std.specs.Prelude.{◌≡◌, ◌<◌, ◌++◌, ◌∷◌, [], get_or, length, replicate, set, slice_get, IfErr, IfOk, OnErr, OnOk, Some};

use flow_instance::Instance;
use local_strategy::Local;
use pact_record::OutOfMemory;
use std::alloc::{AllocFailed, Global};
use std::marker::Model;
use std::mem;

/// The instances of one source or operator, by worker.
#[derive(Drop)]
pub struct Instances<L: Local> {
    pub(crate) held: Vec<Instance<L>>,
}

impl<L: Local> Model for Instances<L> {
    ghost use Rattle.std.specs.Prelude.{List};
    ghost use Rattle.flow_instance.specs.Instances.{Instance as InstanceData};
    ghost use Rattle.flow_core.specs.LeftCode.{coded_instances};

    ghost Value = { List InstanceData };

    ghost coded = { coded_instances };

    ghost view = { λ i. i.held.items };
}

impl<L: Local> Instances<L> {
    /// The instances of one source or operator, in the order of their workers.
    pub fn from_vec(held: Vec<Instance<L>>) -> Instances<L>
        ensures { result ≡ held.items }
    {
        Instances { held }
    }
}

/// Instances by the number of their source or operator, and then by worker.
#[derive(Drop)]
pub struct InstanceList<L: Local> {
    pub(crate) all: Vec<Instances<L>>,
}

impl<L: Local> Model for InstanceList<L> {
    ghost use Rattle.std.specs.Prelude.{List};
    ghost use Rattle.flow_instance.specs.Instances.{Instance as InstanceData};
    ghost use Rattle.flow_core.specs.LeftCode.{coded_all};

    ghost Value = { List (List InstanceData) };

    ghost coded = { coded_all };

    ghost view = { λ i. i.all.items };
}

impl<L: Local> InstanceList<L> {
    /// The instances of all sources and operators, in the order of their numbers.
    pub fn from_vec(all: Vec<Instances<L>>) -> InstanceList<L>
        ensures { result ≡ all.items }
    {
        InstanceList { all }
    }

    /// A list for `ops` sources and operators, with room for `workers` instances of each. No instance is listed yet.
    pub fn new(alloc: Global, ops: usize, workers: usize) -> Result<InstanceList<L>, OutOfMemory>
        ensures { IfOk result (λ list. list ≡ replicate ops []) }
    {
        let mut all = Vec::with_capacity(alloc, ops)?;
        for _ in 0..ops {
            all.push_reserved(Instances {
                held: Vec::with_capacity(alloc, workers)?,
            });
        }
        Ok(InstanceList { all })
    }

    /// Lists the instance of a source or operator on its next worker. If memory runs out, the instance comes back.
    pub fn push(&mut self, at: usize, instance: Instance<L>) -> Result<(), AllocFailed<Instance<L>>>
        requires at { at < length self.old }
        ensures ok { OnOk result (self.new ≡ set self.old at (get_or self.old at [] ++ instance ∷ [])) }
        ensures err { OnErr result (self.new ≡ self.old) }
        ensures handed_back { IfErr result (λ e. e.value ≡ instance) }
    {
        self.all[at].held.push(instance)
    }

    /// The number of sources and operators.
    pub fn len(&self) -> usize
        ensures { result ≡ length self.now }
    {
        self.all.len()
    }

    /// The instances of a source or operator, by worker.
    pub fn at(&self, at: usize) -> &[Instance<L>]
        requires { at < length self.now }
        ensures { slice_get self.now at ≡ Some result.now }
    {
        &self.all[at].held
    }

    /// Removes and returns the instances of a source or operator, of which none is listed afterwards.
    pub fn take(&mut self, alloc: Global, at: usize) -> Vec<Instance<L>>
        requires { at < length self.old }
        ensures taken { result.items ≡ get_or self.old at [] }
        ensures left { self.new ≡ set self.old at [] }
    {
        mem::replace(&mut self.all[at].held, Vec::new(alloc))
    }
}
