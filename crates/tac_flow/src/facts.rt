//! What the analysis knows of a state of a call.

ghost use Rattle.std.specs.Prelude.{◌≡◌, ◌<◌, ◌≤◌, ℕ, length, map, replicate};
ghost use Rattle.tac_syntax.specs.Limits.{value_registers, record_registers};
ghost use Rattle.pact_record.specs.declared.records.TheConstants.{MAX_FIELDS};
ghost use Rattle.pact_record.specs.FieldSets.{has_field};
ghost use Rattle.tac_flow.specs.Known as known;
ghost use Rattle.tac_flow.specs.Steps as steps;
ghost use Rattle.tac_flow.specs.Memos.{dropped_any};
ghost use Rattle.tac_flow.specs.Views.{known_of, held_of, state_of};

use crate::bases::{Base, Origin};
use pact_record::Fields;
use tac_syntax::{RECORD_REGISTERS, VALUE_REGISTERS};

/// What is known of a value: the fields that it depends on, and what it is known to equal.
#[derive(Clone, Copy, PartialEq, Eq)]
pub(crate) struct ValueFacts {
    pub(crate) deps: Fields,
    pub(crate) origin: Origin,
}

/// What is known of a record: what it began as, the fields in which it may differ from that, and the fields that those
/// depend on.
#[derive(Clone, Copy, PartialEq, Eq)]
pub(crate) struct RecordFacts {
    pub(crate) base: Base,
    pub(crate) changed: Fields,
    pub(crate) depends: Fields,
}

/// What is known of each register.
#[derive(Clone, Copy, PartialEq, Eq)]
pub(crate) struct Facts {
    values: [ValueFacts; VALUE_REGISTERS as usize],
    records: [RecordFacts; RECORD_REGISTERS as usize],
}

impl ValueFacts {
    pub(crate) fn constant() -> ValueFacts
        ensures { known_of result ≡ steps.constant }
    {
        ValueFacts {
            deps: Fields::empty(),
            origin: Origin::Unknown,
        }
    }

    pub(crate) fn join(&self, other: &ValueFacts) -> ValueFacts
        ensures { known_of result ≡ known.joined_known (known_of self.now) (known_of other.now) }
    {
        ValueFacts {
            deps: self.deps.union(other.deps),
            origin: self.origin.join(other.origin),
        }
    }

    fn drop_name(&self, name: u32) -> ValueFacts
        ensures { known_of result ≡ known.dropped_known name (known_of self.now) }
    {
        ValueFacts {
            deps: self.deps,
            origin: self.origin.drop_name(name),
        }
    }
}

impl RecordFacts {
    pub(crate) fn join(&self, fields: u32, other: &RecordFacts) -> RecordFacts
        requires { fields ≤ MAX_FIELDS }
        ensures { held_of result ≡ known.joined_held fields (held_of self.now) (held_of other.now) }
    {
        let base = self.base.join(other.base);
        let changed = changed_from(fields, base, self.changed.union(other.changed));
        let missing = changed
            .minus(self.changed)
            .union(changed.minus(other.changed));
        RecordFacts {
            base,
            changed,
            depends: self.depends.union(other.depends).union(missing),
        }
    }

    fn drop_name(&self, name: u32) -> RecordFacts
        ensures { held_of result ≡ known.dropped_held name (held_of self.now) }
    {
        RecordFacts {
            base: self.base.drop_name(name),
            changed: self.changed,
            depends: self.depends,
        }
    }
}

// Every field if there is no base.
fn changed_from(fields: u32, base: Base, set: Fields) -> Fields
    requires { fields ≤ MAX_FIELDS }
    ensures { has_field result ≡ known.changed_from fields base (has_field set) }
{
    match base {
        Base::Nowhere => Fields::all(fields),
        _ => set,
    }
}

fn join_values(values: &mut [ValueFacts], others: &[ValueFacts])
    requires { length values.old ≡ length others.now }
    ensures is { map known_of values.new ≡ known.joined_values (map known_of values.old) (map known_of others.now) }
    ensures len { length values.new ≡ length values.old }
{
    for n in 0..values.len() {
        values[n] = values[n].join(&others[n]);
    }
}

fn join_records(fields: u32, records: &mut [RecordFacts], others: &[RecordFacts])
    requires fields { fields ≤ MAX_FIELDS }
    requires len { length records.old ≡ length others.now }
    ensures is { map held_of records.new ≡ known.joined_records fields (map held_of records.old) (map held_of others.now) }
    ensures len { length records.new ≡ length records.old }
{
    for n in 0..records.len() {
        records[n] = records[n].join(fields, &others[n]);
    }
}

fn drop_values(name: u32, values: &mut [ValueFacts])
    ensures is { map known_of values.new ≡ known.dropped_values name (map known_of values.old) }
    ensures len { length values.new ≡ length values.old }
{
    for n in 0..values.len() {
        values[n] = values[n].drop_name(name);
    }
}

fn drop_records(name: u32, records: &mut [RecordFacts])
    ensures is { map held_of records.new ≡ known.dropped_records name (map held_of records.old) }
    ensures len { length records.new ≡ length records.old }
{
    for n in 0..records.len() {
        records[n] = records[n].drop_name(name);
    }
}

impl Facts {
    pub(crate) fn start(fresh: RecordFacts) -> Facts
        ensures values { map known_of result.values ≡ replicate value_registers steps.constant }
        ensures records { map held_of result.records ≡ replicate record_registers (held_of fresh) }
    {
        Facts {
            values: [ValueFacts::constant(); VALUE_REGISTERS as usize],
            records: [fresh; RECORD_REGISTERS as usize],
        }
    }

    pub(crate) fn join(&mut self, fields: u32, other: &Facts)
        requires { fields ≤ MAX_FIELDS }
        ensures { state_of self.new ≡ known.joined fields (state_of self.old) (state_of other.now) }
    {
        join_values(&mut self.values, &other.values);
        join_records(fields, &mut self.records, &other.records);
    }

    pub(crate) fn drop_name(&mut self, name: u32)
        ensures { state_of self.new ≡ known.dropped name (state_of self.old) }
    {
        drop_values(name, &mut self.values);
        drop_records(name, &mut self.records);
    }

    pub(crate) fn drop_any(&mut self, name: Option<u32>)
        ensures { state_of self.new ≡ dropped_any name (state_of self.old) }
    {
        match name {
            Some(name) => self.drop_name(name),
            None => {}
        }
    }

    pub(crate) fn value(&self, n: u32) -> ValueFacts
        requires { n < value_registers }
        ensures { known_of result ≡ steps.value_at (state_of self.now) n }
    {
        self.values[n as usize]
    }

    pub(crate) fn record(&self, n: u32) -> RecordFacts
        requires { n < record_registers }
        ensures { (fields : ℕ) → held_of result ≡ steps.record_at fields (state_of self.now) n }
    {
        self.records[n as usize]
    }

    pub(crate) fn set_value(&mut self, to: u32, value: ValueFacts)
        requires { to < value_registers }
        ensures { state_of self.new ≡ steps.learns_value (state_of self.old) to (known_of value) }
    {
        self.values[to as usize] = value;
    }

    pub(crate) fn set_record(&mut self, to: u32, row: RecordFacts)
        requires { to < record_registers }
        ensures { state_of self.new ≡ steps.learns_record (state_of self.old) to (held_of row) }
    {
        self.records[to as usize] = row;
    }
}
