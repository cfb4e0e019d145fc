//! The inputs that a function is called for, and what the analysis learns from each of its statements.

ghost use Rattle.std.specs.Prelude.{◌≡◌, ◌<◌, ◌≤◌, length};
ghost use Rattle.pact_record.specs.declared.records.TheConstants.{MAX_FIELDS};
ghost use Rattle.pact_record.specs.FieldSets.{has_field};
ghost use Rattle.tac_flow.specs.Known.{only_field, either};
ghost use Rattle.tac_flow.specs.Steps as steps;
ghost use Rattle.tac_flow.specs.Views.{known_of, held_of, scope_of};

use crate::bases::{Base, Origin};
use crate::facts::{RecordFacts, ValueFacts};
use pact_record::{Fields, Keys};
use tac_syntax::{Context, Kind, Side};

/// A function's kind and number of fields, in a context. A loop has a place in the table of stored facts if its body
/// has at least `least` statements.
#[derive(Clone, Copy)]
pub(crate) struct Scope {
    pub(crate) kind: Kind,
    pub(crate) fields: u32,
    pub(crate) context: Context,
    pub(crate) least: u32,
}

impl Scope {
    // The key that the records of a side's group share.
    fn keys(&self, side: Side) -> Keys
        ensures { result ≡ steps.keys_of (scope_of self.now) side }
    {
        match self.kind {
            Kind::Map => Keys::new(),
            Kind::Match => Keys::new(),
            Kind::Cross => Keys::new(),
            Kind::Reduce => match side {
                Side::Left => self.context.left_keys,
                Side::Right => Keys::new(),
            },
            Kind::CoGroup => match side {
                Side::Left => self.context.left_keys,
                Side::Right => self.context.right_keys,
            },
        }
    }

    /// The fields with the key value of a position.
    pub(crate) fn key_deps(&self, at: u32) -> Fields
        ensures { has_field result ≡ steps.key_deps (scope_of self.now) at }
    {
        key_field(&self.keys(Side::Left), at).union(key_field(&self.keys(Side::Right), at))
    }

    // The fields of both sides in which a record equals its base.
    fn kept(&self, row: &RecordFacts) -> Fields
        ensures { has_field result ≡ steps.kept_of (scope_of self.now) (held_of row.now) }
    {
        self.context
            .left
            .union(self.context.right)
            .minus(row.changed)
    }

    /// What a register's record depends on, over all of its fields.
    pub(crate) fn all_of_held(&self, row: &RecordFacts) -> Fields
        ensures { has_field result ≡ either (held_of row.now).depends (steps.kept_of (scope_of self.now) (held_of row.now)) }
    {
        row.depends.union(self.kept(row))
    }

    /// The fields in which the records of a side may have values.
    pub(crate) fn fields_of(&self, side: Side) -> Fields
        ensures { has_field result ≡ steps.fields_of (scope_of self.now) side }
    {
        match self.kind {
            Kind::Map => self.context.left,
            Kind::Reduce => self.context.left,
            Kind::CoGroup => match side {
                Side::Left => self.context.left,
                Side::Right => self.context.right,
            },
            Kind::Match => self.context.left.union(self.context.right),
            Kind::Cross => self.context.left.union(self.context.right),
        }
    }

    /// What is known of a record after some field of it was set, whose number depends on these fields.
    pub(crate) fn written_at(
        &self,
        row: &RecordFacts,
        at: &ValueFacts,
        value: &ValueFacts,
    ) -> RecordFacts
        requires { (scope_of self.now).fields ≤ MAX_FIELDS }
        ensures { held_of result ≡ steps.written_at (scope_of self.now) (held_of row.now) (known_of at.now) (known_of value.now) }
    {
        let given = at.deps.union(value.deps).union(self.kept(row));
        RecordFacts {
            base: row.base,
            changed: Fields::all(self.fields),
            depends: row.depends.union(given),
        }
    }

    /// The empty record.
    pub(crate) fn fresh(&self) -> RecordFacts
        requires { (scope_of self.now).fields ≤ MAX_FIELDS }
        ensures { held_of result ≡ steps.fresh (scope_of self.now) }
    {
        let depends = Fields::empty();
        match self.kind {
            Kind::Map => RecordFacts {
                base: Base::First,
                changed: self.context.left,
                depends,
            },
            Kind::Match | Kind::Cross => RecordFacts {
                base: Base::First,
                changed: self.context.left.union(self.context.right),
                depends,
            },
            Kind::Reduce => RecordFacts {
                base: Base::Any { side: Side::Left },
                changed: self.context.left,
                depends,
            },
            Kind::CoGroup => RecordFacts {
                base: Base::Nowhere,
                changed: Fields::all(self.fields),
                depends,
            },
        }
    }

    fn origin_of(&self, base: Base, field: u32) -> Origin
        ensures { result ≡ steps.origin_of (scope_of self.now) base field }
    {
        match base {
            Base::First => key_or(Origin::Field { base, field }, &self.keys(Side::Left), field),
            Base::Bound { side, .. } => {
                key_or(Origin::Field { base, field }, &self.keys(side), field)
            }
            Base::Any { side } => key_or(Origin::Unknown, &self.keys(side), field),
            Base::Nowhere => Origin::Unknown,
        }
    }

    /// What is known of a field of a record.
    pub(crate) fn read_from(&self, row: &RecordFacts, field: u32) -> ValueFacts
        requires { field < MAX_FIELDS }
        ensures { known_of result ≡ steps.read_from (scope_of self.now) (held_of row.now) field }
    {
        if row.changed.has(field) {
            ValueFacts {
                deps: row.depends,
                origin: Origin::Unknown,
            }
        } else {
            ValueFacts {
                deps: only(field),
                origin: self.origin_of(row.base, field),
            }
        }
    }

    // Whether the value is the base's own in that field.
    pub(crate) fn is_copy(&self, base: Base, origin: Origin, field: u32) -> bool
        ensures { result ≡ steps.is_copy (scope_of self.now) base origin field }
    {
        match origin {
            Origin::Field { base: b, field: k } => base.names_one() && b.is(base) && k == field,
            Origin::Key { at } => match base.side() {
                Some(side) => is_key_at(&self.keys(side), at, field),
                None => false,
            },
            Origin::Unknown => false,
        }
    }

    /// What is known of a record after a field of it was set.
    pub(crate) fn written(&self, row: &RecordFacts, field: u32, value: &ValueFacts) -> RecordFacts
        requires { field < MAX_FIELDS }
        ensures { held_of result ≡ steps.written (scope_of self.now) (held_of row.now) field (known_of value.now) }
    {
        if self.is_copy(row.base, value.origin, field) {
            RecordFacts {
                base: row.base,
                changed: row.changed.without(field),
                depends: row.depends,
            }
        } else {
            RecordFacts {
                base: row.base,
                changed: row.changed.with(field),
                depends: row.depends.union(value.deps),
            }
        }
    }
}

// The set of one field.
fn only(field: u32) -> Fields
    requires { field < MAX_FIELDS }
    ensures { has_field result ≡ only_field field }
{
    Fields::empty().with(field)
}

// Whether the list has the field at that position.
fn is_key_at(keys: &Keys, at: u32, field: u32) -> bool
    ensures { result ≡ steps.is_key_at keys.now at field }
{
    at < keys.len() && field == keys.at(at)
}

// The field at that position, if there is one.
fn key_field(keys: &Keys, at: u32) -> Fields
    ensures { has_field result ≡ steps.is_key_at keys.now at }
{
    if at < keys.len() {
        only(keys.at(at))
    } else {
        Fields::empty()
    }
}

// The first position that has the field, or `other` if none has.
fn key_or(other: Origin, keys: &Keys, field: u32) -> Origin
    ensures { result ≡ steps.key_or other 0 keys.now field }
{
    for at in 0..keys.len() {
        if field == keys.at(at) {
            return Origin::Key { at };
        }
    }
    other
}
