//! The notes on the way through a body.

ghost use Rattle.std.specs.Prelude.{◌≡◌, ◌≤◌};
ghost use Rattle.pact_record.specs.declared.records.TheConstants.{MAX_FIELDS};
ghost use Rattle.pact_record.specs.FieldSets.{has_field};
ghost use Rattle.tac_flow.specs.Gathering.{noted_of, nothing, decided, emitted};
ghost use Rattle.tac_flow.specs.Results as results;
ghost use Rattle.tac_flow.specs.Views.{held_of};

use crate::bases::same_side;
use crate::facts::RecordFacts;
use pact_record::Fields;
use tac_syntax::Side;

/// What decided branches, and about the records that were emitted: the fields in which one may differ from its base,
/// those in which each may, what these depend on, and whether each base is on the left, and on the right.
#[derive(Clone, Copy)]
pub(crate) struct Noted {
    pub(crate) writes: Fields,
    pub(crate) common: Fields,
    pub(crate) depends: Fields,
    pub(crate) control: Fields,
    pub(crate) all_left: bool,
    pub(crate) all_right: bool,
}

impl Noted {
    pub(crate) fn nothing(fields: u32) -> Noted
        requires { fields ≤ MAX_FIELDS }
        ensures { noted_of result ≡ nothing fields }
    {
        Noted {
            writes: Fields::empty(),
            common: Fields::all(fields),
            depends: Fields::empty(),
            control: Fields::empty(),
            all_left: true,
            all_right: true,
        }
    }

    pub(crate) fn decided(&mut self, deps: Fields)
        ensures { noted_of self.new ≡ decided (has_field deps) (noted_of self.old) }
    {
        self.control = self.control.union(deps);
    }

    pub(crate) fn emitted(&mut self, row: &RecordFacts)
        ensures { noted_of self.new ≡ emitted (held_of row.now) (noted_of self.old) }
    {
        self.writes = self.writes.union(row.changed);
        self.common = self.common.meet(row.changed);
        self.depends = self.depends.union(row.depends);
        let side = row.base.side();
        self.all_left = self.all_left && is_on(Side::Left, side);
        self.all_right = self.all_right && is_on(Side::Right, side);
    }
}

fn is_on(side: Side, other: Option<Side>) -> bool
    ensures { result ≡ results.is_on side other }
{
    match other {
        Some(other) => same_side(side, other),
        None => false,
    }
}
