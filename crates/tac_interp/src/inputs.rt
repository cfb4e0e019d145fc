//! The inputs that a function is called for.

ghost use Rattle.std.specs.Prelude.{◌≡◌, ◌<◌, length, get_or};
ghost use Rattle.pact_record.specs.declared.values.Value.TheVariants.{Null};
ghost use Rattle.tac_syntax.specs.declared.statements.LoopList.TheVariants.{Group};
ghost use Rattle.tac_syntax.specs.Call.{first_record, input_record, key_values, left_record, right_record, rows_of};
ghost use Rattle.tac_syntax.specs.CallInputs.{IsOfGroup, IsOfPair, IsOfRecord};
ghost use Rattle.tac_interp.specs.Machine.{HasKeyFields, input_of, record_of};
ghost use Rattle.tac_interp.specs.Registers.{lent_of};

use pact_record::{Keys, Record, Value};
use tac_syntax::LoopList;

/// The input of a call, by the function's kind.
#[derive(Drop)]
pub(crate) enum Input<'a> {
    /// The record of a Map.
    Record(&'a Record),
    /// The two records of a Match or a Cross.
    Pair(&'a Record, &'a Record),
    /// The key of a Reduce, one record that has its values, and all that have them.
    Group {
        keys: &'a Keys,
        one: &'a Record,
        group: &'a [Record],
    },
    /// The key of a side of a CoGroup, one record of that side, and the records of either side that
    /// have its key values.
    Groups {
        keys: &'a Keys,
        one: &'a Record,
        left: &'a [Record],
        right: &'a [Record],
    },
}

impl<'a> Input<'a> {
    /// The record that registers may hold without a copy: only a Map has one.
    pub(crate) fn lent(&self) -> Option<&'a Record>
        ensures { lent_of result ≡ record_of self.now }
    {
        match self {
            Input::Record(row) => Some(*row),
            Input::Pair(..) | Input::Group { .. } | Input::Groups { .. } => None,
        }
    }

    pub(crate) fn record(&self) -> &'a Record
        requires { IsOfRecord (input_of self.now) }
        ensures { result.now ≡ input_record (input_of self.now) }
    {
        match self {
            Input::Record(row) => row,
            Input::Pair(..) | Input::Group { .. } | Input::Groups { .. } => unreachable!(),
        }
    }

    pub(crate) fn left(&self) -> &'a Record
        requires { IsOfPair (input_of self.now) }
        ensures { result.now ≡ left_record (input_of self.now) }
    {
        match self {
            Input::Pair(left, _) => left,
            Input::Record(_) | Input::Group { .. } | Input::Groups { .. } => unreachable!(),
        }
    }

    pub(crate) fn right(&self) -> &'a Record
        requires { IsOfPair (input_of self.now) }
        ensures { result.now ≡ right_record (input_of self.now) }
    {
        match self {
            Input::Pair(_, right) => right,
            Input::Record(_) | Input::Group { .. } | Input::Groups { .. } => unreachable!(),
        }
    }

    /// The first record of a group.
    pub(crate) fn first(&self) -> &'a Record
        requires group { IsOfGroup (input_of self.now) }
        requires some { 0 < length (rows_of (input_of self.now) Group) }
        ensures { result.now ≡ first_record (input_of self.now) }
    {
        match self {
            Input::Group { group, .. } => &group[0],
            Input::Record(_) | Input::Pair(..) | Input::Groups { .. } => unreachable!(),
        }
    }

    /// A key value of a group, or of the groups of either side.
    pub(crate) fn key_value(&self, at: u32) -> &'a Value
        requires at { at < length (key_values (input_of self.now)) }
        requires below { HasKeyFields self.now }
        ensures { result.now ≡ get_or (key_values (input_of self.now)) at Null }
    {
        match self {
            Input::Group { keys, one, .. } | Input::Groups { keys, one, .. } => {
                one.get(keys.at(at))
            }
            Input::Record(_) | Input::Pair(..) => unreachable!(),
        }
    }

    /// The records that a loop goes through.
    pub(crate) fn rows(&self, list: LoopList) -> &'a [Record]
        ensures { result.now ≡ rows_of (input_of self.now) list }
    {
        match self {
            Input::Record(_) | Input::Pair(..) => &[],
            Input::Group { group, .. } => match list {
                LoopList::Group => group,
                LoopList::Left | LoopList::Right => &[],
            },
            Input::Groups { left, right, .. } => match list {
                LoopList::Group => &[],
                LoopList::Left => left,
                LoopList::Right => right,
            },
        }
    }
}
