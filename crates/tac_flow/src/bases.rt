//! What a record of a register began as, and what a value is known to equal.

ghost use Rattle.std.specs.Prelude.{◌≡◌};
ghost use Rattle.tac_flow.specs.Known as known;
ghost use Rattle.tac_flow.specs.Known.{same_base, same_origin, side_of, names_one, met, joined_base, joined_origin, dropped_base, dropped_origin, names_loop};

use tac_syntax::Side;

/// The record that a register's record began as.
#[derive(Clone, Copy, PartialEq, Eq)]
pub(crate) enum Base {
    /// The first record. For a kind without groups it is the only one.
    First,
    /// The one bound to a loop's name.
    Bound { name: u32, side: Side },
    /// Some record of a side.
    Any { side: Side },
    Nowhere,
}

/// What a value is known to equal.
#[derive(Clone, Copy, PartialEq, Eq)]
pub(crate) enum Origin {
    Field { base: Base, field: u32 },
    Key { at: u32 },
    Unknown,
}

pub(crate) fn same_side(a: Side, b: Side) -> bool
    ensures { result ≡ known.same_side a b }
{
    match a {
        Side::Left => match b {
            Side::Left => true,
            Side::Right => false,
        },
        Side::Right => match b {
            Side::Left => false,
            Side::Right => true,
        },
    }
}

impl Base {
    pub(crate) fn is(self, other: Base) -> bool
        ensures { result ≡ same_base self other }
    {
        match self {
            Base::First => match other {
                Base::First => true,
                _ => false,
            },
            Base::Bound { name, side } => match other {
                Base::Bound { name: n, side: s } => name == n && same_side(side, s),
                _ => false,
            },
            Base::Any { side } => match other {
                Base::Any { side: s } => same_side(side, s),
                _ => false,
            },
            Base::Nowhere => match other {
                Base::Nowhere => true,
                _ => false,
            },
        }
    }

    pub(crate) fn side(self) -> Option<Side>
        ensures { result ≡ side_of self }
    {
        match self {
            Base::First => Some(Side::Left),
            Base::Bound { side, .. } => Some(side),
            Base::Any { side } => Some(side),
            Base::Nowhere => None,
        }
    }

    pub(crate) fn names_one(self) -> bool
        ensures { result ≡ names_one self }
    {
        match self {
            Base::First => true,
            Base::Bound { .. } => true,
            Base::Any { .. } => false,
            Base::Nowhere => false,
        }
    }

    pub(crate) fn join(self, other: Base) -> Base
        ensures { result ≡ joined_base self other }
    {
        if self.is(other) {
            self
        } else {
            meet(self.side(), other.side())
        }
    }

    pub(crate) fn drop_name(self, name: u32) -> Base
        ensures { result ≡ dropped_base name self }
    {
        match self {
            Base::First => Base::First,
            Base::Bound { name: n, side } => { if n == name { Base::Any { side } } else { self } }
            Base::Any { side } => Base::Any { side },
            Base::Nowhere => Base::Nowhere,
        }
    }

    fn names_loop(self, name: u32) -> bool
        ensures { result ≡ names_loop name self }
    {
        match self {
            Base::First => false,
            Base::Bound { name: n, .. } => n == name,
            Base::Any { .. } => false,
            Base::Nowhere => false,
        }
    }
}

fn meet(a: Option<Side>, b: Option<Side>) -> Base
    ensures { result ≡ met a b }
{
    match a {
        Some(side) => match b {
            Some(other) => {
                if same_side(side, other) {
                    Base::Any { side }
                } else {
                    Base::Nowhere
                }
            }
            None => Base::Nowhere,
        },
        None => Base::Nowhere,
    }
}

impl Origin {
    pub(crate) fn is(self, other: Origin) -> bool
        ensures { result ≡ same_origin self other }
    {
        match self {
            Origin::Field { base, field } => match other {
                Origin::Field { base: b, field: k } => base.is(b) && field == k,
                _ => false,
            },
            Origin::Key { at } => match other {
                Origin::Key { at: n } => at == n,
                _ => false,
            },
            Origin::Unknown => match other {
                Origin::Unknown => true,
                _ => false,
            },
        }
    }

    pub(crate) fn join(self, other: Origin) -> Origin
        ensures { result ≡ joined_origin self other }
    {
        if self.is(other) {
            self
        } else {
            Origin::Unknown
        }
    }

    pub(crate) fn drop_name(self, name: u32) -> Origin
        ensures { result ≡ dropped_origin name self }
    {
        match self {
            Origin::Field { base, field } => {
                if base.names_loop(name) {
                    Origin::Unknown
                } else {
                    Origin::Field { base, field }
                }
            }
            Origin::Key { at } => Origin::Key { at },
            Origin::Unknown => Origin::Unknown,
        }
    }
}
