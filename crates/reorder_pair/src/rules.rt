//! The rules of exchanges.

ghost use Rattle.std.specs.Prelude.{◌≡◌, ◌↔◌, IfNone, IfSome, IsTrue};
ghost use Rattle.reorder_pair.specs.Rules.{Plays, all_rules, exchange_of, word_of};

use pact_operators::{OpKind, Shape};

/// Which two neighbours of a plan are exchanged. A rule whose name ends in `Up` undoes the exchange of the rule without
/// it.
#[derive(Clone, Copy, Debug, PartialEq, Eq)]
pub enum Rule {
    MapMap,
    MapLeft,
    MapLeftUp,
    MapRight,
    MapRightUp,
    Rotate,
    RotateUp,
    MapReduce,
    MapReduceUp,
    MapCoGroupLeft,
    MapCoGroupLeftUp,
    MapCoGroupRight,
    MapCoGroupRightUp,
    ReduceMatchLeft,
    ReduceMatchLeftUp,
    ReduceMatchRight,
    ReduceMatchRightUp,
}

/// The part that an operator has in an exchange.
#[derive(Clone, Copy, Debug, PartialEq, Eq)]
pub enum Role {
    /// A Map.
    Mapping,
    /// A Match or a Cross.
    Pairing,
    /// A Reduce.
    Grouping,
    /// A CoGroup.
    CoGrouping,
    /// A Match.
    Matching,
}

/// What a rule exchanges.
#[derive(Clone, Copy, Debug, PartialEq, Eq)]
pub struct Exchange {
    pub upper: Role,
    pub lower: Role,
    pub shape: Shape,
}

// In the order of the variants.
const RULES: [Rule; 17] = [
    Rule::MapMap,
    Rule::MapLeft,
    Rule::MapLeftUp,
    Rule::MapRight,
    Rule::MapRightUp,
    Rule::Rotate,
    Rule::RotateUp,
    Rule::MapReduce,
    Rule::MapReduceUp,
    Rule::MapCoGroupLeft,
    Rule::MapCoGroupLeftUp,
    Rule::MapCoGroupRight,
    Rule::MapCoGroupRightUp,
    Rule::ReduceMatchLeft,
    Rule::ReduceMatchLeftUp,
    Rule::ReduceMatchRight,
    Rule::ReduceMatchRightUp,
];

impl Role {
    /// Whether operators of the kind have this part.
    pub fn is_played_by(self, kind: OpKind) -> bool
        ensures { IsTrue result ↔ Plays self kind }
    {
        match self {
            Role::Mapping => kind == OpKind::Map,
            Role::Pairing => kind == OpKind::Match || kind == OpKind::Cross,
            Role::Grouping => kind == OpKind::Reduce,
            Role::CoGrouping => kind == OpKind::CoGroup,
            Role::Matching => kind == OpKind::Match,
        }
    }
}

impl Rule {
    /// All rules, in the order of the variants.
    pub fn all() -> &'static [Rule]
        ensures { result.now ≡ all_rules }
    {
        &RULES
    }

    /// The rule's word in certificates.
    pub fn word(self) -> &'static str
        ensures { result.now ≡ word_of self }
    {
        match self {
            Rule::MapMap => "map-map",
            Rule::MapLeft => "map-left",
            Rule::MapLeftUp => "map-left-up",
            Rule::MapRight => "map-right",
            Rule::MapRightUp => "map-right-up",
            Rule::Rotate => "rotate",
            Rule::RotateUp => "rotate-up",
            Rule::MapReduce => "map-reduce",
            Rule::MapReduceUp => "map-reduce-up",
            Rule::MapCoGroupLeft => "map-cogroup-left",
            Rule::MapCoGroupLeftUp => "map-cogroup-left-up",
            Rule::MapCoGroupRight => "map-cogroup-right",
            Rule::MapCoGroupRightUp => "map-cogroup-right-up",
            Rule::ReduceMatchLeft => "reduce-match-left",
            Rule::ReduceMatchLeftUp => "reduce-match-left-up",
            Rule::ReduceMatchRight => "reduce-match-right",
            Rule::ReduceMatchRightUp => "reduce-match-right-up",
        }
    }

    /// The rule with the word, or none if no rule has it.
    pub fn of_word(word: &[u8]) -> Option<Rule>
        ensures some { IfSome result (λ rule. word_of rule ≡ word.now) }
        ensures none { IfNone result ((rule : Rule) → word_of rule ≡ word.now → ⊥) }
    {
        for rule in &RULES {
            if rule.word().as_bytes() == word {
                return Some(*rule);
            }
        }
        None
    }

    /// What the rule exchanges: the upper and the lower operator, and how their trees change.
    pub fn exchange(self) -> Exchange
        ensures { result ≡ exchange_of self }
    {
        let (upper, lower, shape) = match self {
            Rule::MapMap => (Role::Mapping, Role::Mapping, Shape::OneOverOne),
            Rule::MapLeft => (Role::Mapping, Role::Pairing, Shape::IntoLeft),
            Rule::MapLeftUp => (Role::Pairing, Role::Mapping, Shape::OutOfLeft),
            Rule::MapRight => (Role::Mapping, Role::Pairing, Shape::IntoRight),
            Rule::MapRightUp => (Role::Pairing, Role::Mapping, Shape::OutOfRight),
            Rule::Rotate => (Role::Pairing, Role::Pairing, Shape::ToRight),
            Rule::RotateUp => (Role::Pairing, Role::Pairing, Shape::ToLeft),
            Rule::MapReduce => (Role::Mapping, Role::Grouping, Shape::OneOverOne),
            Rule::MapReduceUp => (Role::Grouping, Role::Mapping, Shape::OneOverOne),
            Rule::MapCoGroupLeft => (Role::Mapping, Role::CoGrouping, Shape::IntoLeft),
            Rule::MapCoGroupLeftUp => (Role::CoGrouping, Role::Mapping, Shape::OutOfLeft),
            Rule::MapCoGroupRight => (Role::Mapping, Role::CoGrouping, Shape::IntoRight),
            Rule::MapCoGroupRightUp => (Role::CoGrouping, Role::Mapping, Shape::OutOfRight),
            Rule::ReduceMatchLeft => (Role::Grouping, Role::Matching, Shape::IntoLeft),
            Rule::ReduceMatchLeftUp => (Role::Matching, Role::Grouping, Shape::OutOfLeft),
            Rule::ReduceMatchRight => (Role::Grouping, Role::Matching, Shape::IntoRight),
            Rule::ReduceMatchRightUp => (Role::Matching, Role::Grouping, Shape::OutOfRight),
        };
        Exchange {
            upper,
            lower,
            shape,
        }
    }
}
