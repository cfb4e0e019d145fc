//! The needed fields of each source and operator of a plan, by their numbers.

ghost use Rattle.std.specs.Prelude.{◌≡◌, ◌<◌};
ghost use Rattle.plan_trees.specs.Plans.{node_limit};
ghost use Rattle.pact_record.specs.FieldSets.{has_field};
ghost use Rattle.prune_fields.specs.Needs.{put};
ghost use Rattle.prune_fields.specs.NeedTables.{needs_in};

use pact_operators::MAX_NODES;
use pact_record::Fields;

/// The needed fields, by number.
#[derive(Clone, Copy)]
pub(crate) struct NeedTable {
    needs: [Fields; MAX_NODES],
}

impl NeedTable {
    /// A table to be filled.
    pub(crate) fn blank() -> NeedTable {
        NeedTable {
            needs: [Fields::empty(); MAX_NODES],
        }
    }

    /// Enters the needed fields of the source or operator with this number.
    pub(crate) fn set(&mut self, at: u32, fields: Fields)
        requires { at < node_limit }
        ensures { needs_in self.new ≡ put at (has_field fields) (needs_in self.old) }
    {
        self.needs[at as usize] = fields;
    }

    /// The needed fields of the source or operator with this number.
    pub(crate) fn at(&self, at: u32) -> Fields
        ensures { has_field result ≡ needs_in self.now at }
    {
        match self.needs.get(at as usize) {
            Some(fields) => *fields,
            None => Fields::empty(),
        }
    }
}
