//! Lists of plans, and whether none is left out.

ghost use Rattle.std.specs.Prelude.{◌≡◌};
ghost use Rattle.plan_enumerate.specs.Listing.{AreEntries};

use crate::entries::Entries;
use std::marker::Model;

/// The plans that `enumerate` came to. The first entry is the plan as written, and each later one comes from an earlier
/// one.
#[derive(Drop)]
pub struct Listed {
    entries: Entries,
    complete: bool,
}

impl Model for Listed {
    ghost use Rattle.plan_enumerate.specs.ListedCode.{coded_listed};
    ghost use Rattle.plan_enumerate.specs.Listing.{AreEntries, ListedPlans};

    ghost Value = { ListedPlans };

    ghost coded = { coded_listed };

    ghost view = { λ l. record { entries = l.entries; complete = l.complete } };

    ghost invariant = { λ l. AreEntries l.entries };
}

impl Listed {
    // A list of these entries.
    pub(crate) fn of(entries: Entries, complete: bool) -> Listed
        requires { AreEntries entries }
        ensures { result ≡ record { entries = entries; complete = complete } }
    {
        Listed { entries, complete }
    }

    pub fn entries(&self) -> &Entries
        ensures entries { result.now ≡ self.now.entries }
        ensures keeps { AreEntries self.now.entries }
    {
        &self.entries
    }

    /// Whether every plan that legal exchanges lead to is listed. If one isn't, the list is as long as it may be.
    pub fn complete(&self) -> bool
        ensures { result ≡ self.now.complete }
    {
        self.complete
    }
}
