ghost use Rattle.std.specs.Prelude.{◌≡◌};
ghost use Rattle.us_lawful.specs.Regions as spec;

use std::marker::Model;

/// The SID that addresses all modems (the standard's).
pub(crate) const BROADCAST: u64 = 0x3fff;

/// The IUC of minislots for requests (the standard's).
pub(crate) const REQUEST: u64 = 1;

/// The IUC of Initial Maintenance (the standard's).
pub(crate) const INITIAL_MAINTENANCE: u64 = 3;

/// Minislots side by side with one owner: from the start of a MAP, so many, a SID and an IUC.
#[derive(Clone, Copy)]
pub(crate) struct Region {
    pub(crate) start: u64,
    pub(crate) slots: u64,
    pub(crate) sid: u64,
    pub(crate) iuc: u64,
}

impl Model for Region {
    ghost Value = { spec.Region };

    ghost view = { λ s. record { start = s.start; slots = s.slots; sid = s.sid; iuc = s.iuc } };

    ghost inverse = { λ s. record { start = s.start; slots = s.slots; sid = s.sid; iuc = s.iuc } };
}

impl Region {
    /// The minislot behind its last one.
    pub(crate) fn end(self) -> u128
        ensures { result ≡ spec.end_of self }
    {
        u128::from(self.start) + u128::from(self.slots)
    }

    /// Whether it has this minislot.
    pub(crate) fn covers(self, at: u128) -> bool
        ensures { result ≡ spec.covers at self }
    {
        u128::from(self.start) <= at && at < self.end()
    }

    /// Whether it is the same.
    pub(crate) fn is_same(self, other: Region) -> bool
        ensures { result ≡ spec.is_same self other }
    {
        self.start == other.start
            && self.slots == other.slots
            && self.sid == other.sid
            && self.iuc == other.iuc
    }
}
