ghost use Rattle.std.specs.Prelude.{◌≡◌, ◌↔◌, true, IsTrue};
ghost use Rattle.us_intake.specs.Seats as spec;

use crate::accounts::Part;
use crate::intakes::Intake;
use std::marker::Model;

/// The right to submit some bytes to an intake, and what came of it. The thread that holds it submits with it; the one
/// seat that takes cuts the intake too. A seat that is lost keeps its quota, and then no other is whole any more.
#[derive(Drop)]
pub struct Seat {
    pub(crate) token: atomic_table::Seat<(), Part>,
    pub(crate) quota: u64,
    pub(crate) spent: u64,
    pub(crate) takes: bool,

    // by cluster; a seat that doesn't take keeps no list
    pub(crate) taken: Vec<u64>,
}

impl Model for Seat {
    ghost use Rattle.us_intake.specs.Seats.{Seat};

    ghost Value = { Seat };

    ghost use Rattle.us_intake.specs.Insides.{seat_at, IsInside};

    ghost view = { λ s. seat_at s.token.table_id s.token.me.0 };

    ghost invariant = { λ s. IsInside s.token.table_id s.token.me s.quota s.spent s.takes s.taken.items };
}

impl Seat {
    /// The bytes that may be submitted with it in all.
    pub fn quota(&self) -> u64
        ensures value { result ≡ self.now.quota }
        ensures known { spec.IsSeat self.now }
    {
        self.quota
    }

    /// The bytes that were submitted with it, and with the seats joined into it.
    pub fn spent(&self) -> u64
        ensures value { result ≡ spec.spent self.now }
        ensures known { spec.IsSeat self.now }
    {
        self.spent
    }

    /// Whether it may cut the intake. One seat of an intake does.
    pub fn takes(&self) -> bool
        ensures value { result ≡ self.now.takes }
        ensures known { spec.IsSeat self.now }
    {
        self.takes
    }

    /// Whether it has the whole quota of its intake. Then it is the only seat, and takes.
    pub fn is_whole(&self, intake: &Intake) -> bool
        requires own { self.now.intake ≡ intake.now }
        ensures whole { IsTrue result ↔ spec.IsWhole self.now }
        ensures takes { IsTrue result → self.now.takes ≡ true }
        ensures known { spec.IsSeat self.now }
    {
        self.quota == intake.quota()
    }
}
