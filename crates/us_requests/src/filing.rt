ghost use Rattle.std.specs.Prelude.{◌≡◌, [], ◌++◌, OnOk};
ghost use Rattle.us_requests.specs.Outcomes.{counted, added, HasRoom};

use crate::asks::Counts;
use crate::outcomes::Outcome;
use crate::placed::PlacedAsk;
use std::alloc::{AllocError, Global};

/// Requests of a trace as they are filed.
#[derive(Drop)]
pub(crate) struct Filed {
    /// The asks in the order of the requests.
    pub(crate) asks: Vec<PlacedAsk>,
    /// The other requests.
    pub(crate) counts: Counts,
}

impl Filed {
    /// No requests.
    pub(crate) fn new(alloc: Global) -> Filed
        ensures asks { result.asks.items ≡ [] }
        ensures counts { result.counts ≡ record { unknown = 0; not_requestable = 0; late = 0 } }
    {
        Filed {
            asks: Vec::new(alloc),
            counts: Counts {
                unknown: 0,
                not_requestable: 0,
                late: 0,
            },
        }
    }

    /// Files one more request, as what becomes of it.
    pub(crate) fn add(&mut self, outcome: Outcome) -> Result<(), AllocError>
        requires { HasRoom self.old.counts }
        ensures counts { OnOk result (self.new.counts ≡ counted outcome self.old.counts) }
        ensures asks { OnOk result (self.new.asks.items ≡ self.old.asks.items ++ added outcome) }
    {
        match outcome {
            Outcome::Unknown => self.counts.unknown += 1,
            Outcome::NotRequestable => self.counts.not_requestable += 1,
            Outcome::Late => self.counts.late += 1,
            Outcome::Asked(ask) => self.asks.push(ask)?,
        }
        Ok(())
    }
}
