ghost use Rattle.std.specs.Prelude.{◌≡◌, true, IfSome};
ghost use Rattle.us_flows.specs.Tables.{rounds_fit};

use crate::backward_rows::BackwardRows;
use crate::late_rows::LateRows;
use crate::named_sids::NamedSids;
use crate::sid_warnings::{push_silent_flows, push_unknown, push_unused};
use crate::tick_warnings::{push_backward, push_late, push_microseconds};
use crate::warnings::Warnings;
use std::alloc::Global;
use us_findings::SeesRequests;
use us_flows::Config;
use us_requests::Request;

/// What was seen in the rows of a trace, beside its configuration and for a run of so many rounds.
#[derive(Drop)]
pub struct SeenRows<'a> {
    config: &'a Config,
    rounds: u32,
    named: NamedSids,
    late: LateRows,
    backward: BackwardRows,
}

impl<'a> SeenRows<'a> {
    /// No row yet.
    pub fn new(alloc: Global, config: &'a Config, rounds: u32) -> SeenRows<'a> {
        SeenRows {
            config,
            rounds,
            named: NamedSids::new(alloc),
            late: LateRows::new(rounds),
            backward: BackwardRows::new(config),
        }
    }

    /// Adds what looks wrong in them, and in the configuration beside them. Want of memory for them is told with those.
    pub fn warn(&self, warnings: &mut Warnings) {
        let config = self.config;
        warnings.lacks_memory |= self.named.lacks_memory;
        push_unknown(warnings, config, &self.named.unknown);
        push_unused(warnings, config, &self.named.unused);
        push_silent_flows(warnings, config, &self.named);
        push_late(warnings, config, self.rounds, &self.late);
        push_microseconds(warnings, config, &self.late);
        push_backward(warnings, &self.backward);
    }

    /// How many rounds take in all rows that ask for something. None where no row does, or no run has so many.
    pub fn rounds_for_all(&self) -> Option<u32>
        ensures { IfSome result (λ rounds. rounds_fit self.now.config.now rounds ≡ true) }
    {
        self.late.rounds_that_fit(self.config)
    }
}

impl SeesRequests for SeenRows<'_> {
    fn see(&mut self, request: &Request, line: usize) {
        if self.named.add(self.config, request, line) {
            self.late.add(self.config, request.tick, line);
        }
        self.backward.add(request.tick, line);
    }
}
