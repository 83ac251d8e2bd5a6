use super::progress::Progress;
use super::run_by;
use crate::doers::{Kept, RunMail};
use crate::faults::RunFault;
use crate::summaries::Summary;
use std::alloc::Global;
use std::sync::Wait;
use us_crew::{Beside, Crew, Gate};
use us_flows::Config;
use us_requests::Trace;
use us_round::Crewed;
use us_slots::Sink;

/// The replay of a trace by a crew, and where its workers look for what is to be done.
#[derive(Drop)]
pub(super) struct WholeRun<'a, 'b, 'm, 'r, G: Gate, W1, W2> {
    pub(super) alloc: Global,
    pub(super) config: &'a Config,
    pub(super) trace: &'a Trace,
    pub(super) progress: Progress<'a>,
    pub(super) workers: usize,
    pub(super) gate: G,
    pub(super) mail: &'b RunMail<'a, 'b, G>,
    pub(super) maps: &'m mut W1,
    pub(super) report: &'r mut W2,
}

impl<'a, 'b, 'm, 'r, H: Wait, G: Gate + Copy + Drop, W1: Sink, W2: Sink> Beside<H>
    for WholeRun<'a, 'b, 'm, 'r, G, W1, W2> {
    ghost use Rattle.std.specs.Prelude.{◌≡◌, length};
    ghost use Rattle.us_flows.specs.Clusters.{words_of};
    ghost use Rattle.us_replay.specs.Progress.{CanRun, Ended, opening_progress, written};

    // How it ended, and the writers.
    type Output = (Result<Summary, RunFault>, &'m mut W1, &'r mut W2);

    ghost can_run = { λ t. (t.progress ≡ opening_progress (length (words_of t.config.now)))
        × CanRun t.config.now t.trace.now (W1.failed t.maps.now) (W2.failed t.report.now) };

    ghost gives = { λ t r. (r.1.ghost_name ≡ t.maps.ghost_name) × (r.2.ghost_name ≡ t.report.ghost_name)
        × Ended t.config.now t.trace.now (written W1.contents W1.failed W1.flushed t.maps.now r.1.now)
        (written W2.contents W2.failed W2.flushed t.report.now r.2.now) r.0 };

    fn run(self, crew: &Crew<'_, H>) -> (Result<Summary, RunFault>, &'m mut W1, &'r mut W2) {
        let (mut progress, maps, report) = (self.progress, self.maps, self.report);
        let (alloc, config, gate, mail) = (self.alloc, self.config, self.gate, self.mail);
        let hands = Crewed::new(alloc, crew, config, gate, mail.round, true);
        let mut doers = Kept {
            crew,
            workers: self.workers,
            gate,
            mail,
            hands,
        };
        let ended = run_by(
            alloc,
            config,
            self.trace,
            &mut progress,
            &mut doers,
            maps,
            report,
        );
        (ended, maps, report)
    }
}
