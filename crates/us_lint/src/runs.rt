ghost use Rattle.std.specs.Prelude.{◌≡◌, ◌*◌, ◌≤◌, true};
ghost use Rattle.us_flows.specs.Tables.{max_run_ticks, rounds_fit};
ghost use Rattle.us_flows.specs.Lawful.{AreTables};
ghost use Rattle.us_flows.specs.Ranges.{max_round_ticks};

use us_flows::Config;
use us_slots::QUARTERS_PER_TICK;

/// A run of so many rounds.
#[derive(Clone, Copy)]
pub(crate) struct Run {
    pub(crate) rounds: u32,
    pub(crate) round_ticks: u32,
    ghost some: { 1 ≤ round_ticks },
    ghost most: { round_ticks ≤ 4096 },
    ghost fits: { rounds * round_ticks ≤ max_run_ticks },
}

impl Run {
    /// So many rounds of a configuration, or the most that fit into a run.
    pub(crate) fn new(config: &Config, rounds: u32) -> Run
        ensures all { rounds_fit config.now rounds ≡ true → result.rounds ≡ rounds }
        ensures most { result.rounds ≤ rounds }
    {
        Run {
            rounds: rounds.min(config.most_rounds()),
            round_ticks: config.round_ticks(),
        }
    }

    /// The number of the last round.
    pub(crate) fn last_round(&self) -> u32 {
        self.rounds.saturating_sub(1)
    }

    /// The length of a round in quarter microseconds.
    pub(crate) fn round_quarters(&self) -> u32
        ensures { result ≡ 25 * self.now.round_ticks }
    {
        QUARTERS_PER_TICK as u32 * self.round_ticks
    }

    /// The length of the run in quarter microseconds.
    pub(crate) fn quarters(&self) -> u32
        ensures { result ≡ 25 * (self.now.rounds * self.now.round_ticks) }
    {
        QUARTERS_PER_TICK as u32 * (self.rounds * self.round_ticks)
    }
}
