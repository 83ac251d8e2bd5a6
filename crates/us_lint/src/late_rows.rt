ghost use Rattle.std.specs.Prelude.{◌≡◌, true, IfSome};
ghost use Rattle.us_flows.specs.Tables.{rounds_fit};
ghost use Rattle.us_requests.specs.Asks.{round_of_tick};

use crate::alike::Alike;
use us_flows::Config;

/// Ticks of 6.25 microseconds, and how many microseconds they last.
const TICKS: u64 = 4;

const MICROSECONDS: u64 = 25;

/// The rows of a trace that ask for something, and those of them that are late in a run of so many rounds.
#[derive(Clone, Copy)]
pub(crate) struct LateRows {
    rounds: u32,
    /// How many ask for something, and the greatest tick of these.
    asking: usize,
    latest: u32,
    pub(crate) late: Alike,
}

impl LateRows {
    /// No row yet.
    pub(crate) fn new(rounds: u32) -> LateRows {
        LateRows {
            rounds,
            asking: 0,
            latest: 0,
            late: Alike::new(),
        }
    }

    /// One more row that asks for something.
    pub(crate) fn add(&mut self, config: &Config, tick: u32, line: usize) {
        self.asking = self.asking.saturating_add(1);
        self.latest = self.latest.max(tick);
        if round_of(config, tick) >= u64::from(self.rounds) {
            self.late.add(line);
        }
    }

    /// How many rounds take all of them in, if there are any and a run has as many rounds.
    pub(crate) fn rounds_that_fit(&self, config: &Config) -> Option<u32>
        ensures { IfSome result (λ rounds. rounds_fit config.now rounds ≡ true) }
    {
        if self.asking == 0 {
            return None;
        }
        match u32::try_from(round_of(config, self.latest).saturating_add(1)) {
            Ok(rounds) if config.rounds_fit(rounds) => Some(rounds),
            _ => None,
        }
    }

    /// Whether their ticks look like microseconds: at least half of them are late, and if each tick were turned from
    /// microseconds into ticks, none would be, and the latest would belong to the second half of the run.
    pub(crate) fn look_like_microseconds(&self, config: &Config) -> bool {
        let ticks = u64::from(self.latest) * TICKS / MICROSECONDS;
        let round = round_of(config, ticks as u32);
        let is_half_late = (self.late.rows > 0) & (self.late.rows >= self.asking - self.asking / 2);
        let is_of_second_half = (round < u64::from(self.rounds))
            & (round >= u64::from(self.rounds / 2));
        is_half_late & is_of_second_half
    }
}

/// The round of a row at a tick, whether or not the run is as long.
#[tactic(auto, unfolding(us_requests::specs::Asks::round_of_tick))]
fn round_of(config: &Config, tick: u32) -> u64
    ensures { result ≡ round_of_tick config.now tick }
{
    (u64::from(tick) + u64::from(config.lead_ticks())).div_ceil(u64::from(config.round_ticks()))
}
