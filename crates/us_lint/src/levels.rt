use us_bucket::UNITS_PER_BYTE;
use us_flows::Flow;

/// What the bucket of a flow holds. Its credits are told in the order of their rounds.
#[derive(Clone, Copy)]
pub(crate) struct Level {
    /// By how much it grows from round to round, in units.
    growth: u128,
    /// The most that it holds, in units.
    full: u128,
    units: u128,
    round: u64,
}

impl Level {
    /// That of a flow, full in round 0.
    pub(crate) fn of_flow(flow: &Flow, round_ticks: u64) -> Level {
        let full = flow.burst() as u128 * UNITS_PER_BYTE as u128;
        Level {
            growth: round_ticks as u128 * flow.rate() as u128,
            full,
            units: full,
            round: 0,
        }
    }

    /// The units in it in a round that isn't before the last one in which something was credited.
    pub(crate) fn units_in(self, round: u64) -> u128 {
        let rounds = round.saturating_sub(self.round) as u128;
        let grown = rounds.saturating_mul(self.growth);
        self.units.saturating_add(grown).min(self.full)
    }

    /// The same after so many bytes are credited in a round.
    pub(crate) fn spent(self, round: u64, bytes: u64) -> Level {
        let spent = (bytes as u128).saturating_mul(UNITS_PER_BYTE as u128);
        Level {
            units: self.units_in(round).saturating_sub(spent),
            round,
            ..self
        }
    }
}
