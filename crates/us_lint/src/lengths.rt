ghost use Rattle.std.specs.Prelude.{◌≤◌};

use us_flows::{Channel, Flow};
use us_slots::QUARTERS_PER_TICK;

/// How long a run is, and what it counts in.
#[derive(Clone, Copy)]
pub(crate) struct Lengths {
    /// How many rounds it has.
    pub(crate) rounds: u64,
    /// The ticks of a round.
    pub(crate) round_ticks: u64,
    /// The least ticks from a request to the MAP that serves it.
    pub(crate) lead_ticks: u64,
}

impl Lengths {
    /// The quarter microseconds of a round.
    pub(crate) fn round_quarters(self) -> u128
        ensures { 1 ≤ result }
    {
        (QUARTERS_PER_TICK as u128 * self.round_ticks as u128).max(1)
    }

    /// The minislots of a channel's MAPs.
    pub(crate) fn map_len(self, channel: &Channel) -> u64 {
        self.round_ticks / channel.bursts.time().minislot_ticks() as u64
    }
}

/// The flow with this id.
pub(crate) fn flow_with(flows: &[Flow], id: u64) -> Option<&Flow> {
    for flow in flows {
        if flow.id() as u64 == id {
            return Some(flow);
        }
    }
    None
}

/// The channel with this id.
pub(crate) fn channel_with(channels: &[Channel], id: u64) -> Option<&Channel> {
    for channel in channels {
        if channel.id as u64 == id {
            return Some(channel);
        }
    }
    None
}
