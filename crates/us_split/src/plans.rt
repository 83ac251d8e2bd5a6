ghost use Rattle.std.specs.Prelude.{◌≡◌, [], map, find, slice_index, slice_index_or};
ghost use Rattle.us_split.specs.Claims.{is_at, share_of};

use crate::channel_plans::ChannelPlan;
use crate::claims::Claim;
use std::marker::Model;

/// The plan of a round: the claims on each channel, and what is taken of the reserve of each flow.
#[derive(Drop)]
pub struct Plan {
    channels: Vec<ChannelPlan>,
    reserved: Vec<u64>,
}

impl Model for Plan {
    ghost use Rattle.std.specs.Prelude.{map};
    ghost use Rattle.us_split.specs.Planners as spec;

    ghost Value = { spec.RoundPlan };

    ghost view = { λ plan. record { claims = map (λ c. c.claims) plan.channels.items; reserved = plan.reserved.items } };
}

impl Plan {
    /// What is planned on each channel, and taken of the reserve of each flow, both in table order.
    pub(crate) fn new(channels: Vec<ChannelPlan>, reserved: Vec<u64>) -> Plan
        ensures claims { result.claims ≡ map (λ c. c.claims) channels.items }
        ensures reserved { result.reserved ≡ reserved.items }
    {
        Plan { channels, reserved }
    }

    /// The claims on the channel at this place of the table, in the order of turns; none where there is no such channel.
    pub fn claims(&self, channel: usize) -> &[Claim]
        ensures { result.now ≡ slice_index_or self.now.claims channel [] }
    {
        match self.channels.get(channel) {
            Some(plan) => plan.claims(),
            None => &[],
        }
    }

    /// The bytes that are taken of the reserve of the flow at this place: the first shares of its turns, none of a flow
    /// without a minimum rate. 0 where there is no such flow.
    pub fn reserved(&self, flow: usize) -> u64
        ensures { result ≡ slice_index self.now.reserved flow }
    {
        match self.reserved.get(flow) {
            Some(bytes) => *bytes,
            None => 0,
        }
    }

    /// What is planned on each channel.
    fn channel_plans(&self) -> &[ChannelPlan]
        ensures { map (λ c. c.claims) result.now ≡ self.now.claims }
    {
        &self.channels
    }

    /// The bytes that a turn, by its place among all turns of a round, may send on the flow's channel at this position;
    /// 0 where there is no such turn or channel.
    pub fn share(&self, turn: usize, position: usize) -> u32
        ensures { result ≡ share_of self.now.claims turn position }
    {
        for channel in self.channel_plans() {
            if let Some(claim) = found_in(channel.claims(), turn, position) {
                return claim.share;
            }
        }
        0
    }
}

/// The claim of that turn and position, if it is one of these.
fn found_in(claims: &[Claim], turn: usize, position: usize) -> Option<Claim>
    ensures { result ≡ find (is_at turn position) claims.now }
{
    for claim in claims {
        if claim.is_at(turn, position) {
            return Some(*claim);
        }
    }
    None
}
