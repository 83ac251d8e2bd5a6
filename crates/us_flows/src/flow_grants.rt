ghost use Rattle.std.specs.Prelude.{◌≡◌};
ghost use Rattle.us_slots.specs.Bursts.{burst_cost};
ghost use Rattle.us_flows.specs.Tables.{first_channel};
ghost use Rattle.us_flows.specs.Checks;
ghost use Rattle.us_slots.specs.Lists.{first_of};
ghost use Rattle.us_flows.specs.Checks.{flow_grants};

use crate::channels::Channel;
use crate::faults::{ConfigFault, Place};
use crate::flows::{Flow, SchedulingType};
use crate::limits::is_too_long;
use crate::listed::Channels;
use us_slots::cost;

/// The first fault of a flow's grants and rates, in MAPs of a round of so many ticks.
pub(crate) fn grants_fault(
    place: Place,
    round_ticks: u32,
    channels: &Channels,
    flow: &Flow,
) -> Option<ConfigFault>
    ensures { result ≡ first_of (flow_grants place round_ticks channels.now flow.now) }
{
    if flow.kind().has_intervals() && flow.interval_us() <= flow.jitter_us() {
        return Some(ConfigFault::Jitter(place));
    }
    if has_long_grant(round_ticks, channels, flow) {
        return Some(ConfigFault::GrantLongerThanMap(place));
    }
    if flow.kind().makes_requests() && !flow.headers() && flow.channels().len() > 1 {
        return Some(ConfigFault::Headers(place));
    }
    if 0 < flow.rate() && flow.rate() < flow.min_rate() {
        return Some(ConfigFault::MinRate(place));
    }
    None
}

/// Whether a poll or an unsolicited grant passes the length of a MAP of the flow's first channel.
fn has_long_grant(round_ticks: u32, channels: &Channels, flow: &Flow) -> bool
    ensures { result ≡ Checks.is_too_long round_ticks (Checks.grant_slots flow.now flow.now.kind)
        (first_channel channels.now flow.now) }
{
    match flow.channels() {
        [first, ..] => match channels.get(*first) {
            Some(channel) => is_too_long(round_ticks, channel, grant_slots(flow, channel)),
            None => false,
        },
        [] => false,
    }
}

/// The minislots of a flow's poll or of its unsolicited grant, whichever has more where it has both; none of best effort.
fn grant_slots(flow: &Flow, channel: &Channel) -> u32
    ensures { result ≡ Checks.grant_slots flow.now flow.now.kind channel.now }
{
    let poll = u32::from(channel.request_minislots);
    match flow.kind() {
        SchedulingType::BestEffort => 0,
        SchedulingType::NonRealTimePolling | SchedulingType::RealTimePolling => poll,
        SchedulingType::ActivityDetection => unsolicited_slots(flow, channel).max(poll),
        SchedulingType::UnsolicitedGrant => unsolicited_slots(flow, channel),
    }
}

/// The minislots of an unsolicited grant of a flow.
fn unsolicited_slots(flow: &Flow, channel: &Channel) -> u32
    ensures { result ≡
        burst_cost channel.now.bursts.time channel.now.bursts.unsolicited flow.now.grant_bytes }
{
    let bursts = &channel.bursts;
    cost(
        bursts.time(),
        bursts.unsolicited(),
        u32::from(flow.grant_bytes()),
    )
}
