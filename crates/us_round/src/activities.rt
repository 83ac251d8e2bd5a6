ghost use Rattle.std.specs.Prelude.{◌≡◌, map, IfOk};
ghost use Rattle.us_flows.specs.Lawful.{IsFlow};
ghost use Rattle.us_flows.specs.Tables.{Tables};
ghost use Rattle.us_round.specs.Parts as spec;

use std::alloc::Global;
use us_flows::{Config, Flow};
use us_output::ChannelWithText;
use us_slots::NoMemory;

/// Of each flow in table order whether it is active; `None` where nobody detects its activity.
pub(crate) fn activities(
    alloc: Global,
    config: &Config,
    channels: &[ChannelWithText],
) -> Result<Vec<Option<bool>>, NoMemory>
    ensures { IfOk result (λ told. told.items ≡ map (spec.activity_by channels.now) config.now.flows) }
{
    let flows = config.flows();
    let mut told = Vec::with_capacity(alloc, flows.len())?;
    for flow in flows {
        told.push(activity_of(channels, flow))?;
    }
    Ok(told)
}

/// Whether a flow is active, which its first channel knows, if anybody detects that.
fn activity_of(channels: &[ChannelWithText], flow: &Flow) -> Option<bool>
    requires { (t : Tables) × IsFlow t flow.now }
    ensures { result ≡ spec.activity_by channels.now flow.now }
{
    if flow.kind().tells_activity() {
        activity_heard(channels, flow.channels()[0], flow.id())
    } else {
        None
    }
}

/// What the calendar of the channel with this id heard last of the flow with that id.
fn activity_heard(channels: &[ChannelWithText], id: u8, flow: u16) -> Option<bool>
    ensures { result ≡ spec.activity_heard channels.now id flow }
{
    for channel in channels {
        let channel = channel.channel_round();
        if channel.channel().id == id {
            return channel.activity(flow);
        }
    }
    None
}
