ghost use Rattle.std.specs.Prelude.{◌≡◌, ◌<◌, length, OnOk};
ghost use Rattle.std.specs.List.{AllByRecursion};
ghost use Rattle.us_round.specs.Cores.{AreAllowed, idle_of};

use crate::buckets::Buckets;
use us_flows::Turn;
use us_output::ChannelWithText;
use us_slots::NoMemory;

/// Notes how many minislots of each channel are idle.
pub(super) fn note_idle(idle: &mut Vec<u32>, channels: &[ChannelWithText]) -> Result<(), NoMemory>
    ensures { OnOk result (idle.new.items ≡ idle_of channels.now) }
{
    idle.clear();
    for channel in channels {
        idle.push(channel.channel_round().idle())?;
    }
    Ok(())
}

/// Notes what the buckets allow of the flows of the turns at these places.
pub(super) fn allow(
    turns: &[Turn],
    places: &[u16],
    buckets: &mut Buckets,
    allowances: &mut [Option<u64>],
)
    requires places { AllByRecursion (λ place. place < length turns.now) places.now }
    requires flows { AllByRecursion (λ turn. turn.flow < length buckets.old.levels) turns.now }
    requires long { length allowances.old ≡ length buckets.old.levels }
    ensures same { buckets.new ≡ buckets.old }
    ensures long { length allowances.new ≡ length allowances.old }
    ensures allowed { AreAllowed turns.now buckets.old.levels allowances.new places.now }
{
    for place in places {
        let flow = turns[usize::from(*place)].flow;
        allowances[flow] = buckets.bytes(flow);
    }
}
