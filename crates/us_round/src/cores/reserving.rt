ghost use Rattle.std.specs.Prelude.{◌≡◌, ◌<◌, length};
ghost use Rattle.std.specs.List.{AllByRecursion};
ghost use Rattle.us_round.specs.Cores.{AreReserved, IsRoom, left_at};

use crate::buckets::Buckets;
use us_flows::Turn;

/// Notes what the buckets of minimum rates reserve for the flows of the turns at these places. Where there is no room for
/// it, no flow has a minimum rate, and no turn is looked at.
pub(super) fn reserve(turns: &[Turn], places: &[u16], buckets: &Buckets, reserves: &mut [u64])
    requires places { AllByRecursion (λ place. place < length turns.now) places.now }
    requires flows { AllByRecursion (λ turn. turn.flow < length buckets.now.levels) turns.now }
    requires room { IsRoom buckets.now.levels reserves.old }
    ensures { AreReserved turns.now buckets.now.levels reserves.new places.now }
{
    if reserves.is_empty() {
        return;
    }
    for place in places {
        let flow = turns[usize::from(*place)].flow;
        reserves[flow] = buckets.reserve(flow);
    }
}

/// Lets the buckets of the flows of these turns reserve no more than what is left there. Without room nothing is.
pub(super) fn leave(turns: &[Turn], places: &[u16], buckets: &mut Buckets, left: &[u64])
    requires places { AllByRecursion (λ place. place < length turns.now) places.now }
    requires flows { AllByRecursion (λ turn. turn.flow < length buckets.old.levels) turns.now }
    requires room { IsRoom buckets.old.levels left.now }
    ensures levels { buckets.new.levels ≡ left_at turns.now left.now places.now buckets.old.levels }
    ensures ticks { buckets.new.ticks ≡ buckets.old.ticks }
    ensures round { buckets.new.round ≡ buckets.old.round }
{
    if left.is_empty() {
        return;
    }
    for place in places {
        let flow = turns[usize::from(*place)].flow;
        buckets.leave(flow, left[flow]);
    }
}
