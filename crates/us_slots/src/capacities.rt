ghost use Rattle.std.specs.Prelude.{◌≡◌, ◌≤◌, ◌*◌};
ghost use Rattle.us_slots.specs.Times.{minislot_ticks};
ghost use Rattle.us_slots.specs.Bursts.{burst_cost};
ghost use Rattle.us_slots.specs.Capacities.{IsCapacity, Carries, capacity_of};

use crate::channel_times::ChannelTime;
use crate::costs::{MAX_BURST_BYTES, MIN_SHORTENED};
use crate::profiles::Profile;

/// The most ticks of a MAP (ours), and so of a burst.
pub const MAX_MAP_TICKS: u32 = 4_096;

/// The greatest byte count whose cost is at most `slots` minislots, which are at most [`MAX_MAP_TICKS`] ticks.
/// It is 0 where not even an empty burst fits, and where no byte more does; at most [`MAX_BURST_BYTES`].
#[tactic(auto, using(crate::proofs::CapacityLemmas::capacity_facts))]
pub fn capacity(time: &ChannelTime, profile: &Profile, slots: u32) -> u32
    requires { slots * minislot_ticks time.now ≤ MAX_MAP_TICKS }
    ensures greatest { IsCapacity (burst_cost time.now profile.now) slots result }
    ensures value { result ≡ capacity_of time.now profile.now slots }
    ensures bound { result ≤ MAX_BURST_BYTES }

    // The limits that this crate's conditions name.
    ensures limits { (MAX_MAP_TICKS ≡ 4096) × (MAX_BURST_BYTES ≡ 98304) }
{
    let overhead = u32::from(profile.preamble()) + u32::from(profile.guard());
    let symbols = (slots * time.symbols_per_minislot()).saturating_sub(overhead);
    bytes_within(profile, symbols * u32::from(profile.bits()) / 8)
}

/// The greatest byte count that is sent as at most `room` bytes: the coded length undone.
#[tactic(auto, using(crate::proofs::CodeLemmas::code_facts))]
fn bytes_within(profile: &Profile, room: u32) -> u32
    requires { room ≤ MAX_BURST_BYTES }
    ensures { Carries profile.now room result }
{
    let data = u32::from(profile.fec_k());
    let parity = 2 * u32::from(profile.fec_t());
    let codeword = data + parity;
    if parity == 0 {
        return room;
    }
    let full = room / codeword * data;
    if !profile.shortened() {
        return full;
    }
    let rest = room % codeword;
    if rest < MIN_SHORTENED + parity {
        full
    } else {
        full + (rest - parity)
    }
}
