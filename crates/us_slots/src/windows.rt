ghost use Rattle.std.specs.Prelude.{ℕ, ◌<◌, ◌^◌, IfSome, IfNone};
ghost use Rattle.us_slots.specs.Windows.{StartsWithin, AreEnds};

use crate::channel_times::{ChannelTime, QUARTERS_PER_TICK};

/// The first and the last minislot whose start lies between the ideal time `start_q` and `start_q + jitter_q`,
/// both ends included, in quarter microseconds, both below 2^32. `None`: no minislot starts there.
#[tactic(auto, using(crate::proofs::WindowLemmas::window_empty))]
pub fn window(time: &ChannelTime, start_q: u64, jitter_q: u64) -> Option<(u32, u32)>
    requires start { start_q < 2 ^ 32 }
    requires jitter { jitter_q < 2 ^ 32 }
    ensures some { IfSome result (AreEnds (StartsWithin time.now start_q jitter_q)) }
    ensures none { IfNone result ((minislot : ℕ) → ¬ StartsWithin time.now start_q jitter_q minislot) }
{
    let minislot_q = QUARTERS_PER_TICK * u64::from(time.minislot_ticks());
    let first = start_q.div_ceil(minislot_q);
    let last = (start_q + jitter_q) / minislot_q;
    if first <= last {
        Some((first as u32, last as u32))
    } else {
        None
    }
}
