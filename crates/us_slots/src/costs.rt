ghost use Rattle.std.specs.Prelude.{◌≡◌, ℕ, ◌≤◌, ◌<◌, IsTrue};
ghost use Rattle.us_slots.specs.Bursts;
ghost use Rattle.us_slots.specs.Bursts.{coded_length, burst_cost};

use crate::burst_sets::BurstSet;
use crate::channel_times::ChannelTime;
use crate::profiles::Profile;
use crate::usage_codes::Iuc;

/// The most bytes of a burst (ours): what 4,096 ticks carry at the highest symbol rate and 64QAM.
pub const MAX_BURST_BYTES: u32 = 98_304;

/// The fewest data bytes that a shortened codeword is sent with (ours).
pub(crate) const MIN_SHORTENED: u32 = 16;

/// How many bytes are sent for `bytes` bytes of a burst, at most [`MAX_BURST_BYTES`].
///
/// Without a code (`fec_t` 0) these are the bytes themselves. With a fixed last codeword each started `fec_k`
/// bytes are sent as `fec_k + 2 * fec_t`. With a shortened one a last codeword of fewer bytes is sent as these,
/// as 16 at least, and `2 * fec_t` bytes of parity.
#[tactic(auto, unfolding(crate::specs::Bursts::coded_length))]
pub fn coded_len(profile: &Profile, bytes: u32) -> u32
    requires { bytes ≤ MAX_BURST_BYTES }
    ensures { result ≡ coded_length profile.now bytes }
{
    let data = u32::from(profile.fec_k());
    let parity = 2 * u32::from(profile.fec_t());
    let codeword = data + parity;
    if parity == 0 {
        return bytes;
    }
    if !profile.shortened() {
        return bytes.div_ceil(data) * codeword;
    }
    let last = match bytes % data {
        0 => 0,
        rest => rest.max(MIN_SHORTENED) + parity,
    };
    bytes / data * codeword + last
}

/// How many minislots a burst of `bytes` bytes, at most [`MAX_BURST_BYTES`], takes: preamble, guard time and the
/// coded bytes as symbols, rounded up to whole minislots. It never falls as bytes rise.
#[tactic(auto, using(crate::proofs::CostLemmas::cost_facts), unfolding(crate::specs::Bursts::burst_cost))]
pub fn cost(time: &ChannelTime, profile: &Profile, bytes: u32) -> u32
    requires { bytes ≤ MAX_BURST_BYTES }
    ensures value { result ≡ burst_cost time.now profile.now bytes }
    ensures positive { 0 < bytes → 0 < result }
    ensures never_falls { (fewer more : ℕ) → fewer ≤ more →
        burst_cost time.now profile.now fewer ≤ burst_cost time.now profile.now more }
{
    let overhead = u32::from(profile.preamble()) + u32::from(profile.guard());
    let data_bits = 8 * coded_len(profile, bytes);
    let symbols = overhead + data_bits.div_ceil(u32::from(profile.bits()));
    symbols.div_ceil(time.symbols_per_minislot())
}

/// Whether bytes, at most [`MAX_BURST_BYTES`], surely take more than so many minislots: their own bits do already,
/// without a code.
#[tactic(auto, using(crate::proofs::CapacityLemmas::past_facts))]
fn surely_past(time: &ChannelTime, profile: &Profile, slots: u32, bytes: u32) -> bool
    requires few { slots ≤ 255 }
    requires bytes { bytes ≤ MAX_BURST_BYTES }
    ensures { IsTrue result → slots < burst_cost time.now profile.now bytes }
{
    let overhead = u32::from(profile.preamble()) + u32::from(profile.guard());
    let symbols = (slots * time.symbols_per_minislot()).saturating_sub(overhead);
    symbols * u32::from(profile.bits()) < 8 * bytes
}

/// The minislots and the IUC of a data grant of `bytes` bytes, at most [`MAX_BURST_BYTES`]: short (IUC 9) where
/// that takes at most the short maximum and at most what a long one takes, else long (IUC 10).
pub fn grant_cost(set: &BurstSet, bytes: u32) -> (u32, Iuc)
    requires { bytes ≤ MAX_BURST_BYTES }
    ensures value { result ≡ Bursts.grant_cost set.now bytes }
    ensures positive { 0 < bytes → 0 < result.0 }
    ensures within_long { result.0 ≤ burst_cost set.now.time set.now.long bytes }
{
    let long = cost(set.time(), set.long(), bytes);
    let most = long.min(u32::from(set.short_max()));
    if surely_past(set.time(), set.short(), most, bytes) {
        return (long, Iuc::long_data_grant());
    }
    let short = cost(set.time(), set.short(), bytes);
    if short <= most {
        (short, Iuc::short_data_grant())
    } else {
        (long, Iuc::long_data_grant())
    }
}
