ghost use Rattle.std.specs.Prelude.{◌≡◌, ℕ, ◌+◌, ◌-◌, ◌*◌, ◌/◌, ◌==◌, ◌<◌, ◌≤◌, ◌||◌, not, nat_lt, if◌then◌else◌, length, map, sum, min, slice_index};
ghost use Rattle.std.specs.List.{AllByRecursion};
ghost use Rattle.us_flows.specs.Ranges.{max_channels_of_flow};
ghost use Rattle.us_split.specs.Divisions.{divided};
ghost use Rattle.us_split.specs.Plans.{max_burst_bytes};

/// The most channels of a flow (ours).
pub const MAX_CHANNELS_OF_FLOW: usize = 8;

/// Below so many bytes of all weights a product of bytes and a weight has 32 bits.
const FEW_BYTES: u64 = 65_536;

/// Divides bytes over channels by their weights, the most bytes that each can take, and writes what each channel gets
/// to `shares`.
///
/// A channel gets bytes in proportion to its weight, rounded down. The bytes that this leaves over go, one each, to the
/// first channels whose part is below the weight.
#[tactic(auto, using(crate::proofs::DivisionLemmas::division_facts))]
pub fn divide(bytes: u64, weights: &[u32], shares: &mut [u32])
    requires same_length { length weights.now ≡ length shares.old }
    requires few { length weights.now ≤ max_channels_of_flow }
    requires bursts { AllByRecursion (λ weight. weight ≤ max_burst_bytes) weights.now }
    ensures value { shares.new ≡ divided bytes weights.now }
    ensures all { sum shares.new ≡ min bytes (sum weights.now) }
    ensures within { (channel : ℕ) → slice_index shares.new channel ≤ slice_index weights.now channel }
    ensures one_each { length shares.new ≡ length weights.now }

    // The limit that the condition names.
    ensures limit { MAX_CHANNELS_OF_FLOW ≡ max_channels_of_flow }
{
    let total = sum_of(weights);
    if bytes >= total {
        shares.copy_from_slice(weights);
    } else {
        top_up(bytes, total, weights, shares);
    }
}

/// All weights together.
pub(crate) fn sum_of(weights: &[u32]) -> u64
    requires { length weights.now ≤ max_channels_of_flow }
    ensures { result ≡ sum weights.now }
{
    let mut total = 0;
    for weight in weights {
        total += u64::from(*weight);
    }
    total
}

/// The part of a channel: bytes in proportion to its weight, rounded down.
#[tactic(auto, using(crate::proofs::DivisionLemmas::part_within))]
fn part_of(bytes: u64, total: u64, weight: u32) -> u32
    requires below { bytes < total }
    requires small { total ≤ max_channels_of_flow * max_burst_bytes }
    ensures value { result ≡ bytes * weight / total }
    ensures within { result ≤ weight }
{
    (bytes * u64::from(weight) / total) as u32
}

/// The same of few bytes, whose product with a weight has 32 bits.
#[tactic(auto, using(crate::proofs::DivisionLemmas::few_facts))]
fn part_of_few(bytes: u32, total: u32, weight: u32) -> u32
    requires below { bytes < total }
    requires few { total < 65536 }
    requires weight { weight ≤ total }
    ensures value { result ≡ bytes * weight / total }
    ensures within { result ≤ weight }
{
    bytes * weight / total
}

/// Writes the part of each channel, and answers the bytes that are left over then. Most turns divide few bytes, which is
/// cheaper.
fn write_parts(bytes: u64, total: u64, weights: &[u32], parts: &mut [u32]) -> u64
    requires same_length { length weights.now ≡ length parts.old }
    requires total { total ≡ sum weights.now }
    requires below { bytes < total }
    requires small { total ≤ max_channels_of_flow * max_burst_bytes }
    ensures parts { parts.new ≡ map (λ weight. bytes * weight / total) weights.now }
    ensures left { result ≡ bytes - sum (map (λ weight. bytes * weight / total) weights.now) }
{
    if total < FEW_BYTES {
        write_few(bytes as u32, total as u32, weights, parts)
    } else {
        write_many(bytes, total, weights, parts)
    }
}

/// The same of few bytes.
fn write_few(bytes: u32, total: u32, weights: &[u32], parts: &mut [u32]) -> u64
    requires same_length { length weights.now ≡ length parts.old }
    requires total { total ≡ sum weights.now }
    requires below { bytes < total }
    requires few { total < 65536 }
    ensures parts { parts.new ≡ map (λ weight. bytes * weight / total) weights.now }
    ensures left { result ≡ bytes - sum (map (λ weight. bytes * weight / total) weights.now) }
{
    let mut left = bytes;
    for i in 0..weights.len() {
        let part = part_of_few(bytes, total, weights[i]);
        parts[i] = part;
        left -= part;
    }
    u64::from(left)
}

/// The same of however many.
fn write_many(bytes: u64, total: u64, weights: &[u32], parts: &mut [u32]) -> u64
    requires same_length { length weights.now ≡ length parts.old }
    requires total { total ≡ sum weights.now }
    requires below { bytes < total }
    requires small { total ≤ max_channels_of_flow * max_burst_bytes }
    ensures parts { parts.new ≡ map (λ weight. bytes * weight / total) weights.now }
    ensures left { result ≡ bytes - sum (map (λ weight. bytes * weight / total) weights.now) }
{
    let mut left = bytes;
    for i in 0..weights.len() {
        let part = part_of(bytes, total, weights[i]);
        parts[i] = part;
        left -= u64::from(part);
    }
    left
}

/// The byte that a channel gets on top of its part: one where some are left over and the part is below its weight.
fn byte_more(left: u64, part: u32, weight: u32) -> u32
    ensures value { result ≡ (if (left == 0) || not (nat_lt part weight) then 0 else 1) }
    ensures left { result ≤ left }
    ensures most { part ≤ weight → part + result ≤ weight }
{
    if left == 0 || part >= weight { 0 } else { 1 }
}

/// Divides fewer bytes than all weights together: writes what each channel gets, its part, and one byte more while some are
/// left over.
pub(crate) fn top_up(bytes: u64, total: u64, weights: &[u32], shares: &mut [u32])
    requires same_length { length weights.now ≡ length shares.old }
    requires total { total ≡ sum weights.now }
    requires below { bytes < total }
    requires small { total ≤ max_channels_of_flow * max_burst_bytes }
    ensures { shares.new ≡ divided bytes weights.now }
{
    let mut left = write_parts(bytes, total, weights, shares);
    for i in 0..weights.len() {
        if left == 0 {
            return;
        }
        let part = shares[i];
        let more = byte_more(left, part, weights[i]);
        shares[i] = part + more;
        left -= u64::from(more);
    }
}
