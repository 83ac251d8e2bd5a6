//! Costs of bursts of any bytes: a line may credit 2^64 - 1 of them. Those of a schedule are told by `us_slots`, up to
//! what a MAP carries.

ghost use Rattle.std.specs.Prelude.{◌≡◌, ◌+◌, ◌<◌, ◌^◌, ℕ, SomeIff};
ghost use Rattle.us_slots.specs.Bursts as spec;
ghost use Rattle.us_credit_rules.specs.Repeats as lines;

use us_round::Grant;
use us_slots::{BurstSet, ChannelTime, Iuc, MAX_BURST_BYTES, Profile, coded_len, grant_cost};

/// The most bytes of a credit whose cost `us_slots` tells, behind any header of 8 bits.
const MAX_CREDIT: u64 = MAX_BURST_BYTES as u64 - u8::MAX as u64;

/// Whether a line has the minislots and the IUC of a grant of its credit behind a header of so many bytes.
pub(crate) fn is_cost(set: &BurstSet, header: u8, grant: &Grant) -> bool
    ensures { result ≡ lines.is_cost (spec.grant_cost set.now (grant.now.credit + header)) grant.now }
{
    if grant.credit > MAX_CREDIT {
        return is_large_cost(set, header, grant);
    }
    let (slots, iuc) = grant_cost(set, grant.credit as u32 + u32::from(header));
    grant.slots == u64::from(slots) && grant.iuc == u64::from(iuc.number())
}

/// The same, of whatever credit.
#[inline(never)]
fn is_large_cost(set: &BurstSet, header: u8, grant: &Grant) -> bool
    ensures { result ≡ lines.is_cost (spec.grant_cost set.now (grant.now.credit + header)) grant.now }
{
    let long = large_cost(set.time(), set.long(), grant.credit, header);
    let short_max = u64::from(set.short_max());
    let most = long.map_or(short_max, |long| long.min(short_max));
    let (slots, iuc) = match large_cost(set.time(), set.short(), grant.credit, header) {
        Some(short) if short <= most => (Some(short), Iuc::short_data_grant()),
        _ => (long, Iuc::long_data_grant()),
    };
    slots == Some(grant.slots) && grant.iuc == u64::from(iuc.number())
}

/// The minislots of a burst of a credit behind a header, where 64 bits hold them.
///
/// As many codewords as a minislot has bits fill whole minislots, so what such runs of codewords cost needs no rounding,
/// and all numbers but theirs are small.
#[tactic(auto, using(crate::proofs::CostLemmas::cost_facts))]
fn large_cost(time: &ChannelTime, profile: &Profile, credit: u64, header: u8) -> Option<u64>
    ensures { let cost : ℕ = spec.burst_cost time.now profile.now (credit + header) in SomeIff result (cost < 2 ^ 64) cost }
{
    let data = u64::from(profile.fec_k());
    let codeword = data + 2 * u64::from(profile.fec_t());
    let bits = u64::from(profile.bits());
    let symbols = u64::from(time.symbols_per_minislot());
    let run = data * bits * symbols;
    let whole = (credit / run).checked_mul(8 * codeword)?;
    let left = credit % run;
    let last = coded_len(profile, (left % data) as u32 + u32::from(header));
    let coded = left / data * codeword + u64::from(last);
    let overhead = u64::from(profile.preamble()) + u64::from(profile.guard());
    whole.checked_add((overhead + (8 * coded).div_ceil(bits)).div_ceil(symbols))
}
