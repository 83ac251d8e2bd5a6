use super::base::{Fields, profile_of, same};
use crate::{ChannelTime, MAX_BURST_BYTES, MAX_MAP_TICKS, Profile, capacity, coded_len, cost};

/// What is sent for `bytes` bytes, codeword by codeword.
fn plain_coded_len(profile: &Profile, bytes: u32) -> u32 {
    let data = u32::from(profile.fec_k());
    let parity = 2 * u32::from(profile.fec_t());
    let mut left = bytes;
    let mut sent = 0u32;
    while left > 0 {
        let last = left.min(data);
        let filled = if profile.fec_t() == 0 {
            last
        } else if profile.shortened() {
            last.max(16)
        } else {
            data
        };
        sent = sent.saturating_add(filled + parity);
        left -= last;
    }
    sent
}

/// The greatest byte count that fits, found by trying each: no symbol carries a byte.
fn plain_capacity(time: &ChannelTime, profile: &Profile, slots: u32) -> u32 {
    let symbols = slots.saturating_mul(time.symbols_per_minislot());
    let mut most = 0;
    for bytes in 0..=symbols.min(MAX_BURST_BYTES) {
        if cost(time, profile, bytes) <= slots {
            most = bytes;
        }
    }
    most
}

/// The least of 0 to 800 bytes at which the coded lengths differ.
fn other_coded_len(profile: &Profile) -> Option<u32> {
    for bytes in 0..=800 {
        if coded_len(profile, bytes) != plain_coded_len(profile, bytes) {
            return Some(bytes);
        }
    }
    None
}

/// The first of some numbers of minislots, up to the longest MAP, at which the capacities differ.
fn other_capacity(time: &ChannelTime, profile: &Profile) -> Option<u32> {
    for slots in [0u32, 1, 13, 32, 2_048, 4_096] {
        if slots.saturating_mul(time.minislot_ticks()) <= MAX_MAP_TICKS
            && capacity(time, profile, slots) != plain_capacity(time, profile, slots)
        {
            return Some(slots);
        }
    }
    None
}

/// Where the programs differ for a profile of these fields: in bytes, and in minislots of three channel times.
fn others(fields: Fields) -> Option<(Option<u32>, [Option<u32>; 3])> {
    let profile = profile_of(fields)?;
    let in_bytes = other_coded_len(&profile);
    let in_minislots = [
        other_capacity(&ChannelTime::new(0, 0)?, &profile),
        other_capacity(&ChannelTime::new(1, 5)?, &profile),
        other_capacity(&ChannelTime::new(7, 2)?, &profile),
    ];
    Some((in_bytes, in_minislots))
}

const AGREED: Option<(Option<u32>, [Option<u32>; 3])> = Some((None, [None; 3]));

/// Profiles of every kind: each modulation, with and without preamble, and each form of code at its limits.
#[test]
fn plain_programs_agree(rt: HostRuntime) {
    for bits in 2..=6 {
        for (preamble, guard) in [(0, 0), (24, 8), (1_024, 255)] {
            for (fec_t, fec_k) in [(0, 200), (1, 16), (1, 253), (16, 16), (8, 200), (16, 223)] {
                for shortened in [false, true] {
                    let fields = (bits, preamble, guard, fec_t, fec_k, shortened);
                    same(&rt, &(fields, others(fields)), &(fields, AGREED), "plain");
                }
            }
        }
    }
}
