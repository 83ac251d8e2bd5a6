use super::base::{BASE, Fields, base_set, profile_of, same};
use crate::{
    ChannelTime, MAX_BURST_BYTES, MAX_MAP_TICKS, capacity, coded_len, cost, grant_cost, window,
};

/// M and k of a channel time.
type Logarithms = (u8, u8);

/// 16QAM with codewords of 200 bytes and 16 of parity.
const FIXED: Fields = (4, 24, 8, 8, 200, false);

const SHORTENED: Fields = (4, 24, 8, 8, 200, true);

/// Without a code nothing is shortened.
const UNCODED: Fields = (4, 24, 8, 0, 200, true);

const DEAREST: Fields = (2, 1_024, 255, 16, 16, false);

const DENSEST: Fields = (6, 0, 0, 0, 16, false);

const ROBUST: Fields = (2, 16, 8, 2, 16, true);

/// The coded length and the cost of so many bytes, and the capacity of so many minislots; `None` out of range.
fn costs_of(
    logarithms: Logarithms,
    fields: Fields,
    bytes_and_slots: (u32, u32),
) -> Option<(u32, u32, u32)> {
    let (minislot_log2, rate_log2) = logarithms;
    let time = ChannelTime::new(minislot_log2, rate_log2)?;
    let profile = profile_of(fields)?;
    let (bytes, slots) = bytes_and_slots;
    if bytes <= MAX_BURST_BYTES && slots.saturating_mul(time.minislot_ticks()) <= MAX_MAP_TICKS {
        let coded = coded_len(&profile, bytes);
        let cost = cost(&time, &profile, bytes);
        Some((coded, cost, capacity(&time, &profile, slots)))
    } else {
        None
    }
}

/// Times, profiles, bytes and minislots, and their coded lengths, costs and capacities.
static COSTS: [(Logarithms, Fields, (u32, u32), (u32, u32, u32)); 19] = [
    ((1, 5), FIXED, (0, 0), (0, 1, 0)),
    ((1, 5), FIXED, (1, 1), (216, 8, 0)),
    ((1, 5), FIXED, (16, 7), (216, 8, 0)),
    ((1, 5), FIXED, (17, 8), (216, 8, 200)),
    ((1, 5), FIXED, (200, 13), (216, 8, 200)),
    ((1, 5), FIXED, (201, 14), (432, 14, 400)),
    ((1, 5), SHORTENED, (0, 0), (0, 1, 0)),
    ((1, 5), SHORTENED, (1, 1), (32, 2, 0)),
    ((1, 5), SHORTENED, (16, 2), (32, 2, 32)),
    ((1, 5), SHORTENED, (17, 8), (33, 2, 200)),
    ((1, 5), SHORTENED, (200, 9), (216, 8, 240)),
    ((1, 5), SHORTENED, (201, 32), (248, 9, 928)),
    ((1, 5), UNCODED, (3, 1), (3, 1, 16)),
    ((1, 5), DEAREST, (98_304, 150), (294_912, 18_452, 688)),
    ((0, 0), DEAREST, (98_304, 4_096), (294_912, 1_180_927, 224)),
    ((1, 5), BASE, (1_008, 150), (1_008, 32, 4_784)),
    ((1, 5), BASE, (1_009, 0), (1_009, 33, 0)),
    ((1, 5), BASE, (98_304, 32), (98_304, 3_073, 1_008)),
    ((0, 5), DENSEST, (98_304, 4_096), (98_304, 4_096, 98_304)),
];

/// The minislots of a grant and the number of its code, with this profile for short grants; `None` out of range.
fn grant_of(short: Fields, bytes: u32) -> Option<(u32, u8)> {
    let set = base_set(profile_of(short)?)?;
    if bytes <= MAX_BURST_BYTES {
        let (slots, code) = grant_cost(&set, bytes);
        Some((slots, code.number()))
    } else {
        None
    }
}

static GRANTS: [(Fields, u32, (u32, u8)); 3] = [
    // a tie at the short maximum
    (BASE, 304, (10, 9)),
    // over it
    (BASE, 308, (11, 10)),
    // allowed, but dearer
    (ROBUST, 8, (1, 10)),
];

/// The first and the last minislot of a window.
fn window_of(logarithms: Logarithms, start_q: u32, jitter_q: u32) -> Option<(u32, u32)> {
    let (minislot_log2, rate_log2) = logarithms;
    let time = ChannelTime::new(minislot_log2, rate_log2)?;
    window(&time, u64::from(start_q), u64::from(jitter_q))
}

static WINDOWS: [(Logarithms, u32, u32, Option<(u32, u32)>); 4] = [
    ((1, 5), 4, 0, None),
    ((1, 5), 7_600, 3_200, Some((152, 216))),
    ((1, 5), 7_601, 3_198, Some((153, 215))),
    ((0, 0), u32::MAX, u32::MAX, Some((171_798_692, 343_597_383))),
];

#[test]
fn worked_numbers(rt: HostRuntime) {
    for (time, profile, numbers, wanted) in &COSTS {
        let found = costs_of(*time, *profile, *numbers);
        same(&rt, &(numbers, found), &(numbers, Some(*wanted)), "costs");
    }
    for (short, bytes, wanted) in &GRANTS {
        let found = grant_of(*short, *bytes);
        same(&rt, &(bytes, found), &(bytes, Some(*wanted)), "grants");
    }
    for (time, start_q, jitter_q, wanted) in &WINDOWS {
        let found = window_of(*time, *start_q, *jitter_q);
        same(&rt, &(start_q, found), &(start_q, *wanted), "windows");
    }
}
