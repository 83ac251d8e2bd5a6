ghost use Rattle.std.specs.Prelude.{◌≡◌};

use super::base::same;
use crate::RoundBucket;

/// The ticks of a round of these tests: 2 ms.
const TICKS: u32 = 320;

/// A bucket from which all was granted in round 0.
fn drained(rate: u32, burst: u32) -> RoundBucket
    ensures { result.as_of ≡ 0 }
{
    let mut kept = RoundBucket::full(rate, burst);
    if let Some(bytes) = kept.bytes() {
        kept.spend(bytes);
    }
    kept
}

/// The first of 40 rounds in which a bucket that is brought there in one step isn't that of a refill in each round.
fn first_difference(rate: u32, burst: u32) -> Option<u32> {
    let kept = drained(rate, burst);
    let mut bucket = kept.level_in(0, TICKS);
    for round in 0..40 {
        if kept.level_in(round, TICKS) != bucket {
            return Some(round);
        }
        bucket.refill(TICKS);
    }
    None
}

/// Rates and bursts: a cap that is reached and one that isn't, rounds that bring parts of a byte, and no limit.
static LIMITS: [(u32, u32); 5] = [
    (1_280_000, 1_522),
    (999, 3),
    (777_777, 100_000),
    (u32::MAX, u32::MAX),
    (0, 1_522),
];

#[test]
fn one_step_is_each_round(rt: HostRuntime) {
    for (rate, burst) in &LIMITS {
        let found = first_difference(*rate, *burst);
        same(&rt, &(*rate, found), &(*rate, None), "each round");
    }
}

/// A bucket brought to round 3, and to round 7 once all was granted again.
#[test]
fn bytes_of_three_rounds(rt: HostRuntime) {
    let mut kept = drained(1_280_000, 1_522);
    kept.refill_to(3, TICKS);
    let third = kept.bytes();
    if third == Some(960) {
        kept.spend(960);
    }
    kept.refill_to(7, TICKS);
    let found = (third, kept.bytes(), kept.as_of());
    same(&rt, &found, &(Some(960), Some(1_280), 7), "three rounds");
}

/// What is reserved in rounds 0, 3 and 7, if all of it is planned first in each; and in between, where nothing is planned.
#[tactic(auto, using(crate::proofs::LevelLemmas::has_reserved))]
fn reserves_of(min_rate: u32, burst: u32) -> [u64; 4] {
    let mut kept = RoundBucket::full(min_rate, burst);
    let first = kept.reserve();
    kept.spend(first);
    kept.refill_to(3, TICKS);
    let third = kept.reserve();
    kept.spend(third);
    kept.refill_to(5, TICKS);
    let fifth = kept.reserve();
    kept.refill_to(7, TICKS);
    [first, third, fifth, kept.reserve()]
}

#[test]
fn reserves_of_rounds(rt: HostRuntime) {
    let found = (reserves_of(1_280_000, 1_522), reserves_of(0, 1_522));
    let wanted = ([1_522, 960, 640, 1_280], [0, 0, 0, 0]);
    same(&rt, &found, &wanted, "reserves");
}
