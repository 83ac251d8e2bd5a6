ghost use Rattle.std.specs.Prelude.{◌≤◌};

use super::base::same;
use crate::{Bucket, Event, MAX_REFILL_TICKS, OverBound, allowance, reserve};

/// The whole bytes and the units at the start of a round, and the units left when as much as possible was spent.
type Round = (Option<u64>, Option<u64>, Option<u64>);

/// Three rounds.
type Rounds = (Round, Round, Round);

/// Spends so many bytes, or as many as the bucket has.
fn spend_up_to(bucket: &mut Bucket, wanted: u64) -> Round {
    let bytes = bucket.bytes();
    let units = bucket.units();
    match bytes {
        Some(most) => bucket.spend(most.min(wanted)),
        None => bucket.spend(wanted),
    }
    (bytes, units, bucket.units())
}

/// Spends as much as possible in each of three rounds of so many ticks.
fn three_rounds(rate: u32, burst: u32, ticks: u32) -> Rounds
    requires { ticks ≤ 67108864 }
{
    let mut bucket = Bucket::full(rate, burst);
    let first = spend_up_to(&mut bucket, u64::MAX);
    bucket.refill(ticks);
    let second = spend_up_to(&mut bucket, u64::MAX);
    bucket.refill(ticks);
    (first, second, spend_up_to(&mut bucket, u64::MAX))
}

const NO_LIMIT: Round = (None, None, None);

const NOTHING: Round = (Some(0), Some(0), Some(0));

const BURST: Round = (Some(1_522), Some(1_948_160_000), Some(0));

const ALL_OF_320: Round = (Some(320), Some(409_600_000), Some(0));

const HIGHEST: Round = (Some(16_777_216), Some(21_474_836_480_000), Some(0));

const LARGEST: Round = (Some(4_294_967_295), Some(5_497_558_137_600_000), Some(0));

/// At 1,000 bit/s a round of 1,279 ticks lacks 1,000 units of a byte.
const PARTS: Rounds = (
    BURST,
    (Some(0), Some(1_279_000), Some(1_279_000)),
    (Some(1), Some(2_558_000), Some(1_278_000)),
);

/// At 1 bit/s 2^26 ticks are 52.4 bytes.
const SLOWEST: Rounds = (
    LARGEST,
    (Some(52), Some(67_108_864), Some(548_864)),
    (Some(52), Some(67_657_728), Some(1_097_728)),
);

/// Rates, bursts, the ticks of a round, and the rounds.
static ROUNDS: [(u32, u32, u32, Rounds); 7] = [
    (1_280_000, 1_522, 320, (BURST, ALL_OF_320, ALL_OF_320)),
    (1_000, 1_522, 1_279, PARTS),
    (0, 1_522, MAX_REFILL_TICKS, (NO_LIMIT, NO_LIMIT, NO_LIMIT)),
    (
        1_000_000_000,
        16_777_216,
        MAX_REFILL_TICKS,
        (HIGHEST, HIGHEST, HIGHEST),
    ),
    (
        u32::MAX,
        u32::MAX,
        MAX_REFILL_TICKS,
        (LARGEST, LARGEST, LARGEST),
    ),
    (u32::MAX, 0, MAX_REFILL_TICKS, (NOTHING, NOTHING, NOTHING)),
    (1, u32::MAX, MAX_REFILL_TICKS, SLOWEST),
];

#[test]
fn rounds(rt: HostRuntime) {
    for (rate, burst, ticks, wanted) in &ROUNDS {
        if *ticks <= MAX_REFILL_TICKS {
            let found = three_rounds(*rate, *burst, *ticks);
            same(&rt, &found, wanted, "rounds");
        }
    }
}

/// A refill stops at the cap, and a copy of the bucket stays as it was. Without a limit the bucket stays.
#[test]
fn refills(rt: HostRuntime) {
    let full = Bucket::full(1_280_000, 1_522);
    let mut bucket = full;
    let spent = spend_up_to(&mut bucket, 22);
    let left = bucket;
    bucket.refill(320);
    let wanted = (Some(1_522), Some(1_948_160_000), Some(1_920_000_000));
    same(
        &rt,
        &(spent, bucket, left == full),
        &(wanted, full, false),
        "the cap",
    );

    let full = Bucket::full(0, 1_522);
    let mut bucket = full;
    let spent = spend_up_to(&mut bucket, u64::MAX);
    same(
        &rt,
        &(spent, bucket),
        &((None, None, None), full),
        "no limit",
    );
}

/// Events at 1.28 Mbit/s with bursts of 1,522 bytes, and what is allowed behind them.
static HISTORIES: [(&[Event], Result<Option<u64>, OverBound>); 6] = [
    (&[], Ok(Some(1_522))),
    (&[Event::Credit(1_522)], Ok(Some(0))),
    (&[Event::Credit(1_522), Event::NextRound], Ok(Some(320))),
    (
        &[
            Event::Credit(1_522),
            Event::NextRound,
            Event::Credit(320),
            Event::NextRound,
        ],
        Ok(Some(320)),
    ),
    (&[Event::Credit(1_500), Event::Credit(23)], Err(OverBound)),
    (
        &[
            Event::NextRound,
            Event::Credit(1_522),
            Event::NextRound,
            Event::Credit(321),
        ],
        Err(OverBound),
    ),
];

#[test]
fn histories(rt: HostRuntime) {
    for (events, wanted) in &HISTORIES {
        let found = allowance(1_280_000, 1_522, 320, events);
        same(&rt, &found, wanted, "histories");
    }
    let found = allowance(0, 1_522, 320, &[Event::Credit(u64::MAX)]);
    same(&rt, &found, &Ok(None), "no limit");
}

/// Plans all that is reserved first.
#[tactic(auto, using(crate::proofs::LevelLemmas::has_reserved))]
fn plan_reserve(bucket: &mut Bucket) -> u64 {
    let bytes = bucket.reserve();
    bucket.spend(bytes);
    bytes
}

/// What is reserved at the start of each of three rounds of so many ticks, if all of it is planned first in each.
fn three_reserves(min_rate: u32, burst: u32, ticks: u32) -> (u64, u64, u64)
    requires { ticks ≤ 67108864 }
{
    let mut bucket = Bucket::full(min_rate, burst);
    let first = plan_reserve(&mut bucket);
    bucket.refill(ticks);
    let second = plan_reserve(&mut bucket);
    bucket.refill(ticks);
    (first, second, plan_reserve(&mut bucket))
}

/// Minimum rates, bursts, the ticks of a round, and what is reserved in the rounds. Without a minimum rate nothing is.
static RESERVES: [(u32, u32, u32, (u64, u64, u64)); 5] = [
    (1_280_000, 1_522, 320, (1_522, 320, 320)),
    (1_000, 1_522, 1_279, (1_522, 0, 1)),
    (0, 1_522, MAX_REFILL_TICKS, (0, 0, 0)),
    (
        1_000_000_000,
        16_777_216,
        4_096,
        (16_777_216, 3_200_000, 3_200_000),
    ),
    (u32::MAX, 0, MAX_REFILL_TICKS, (0, 0, 0)),
];

#[test]
fn reserves(rt: HostRuntime) {
    for (min_rate, burst, ticks, wanted) in &RESERVES {
        if *ticks <= MAX_REFILL_TICKS {
            let found = three_reserves(*min_rate, *burst, *ticks);
            same(&rt, &found, wanted, "reserves");
        }
    }
}

/// What is reserved behind all that was planned first in round 1, a byte more than that, and without a minimum rate.
#[test]
fn reserves_of_histories(rt: HostRuntime) {
    let planned = [Event::NextRound, Event::Credit(1_522), Event::NextRound];
    let over = [Event::NextRound, Event::Credit(1_523)];
    let found = (
        reserve(1_280_000, 1_522, 320, &planned),
        reserve(1_280_000, 1_522, 320, &over),
        reserve(0, 1_522, 320, &over),
    );
    same(&rt, &found, &(Ok(320), Err(OverBound), Ok(0)), "histories");
}
