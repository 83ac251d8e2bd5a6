ghost use Rattle.std.specs.Prelude.{◌≤◌};

use super::base::same;
use crate::{Event, MAX_REFILL_TICKS, OverBound, UNITS_PER_BYTE, allowance, reserve};
use std::alloc::{AllocError, Global};

/// A flow's limit.
#[derive(Clone, Copy)]
struct Limit {
    rate: u32,
    burst: u32,
    round_ticks: u32,
}

/// The most bytes of a span of `later + 1` rounds.
fn most_bytes(limit: &Limit, later: usize) -> u64 {
    let round = u64::from(limit.round_ticks).saturating_mul(u64::from(limit.rate));
    let burst = u64::from(limit.burst).saturating_mul(UNITS_PER_BYTE);
    burst.saturating_add(round.saturating_mul(later as u64)) / UNITS_PER_BYTE
}

/// What may be credited now, found over all spans of rounds with no bucket. `credits` are by round, up to now.
fn plain_allowance(limit: &Limit, credits: &[u64]) -> Result<u64, OverBound> {
    let mut least = Ok(u64::MAX);
    for last in 0..credits.len() {
        least = span_room(limit, &credits[..=last]);
        if least.is_err() {
            return least;
        }
    }
    least
}

/// How many bytes more the spans that end with the last round have room for.
fn span_room(limit: &Limit, credits: &[u64]) -> Result<u64, OverBound> {
    let mut least = u64::MAX;
    let mut sum = 0u64;
    for (later, bytes) in credits.iter().rev().enumerate() {
        sum = sum.saturating_add(*bytes);
        let most = most_bytes(limit, later);
        if sum > most {
            return Err(OverBound);
        }
        least = least.min(most - sum);
    }
    Ok(least)
}

/// What is allowed after some events, and what is reserved.
type Answers = (Result<Option<u64>, OverBound>, Result<u64, OverBound>);

/// The answers of the plain program: at a rate of 0 there is no limit, and nothing is reserved.
fn plain_answers(limit: &Limit, credits: &[u64]) -> Answers {
    if limit.rate == 0 {
        return (Ok(None), Ok(0));
    }
    match plain_allowance(limit, credits) {
        Ok(most) => (Ok(Some(most)), Ok(most)),
        Err(over) => (Err(over), Err(over)),
    }
}

/// The answers of the bucket.
fn answers(limit: &Limit, events: &[Event]) -> Answers
    requires { limit.now.round_ticks ≤ 67108864 }
{
    (
        allowance(limit.rate, limit.burst, limit.round_ticks, events),
        reserve(limit.rate, limit.burst, limit.round_ticks, events),
    )
}

/// The next of a row of numbers without order.
fn next_number(state: &mut u64) -> u64 {
    *state = state
        .wrapping_mul(6_364_136_223_846_793_005)
        .wrapping_add(1_442_695_040_888_963_407);
    *state >> 33
}

/// Rounds and credits, and the bytes credited in each round.
#[derive(Drop)]
struct History {
    events: Vec<Event>,
    credits: Vec<u64>,
}

impl History {
    fn new(alloc: Global) -> Result<History, AllocError> {
        let mut credits = Vec::new(alloc);
        credits.push(0)?;
        Ok(History {
            events: Vec::new(alloc),
            credits,
        })
    }

    fn start_round(&mut self) -> Result<(), AllocError> {
        self.events.push(Event::NextRound)?;
        self.credits.push(0)?;
        Ok(())
    }

    fn credit(&mut self, bytes: u64) -> Result<(), AllocError> {
        self.events.push(Event::Credit(bytes))?;
        if let Some(now) = self.credits.last_mut() {
            *now = now.saturating_add(bytes);
        }
        Ok(())
    }
}

/// Adds one event: a round, or a credit of all that is allowed, of a part, or now and then of a byte too many.
fn add_event(history: &mut History, allowed: u64, state: &mut u64) -> Result<(), AllocError> {
    let part = next_number(state) % allowed.saturating_add(1);
    match next_number(state) % 16 {
        0..=6 => history.start_round(),
        7..=10 => history.credit(allowed),
        11..=14 => history.credit(part),
        _ => history.credit(allowed.saturating_add(next_number(state) / 0x6000_0000)),
    }
}

/// Where the bucket and the plain program first differ, over some events without order. None come after a byte too
/// many.
fn first_difference(alloc: Global, limit: &Limit, seed: u64) -> Result<Option<usize>, AllocError>
    requires { limit.now.round_ticks ≤ 67108864 }
{
    let mut history = History::new(alloc)?;
    let mut state = seed;
    for step in 0..40 {
        let plain = plain_answers(limit, &history.credits);
        if answers(limit, &history.events) != plain {
            return Ok(Some(step));
        }
        match plain.1 {
            Ok(most) => add_event(&mut history, most, &mut state)?,
            Err(OverBound) => return Ok(None),
        }
    }
    Ok(None)
}

static LIMITS: [Limit; 7] = [
    Limit {
        rate: 1_280_000,
        burst: 1_522,
        round_ticks: 320,
    },
    Limit {
        rate: 999,
        burst: 3,
        round_ticks: 1_000,
    },
    Limit {
        rate: 1_000_000_000,
        burst: 16_777_216,
        round_ticks: 320,
    },
    Limit {
        rate: 777_777,
        burst: 1_522,
        round_ticks: 161,
    },
    Limit {
        rate: u32::MAX,
        burst: u32::MAX,
        round_ticks: 4_096,
    },
    Limit {
        rate: 5_000_000,
        burst: 0,
        round_ticks: 400,
    },
    Limit {
        rate: 0,
        burst: 1_522,
        round_ticks: 320,
    },
];

/// Lists of rounds and credits under several limits, and under none.
#[test]
fn plain_program_agrees(rt: HostRuntime) {
    for limit in &LIMITS {
        if limit.round_ticks <= MAX_REFILL_TICKS {
            for seed in 0..30 {
                let found = first_difference(rt.alloc(), limit, seed);
                same(&rt, &(seed, found), &(seed, Ok(None)), "plain");
            }
        }
    }
}
