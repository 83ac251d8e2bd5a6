ghost use Rattle.std.specs.Prelude.{⊤};

use super::base::{Case, answer_of, same};
use super::rounds::BONDED;
use std::alloc::{AllocError, Global};
use std::sync::Wait;
use std::sync::atomic::{AtomicU64, Ordering};
use std::test::Fail;
use std::thread::{Threads, yield_now};
use us_crew::{Gate, OpenGate, Phase};

/// Two bonded channels are answered the same by some numbers of workers, and are refused for others.
#[test]
fn numbers_of_workers(rt: HostRuntime) -> Result<(), Fail> {
    for workers in [2_usize, 16, 64, 0, 65] {
        let wanted = if workers == 0 || workers == 65 {
            "RO1: the workers are not 1 to 64"
        } else {
            BONDED.answer
        };
        let answer = answer_of(&rt, rt.alloc(), &BONDED, workers, &OpenGate)?;
        same(&rt, "workers", answer.as_str(), wanted);
    }
    Ok(())
}

/// A gate that holds each channel, for at most so many turns, until all channels have entered in its round and phase. How
/// often a channel has entered in a phase is its round there: of the word that counts them it has a digit of so many bits.
#[derive(Drop)]
struct Meeting {
    bits: usize,
    /// One in each digit.
    ones: u64,
    turns: u64,
    fills: AtomicU64,
    builds: AtomicU64,
    alone: AtomicU64,
}

impl Meeting {
    fn of(channels: u8, turns: u64) -> Meeting {
        let (bits, ones) = if channels == 2 {
            (32, ONES_OF_TWO)
        } else {
            (4, ONES)
        };
        Meeting {
            bits,
            ones,
            turns,
            fills: AtomicU64::new(0),
            builds: AtomicU64::new(0),
            alone: AtomicU64::new(0),
        }
    }

    /// What is counted in each phase, and how often one was alone.
    fn seen(&self) -> (u64, u64, u64) {
        (
            self.fills.load(Ordering::SeqCst),
            self.builds.load(Ordering::SeqCst),
            self.alone.load(Ordering::SeqCst),
        )
    }
}

impl Gate for Meeting {
    ghost entered = { λ _ _ _. ⊤ };

    fn enter(&self, phase: Phase, index: usize) {
        let counts = match phase {
            Phase::Fill => &self.fills,
            Phase::Build => &self.builds,
            // A round collects nothing.
            Phase::Collect => return,
        };
        let one = 1_u64 << (self.bits.wrapping_mul(index) % 64);
        counts.fetch_add(one, Ordering::SeqCst);
        for _ in 0..self.turns {
            // Its own digit stays, so these are equal once all channels are in its round.
            if counts.load(Ordering::SeqCst) % self.ones.max(1) == 0 {
                return;
            }
            yield_now();
        }
        self.alone.fetch_add(1, Ordering::SeqCst);
    }
}

/// One in each digit of two, and of 16.
const ONES_OF_TWO: u64 = 0x1_0000_0001;

const ONES: u64 = 0x1111_1111_1111_1111;

/// What is seen, and whether the answer is that of one worker.
type Held = ((u64, u64, u64), bool);

/// As many channels as there may be, in two rounds.
pub(super) const ALL_CHANNELS: Case<'static> = Case {
    name: "16 channels",
    channels: 16,
    answer: "0: MAP 3 0; MAP 3 0; MAP 3 0; MAP 3 0; MAP 3 0; MAP 3 0; MAP 3 0; MAP 3 0; \
        MAP 3 0; MAP 3 0; MAP 3 0; MAP 3 0; MAP 3 0; MAP 3 0; MAP 3 0; MAP 3 0; \
        1: 1 0+126 4000, 1 126+24 744, 2 0+126 4000, 2 126+24 744, \
        MAP 4 0; MAP 4 0; MAP 3 0; MAP 3 0; MAP 3 0; MAP 3 0; MAP 3 0; MAP 3 0; \
        MAP 3 0; MAP 3 0; MAP 3 0; MAP 3 0; MAP 3 0; MAP 3 0; MAP 3 0; MAP 3 0; left 0 None, left 512 None, ",
    ..BONDED
};

/// Two bonded channels, in the first and in the last of several rounds, and in those between.
const TWO_CHANNELS: Case<'static> = Case {
    rounds: 5,
    ..BONDED
};

/// Two bonded channels, in many rounds.
const MANY_ROUNDS: Case<'static> = Case {
    rounds: 1_000,
    ..BONDED
};

/// Makes the run of a case with so many workers, each of whom is held at its channel for at most so many turns.
fn held<H: Threads + Wait + Sync>(
    threads: &H,
    alloc: Global,
    case: &Case<'_>,
    workers: usize,
    turns: u64,
) -> Result<Held, AllocError> {
    let gate = Meeting::of(case.channels, turns);
    let wanted = answer_of(threads, alloc, case, 1, &OpenGate)?;
    let answer = answer_of(threads, alloc, case, workers, &gate)?;
    Ok((gate.seen(), answer == wanted))
}

/// Each channel is held by its worker until all are, in phase `Fill` and in phase `Build` of each round.
#[test]
fn workers_meet(rt: HostRuntime) -> Result<(), Fail> {
    let all = held(&rt, rt.alloc(), &ALL_CHANNELS, 16, 100_000_000)?;
    assert!(&rt;
        all == ((2 * ONES, 2 * ONES, 0), true),
        "one of 16 came alone, or not at all"
    );
    let two = held(&rt, rt.alloc(), &TWO_CHANNELS, 2, 100_000_000)?;
    assert!(&rt;
        two == ((5 * ONES_OF_TWO, 5 * ONES_OF_TWO, 0), true),
        "one of 2 came alone, or not at all"
    );
    Ok(())
}

/// They meet as well where the gate has no limit, in each of a thousand rounds.
#[test]
fn workers_meet_without_limit(rt: HostRuntime) -> Result<(), Fail> {
    let two = held(&rt, rt.alloc(), &MANY_ROUNDS, 2, u64::MAX)?;
    assert!(&rt;
        two == ((1_000 * ONES_OF_TWO, 1_000 * ONES_OF_TWO, 0), true),
        "one of 2 came alone, or not at all"
    );
    Ok(())
}

/// One worker is held in vain at each channel but the last.
#[test]
fn one_worker_is_alone(rt: HostRuntime) -> Result<(), Fail> {
    let one = held(&rt, rt.alloc(), &BONDED, 1, 10)?;
    assert!(&rt;
        one == ((2 * ONES_OF_TWO, 2 * ONES_OF_TWO, 4), true),
        "one worker met another"
    );
    Ok(())
}
