ghost use Rattle.std.specs.Prelude.{◌*◌, ◌%◌, ◌^◌, ⊤};

use super::kept_base::by_kept;
use std::alloc::{AllocError, Global};
use std::process::Abort;
use std::sync::Wait;
use std::thread::Threads;
use us_crew::{CrewFault, Gate, Phase, Work, map_owned};

/// What is answered for numbers.
pub(super) type Answered = Result<Vec<u64>, CrewFault<u64>>;

/// An answer as these tests tell it: the numbers as digits to a base, of which the last 64 bits are told, or the fault.
/// It owns nothing.
pub(super) type Told = Result<u64, CrewFault<u64>>;

/// The one assertion of these tests.
pub(super) fn same(rt: &impl Abort, found: Told, wanted: Told) {
    assert_eq!(rt; found, wanted);
}

/// Doubles numbers, and refuses each above `most` with that number. Its clauses don't say so, as those of a work that
/// only finds no memory: so no clause of a call says which of several it names.
#[derive(Clone, Copy)]
pub(super) struct Doubling {
    pub(super) most: u64,
}

impl Work<u64, u64, u64> for Doubling {
    ghost accepts = { λ _ _ _. ⊤ };

    ghost value = { λ _ _ number. number * 2 % 2 ^ 64 };

    ghost may_fail = { λ _ _ _ _. ⊤ };

    ghost must_fail = { λ _ _ _. ⊥ };

    fn run(&self, _alloc: Global, _index: usize, number: u64) -> Result<u64, u64> {
        if number > self.most {
            Err(number)
        } else {
            Ok(number.wrapping_mul(2))
        }
    }
}

/// Numbers to double, from 1 up, by workers that are started anew, or in rounds by workers that are kept.
#[derive(Clone, Copy)]
pub(super) struct Case {
    pub(super) numbers: u64,
    /// Those above are refused.
    pub(super) most: u64,
    pub(super) workers: usize,
    pub(super) phase: Phase,
    /// Of the digits that are told.
    pub(super) base: u64,
    /// The rounds of workers that are kept, each of two phases. Without any, workers are started anew.
    pub(super) rounds: u32,
    /// The turns before a round in which nothing is called.
    pub(super) pause: u32,
    /// The most threads beside the owner of workers that are kept.
    pub(super) helpers: usize,
    /// The answer. Workers that are kept halve the numbers too: those digits follow.
    pub(super) answer: Told,
}

pub(super) const DOUBLED: Case = Case {
    numbers: 5,
    most: u64::MAX,
    workers: 3,
    phase: Phase::Fill,
    base: 16,
    rounds: 0,
    pause: 0,
    helpers: usize::MAX,
    answer: Ok(0x2468a),
};

/// The same by workers that are kept.
pub(super) const KEPT: Case = Case {
    rounds: 3,
    answer: Ok(0x2468a_01122),
    ..DOUBLED
};

/// What is answered for a case by its workers.
pub(super) fn answer_of<H: Threads + Wait + Sync, G: Gate + Sync>(
    threads: &H,
    alloc: Global,
    case: &Case,
    gate: &G,
) -> Told {
    if case.rounds > 0 {
        return by_kept(threads, alloc, case, gate);
    }
    let Ok(numbers) = numbers_to(alloc, case.numbers) else {
        return Err(CrewFault::NoMemory);
    };
    let work = Doubling { most: case.most };
    let answer = map_owned(
        threads,
        alloc,
        &work,
        case.phase,
        numbers,
        case.workers,
        gate,
    );
    tell(Ok(0), answer, case.base)
}

/// The numbers from 1 to this.
pub(super) fn numbers_to(alloc: Global, last: u64) -> Result<Vec<u64>, AllocError> {
    (1..=last).collect(alloc)
}

/// Tells of an answer, behind what was told before. Of two faults the answer's is told.
pub(super) fn tell(before: Told, answer: Answered, base: u64) -> Told {
    match answer {
        Ok(numbers) => before.and(Ok(digits(before.unwrap_or(0), &numbers, base))),
        Err(fault) => Err(fault),
    }
}

/// Numbers in their order, as digits to a base behind those that are told.
pub(super) fn digits(mut told: u64, numbers: &[u64], base: u64) -> u64 {
    for number in numbers {
        told = told.wrapping_mul(base).wrapping_add(*number);
    }
    told
}
