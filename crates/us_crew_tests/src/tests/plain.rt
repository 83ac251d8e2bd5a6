use super::base::{Case, DOUBLED, Told, answer_of, digits, same};
use rayon::prelude::*;
use std::alloc::Global;
use std::thread::Threads;
use us_crew::{CrewFault, OpenGate, Phase};

/// How many numbers are doubled, from 1 up.
const COUNT: u64 = 5_000;

/// A base in which what is told depends on each of them.
const BASE: u64 = 1_000_003;

static MANY: Case = Case {
    numbers: COUNT,
    workers: 7,
    phase: Phase::Build,
    base: BASE,
    answer: Ok(0x219e815283883de8),
    ..DOUBLED
};

fn double(number: u64) -> u64 {
    number.wrapping_mul(2)
}

/// Twice each number, by `rayon`.
fn by_rayon(threads: &(impl Threads + Sync), alloc: Global) -> Told {
    let doubled: Result<Vec<u64>, _> = (1..COUNT + 1)
        .into_par_iter()
        .map(double)
        .collect(threads, alloc);
    match doubled {
        Ok(doubled) => Ok(digits(0, &doubled, BASE)),
        Err(_) => Err(CrewFault::NoMemory),
    }
}

#[test]
fn as_rayon_collects(rt: HostRuntime) {
    let rt = &rt;
    let alloc = rt.alloc();
    same(rt, answer_of(rt, alloc, &MANY, &OpenGate), MANY.answer);
    same(rt, by_rayon(rt, alloc), MANY.answer);
}
