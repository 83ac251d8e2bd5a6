ghost use Rattle.std.specs.Prelude.{⊤};

use super::base::same;
use super::entries::{replay_past, requests};
use super::workers::{BONDED_OUTCOME, expect};
use std::alloc::{AllocError, Global};
use std::process::Abort;
use std::sync::Wait;
use std::sync::atomic::{AtomicUsize, Ordering};
use std::test::Fail;
use std::thread::{Threads, yield_now};
use us_crew::{Gate, Phase};

/// Where the items of a round meet in a phase. It counts how often each has entered: that is its round among those which
/// have this phase.
#[derive(Drop)]
struct Square {
    rounds: Vec<AtomicUsize>,
    alone: AtomicUsize,
}

impl Square {
    fn of(alloc: Global, items: usize) -> Result<Square, AllocError> {
        let mut rounds = Vec::new(alloc);
        for _ in 0..items {
            rounds.push(AtomicUsize::new(0))?;
        }
        Ok(Square {
            rounds,
            alone: AtomicUsize::new(0),
        })
    }

    /// In how many rounds all items have entered.
    fn all(&self) -> usize {
        let mut least = usize::MAX;
        for rounds in &self.rounds {
            least = least.min(rounds.load(Ordering::SeqCst));
        }
        least
    }

    /// Whether all have entered in a round behind so many, after at most so many turns.
    fn meets(&self, before: usize, turns: u64) -> bool {
        for _ in 0..turns {
            if self.all() > before {
                return true;
            }
            yield_now();
        }
        false
    }

    /// Enters for an item, and stays until all others have entered in its round too, for at most so many turns.
    fn enter(&self, index: usize, turns: u64) {
        let met = match self.rounds.get(index) {
            Some(rounds) => self.meets(rounds.fetch_add(1, Ordering::SeqCst), turns),
            None => false,
        };
        if !met {
            self.alone.fetch_add(1, Ordering::SeqCst);
        }
    }

    /// In how many rounds all have entered, and how often one was alone.
    fn seen(&self) -> (usize, usize) {
        (self.all(), self.alone.load(Ordering::SeqCst))
    }
}

/// A gate with a square for each phase.
#[derive(Drop)]
struct Meeting {
    turns: u64,
    collect: Square,
    fill: Square,
    build: Square,
}

/// What is seen at the squares: of a phase in how many rounds all have entered, and how often one was alone.
type Seen = ((usize, usize), (usize, usize), (usize, usize));

impl Meeting {
    /// Requests as so many items of a round, over two channels.
    fn of(alloc: Global, chunks: usize, turns: u64) -> Result<Meeting, AllocError> {
        Ok(Meeting {
            turns,
            collect: Square::of(alloc, chunks)?,
            fill: Square::of(alloc, 2)?,
            build: Square::of(alloc, 2)?,
        })
    }

    fn seen(&self) -> Seen {
        (self.collect.seen(), self.fill.seen(), self.build.seen())
    }
}

impl Gate for Meeting {
    ghost entered = { λ _ _ _. ⊤ };

    fn enter(&self, phase: Phase, index: usize) {
        let square = match phase {
            Phase::Collect => &self.collect,
            Phase::Fill => &self.fill,
            Phase::Build => &self.build,
        };
        square.enter(index, self.turns);
    }
}

/// A run by so many workers, with as many requests in each round, over two bonded channels.
#[derive(Clone, Copy)]
struct Run {
    rounds: u16,
    workers: usize,
    turns: u64,
}

/// What is seen in a run.
fn seen_in(
    threads: &(impl Threads + Wait + Sync),
    alloc: Global,
    run: Run,
) -> Result<Seen, AllocError> {
    let requests_each = if run.workers == 1 { 2 } else { run.workers };
    let gate = Meeting::of(alloc, run.workers, run.turns)?;
    let trace = requests(alloc, run.rounds, requests_each)?;
    let rounds = u32::from(run.rounds).saturating_add(1);
    replay_past(threads, alloc, trace.as_bytes(), rounds, run.workers, &gate);
    Ok(gate.seen())
}

/// Compares what is seen in a run with what has to be.
fn compare(rt: &(impl Abort + Threads + Wait + Sync), alloc: Global, run: Run, wanted: Seen) {
    same(rt, &seen_in(rt, alloc, run).ok(), &Some(wanted), "met");
}

/// In each round but the first two requests are collected by two workers, who meet there, and over two channels in both
/// other phases of each round.
#[test]
fn two_workers_meet(rt: HostRuntime) {
    let run = Run {
        rounds: 5,
        workers: 2,
        turns: 100_000_000,
    };
    compare(&rt, rt.alloc(), run, ((5, 0), (6, 0), (6, 0)));
}

/// So they do in the bonded run, which comes to what it does by one worker.
#[test]
fn two_workers_share_the_bonded_run(rt: HostRuntime) -> Result<(), Fail> {
    let gate = Meeting::of(rt.alloc(), 2, 100_000_000)?;
    expect(&rt, rt.alloc(), 2, &gate, BONDED_OUTCOME);
    same(&rt, &gate.seen(), &((1, 0), (2, 0), (2, 0)), "met");
    Ok(())
}

/// So they do where the gate has no limit, in each of a thousand rounds.
#[test]
fn two_workers_meet_without_limit(rt: HostRuntime) {
    let run = Run {
        rounds: 999,
        workers: 2,
        turns: u64::MAX,
    };
    compare(&rt, rt.alloc(), run, ((999, 0), (1_000, 0), (1_000, 0)));
}

/// As many as there may be meet over the requests of each round, 16 as well.
#[test]
fn as_many_as_may_be_meet(rt: HostRuntime) {
    for workers in [16, 64] {
        let run = Run {
            rounds: 10,
            workers,
            turns: 100_000_000,
        };
        compare(&rt, rt.alloc(), run, ((10, 0), (11, 0), (11, 0)));
    }
}

/// One worker has all requests of a round, as one item, and is held in vain at each.
#[test]
fn one_worker_is_alone(rt: HostRuntime) {
    let run = Run {
        rounds: 1,
        workers: 1,
        turns: 0,
    };
    compare(&rt, rt.alloc(), run, ((1, 1), (2, 4), (2, 4)));
}
