ghost use Rattle.std.specs.Prelude.{◌≡◌, ◌≤◌, ⊤};
ghost use Rattle.us_live.specs.Lives.{Feeds};

use super::base::{BONDED, CALL, open, same};
use crate::{Live, LiveFault};
use std::alloc::Global;
use std::sync::Wait;
use std::sync::atomic::{AtomicU64, Ordering};
use std::thread::{Threads, yield_now};
use us_codec::{MAX_BODY_BYTES, encode_into};
use us_crew::{Gate, Phase};
use us_intake::{Intake, Seat};
use us_round::RoundOut;

/// A gate that holds each channel, for at most so many turns, until all channels have entered in its round and phase. How
/// often a channel has entered in a phase is its round there: of the word that counts them it has a digit of so many bits.
#[derive(Drop)]
struct Meeting {
    bits: usize,
    /// One in each digit.
    ones: u64,
    turns: u64,
    fills: AtomicU64,
    builds: AtomicU64,
    alone: AtomicU64,
}

impl Gate for Meeting {
    ghost entered = { λ _ _ _. ⊤ };

    fn enter(&self, phase: Phase, index: usize) {
        let counts = match phase {
            Phase::Fill => &self.fills,
            Phase::Build => &self.builds,
            // A round collects nothing.
            Phase::Collect => return,
        };
        let one = 1_u64 << (self.bits.wrapping_mul(index) % 64);
        counts.fetch_add(one, Ordering::SeqCst);
        for _ in 0..self.turns {
            // Its own digit stays, so these are equal once all channels are in its round.
            if counts.load(Ordering::SeqCst) % self.ones.max(1) == 0 {
                return;
            }
            yield_now();
        }
        self.alone.fetch_add(1, Ordering::SeqCst);
    }
}

/// Rounds by so many workers, each of whom is held at its channel for at most so many turns.
#[derive(Clone, Copy)]
struct Plan {
    channels: u8,
    flows: &'static str,
    bits: usize,
    ones: u64,
    rounds: u32,
    workers: usize,
    turns: u64,
    /// What is submitted to the first two words before round 1.
    asks: (u32, u32),
    /// The bodies of the first MAPs of round 1.
    bodies: &'static [&'static [u8]],
}

/// How many of the MAPs of a round have these bodies.
fn right_maps(out: &RoundOut, bodies: &[&[u8]]) -> u64 {
    let mut right = 0_u64;
    for (map, body) in out.maps().iter().zip(bodies) {
        let mut found = [0_u8; MAX_BODY_BYTES];
        let length = encode_into(map, &mut found);
        right = right.wrapping_add(u64::from(&found[..length] == *body));
    }
    right
}

/// Submits to the first two words.
fn ask(intake: &Intake, seat: &mut Seat, asks: (u32, u32))
    requires own { seat.old.intake ≡ intake.now }
    requires both { 2 ≤ intake.now.clusters }
    ensures { seat.new.intake ≡ intake.now }
{
    let _ = intake.submit(seat, 0, asks.0);
    let _ = intake.submit(seat, 1, asks.1);
}

/// Makes the rounds of a plan, in which another seat asks before round 1. How many MAPs are those that come then.
fn make_rounds<H: Threads + Wait + Sync>(
    threads: &H,
    alloc: Global,
    live: &mut Live,
    intake: &Intake,
    first: &mut Seat,
    second: &mut Seat,
    plan: &Plan,
    gate: &Meeting,
) -> Result<u64, LiveFault>
    requires feeds { Feeds live.old intake.now first.old }
    requires own { second.old.intake ≡ intake.now }
    requires both { 2 ≤ intake.now.clusters }
{
    let mut right = 0_u64;
    for round in 0..plan.rounds {
        if round == 1 {
            ask(intake, second, plan.asks);
        }
        let out = live.next_round(threads, alloc, intake, first, plan.workers, gate)?;
        right = right.wrapping_add(right_maps(&out, plan.bodies));
    }
    Ok(right)
}

/// Opens a scheduler, and makes the rounds of a plan. The seat that asks isn't joined.
fn run<H: Threads + Wait + Sync>(
    threads: &H,
    alloc: Global,
    plan: &Plan,
    gate: &Meeting,
) -> Result<u64, LiveFault> {
    let (mut live, intake, mut first, mut second) = open(
        alloc,
        plan.channels,
        plan.flows,
        plan.rounds,
    )?;
    make_rounds(
        threads,
        alloc,
        &mut live,
        &intake,
        &mut first,
        &mut second,
        plan,
        gate,
    )
}

/// What is seen in the rounds of a plan: the counts of phase `Fill` and of phase `Build`, how often one was alone, and how
/// many MAPs were as they have to be in round 1.
type Seen = Result<(u64, u64, u64, u64), LiveFault>;

fn seen<H: Threads + Wait + Sync>(threads: &H, alloc: Global, plan: &Plan) -> Seen {
    let gate = Meeting {
        bits: plan.bits,
        ones: plan.ones,
        turns: plan.turns,
        fills: AtomicU64::new(0),
        builds: AtomicU64::new(0),
        alone: AtomicU64::new(0),
    };
    let right = run(threads, alloc, plan, &gate)?;
    Ok((
        gate.fills.load(Ordering::SeqCst),
        gate.builds.load(Ordering::SeqCst),
        gate.alone.load(Ordering::SeqCst),
        right,
    ))
}

/// What has to be seen, where one is alone so often.
fn wanted(plan: &Plan, alone: u64) -> Seen {
    let count = plan.ones.wrapping_mul(u64::from(plan.rounds));
    Ok((count, count, alone, plan.bodies.len() as u64))
}

/// Two bonded channels. One cluster has minislots 0 to 126 of the first, and the other the rest; on the second an
/// unsolicited grant stands between.
const TWO: Plan = Plan {
    channels: 2,
    flows: BONDED,
    bits: 32,
    ones: 0x1_0000_0001,
    rounds: 5,
    workers: 2,
    turns: 100_000_000,
    asks: (8_000, 2_000),
    bodies: &[
        b"\x01\x00\x04\x00\x00\x00\x00\xa0\x00\x00\x00\x50\x02\x06\x03\x08\
        \x04\x06\x80\x00\x04\x46\x80\x7f\xff\xfc\x40\x96\x00\x01\xc0\xa0",
        b"\x02\x00\x06\x00\x00\x00\x00\xa0\x00\x00\x00\x50\x02\x06\x03\x08\
        \x04\x4a\x80\x00\xff\xfc\x40\x17\x08\x06\xc0\x46\x04\x0a\x80\x47\
        \xff\xfc\x40\x96\x00\x01\xc0\xa0",
    ],
};

/// As many channels as there may be.
const ALL: Plan = Plan {
    channels: 16,
    bits: 4,
    ones: 0x1111_1111_1111_1111,
    rounds: 2,
    workers: 16,
    ..TWO
};

/// A call alone, which falls silent: its poll has minislots 0 and 1, where its grant would have had more.
const SILENT: Plan = Plan {
    channels: 1,
    flows: CALL,
    ones: 1,
    rounds: 2,
    workers: 1,
    asks: (1_000, 0),
    bodies: &[
        b"\x01\x00\x04\x00\x00\x00\x00\xa0\x00\x00\x00\x50\x02\x06\x03\x08\
        \x08\x04\x40\x00\xff\xfc\x40\x02\xff\xfc\x40\x96\x00\x01\xc0\xa0",
    ],
    ..TWO
};

/// Each of 16 channels is held by its worker until all are, in phase `Fill` and in phase `Build` of both rounds. So are
/// two bonded channels, in the first and in the last of several rounds, and in those between.
#[test]
fn workers_meet(rt: HostRuntime) {
    for plan in &[ALL, TWO] {
        same(&rt, seen(&rt, rt.alloc(), plan), wanted(plan, 0));
    }
}

/// So are these where the gate has no limit, in each of a thousand rounds.
#[test]
fn workers_meet_without_limit(rt: HostRuntime) {
    let plan = Plan {
        rounds: 1_000,
        turns: u64::MAX,
        ..TWO
    };
    same(&rt, seen(&rt, rt.alloc(), &plan), wanted(&plan, 0));
}

/// What another seat submits is in the cut, and one worker makes the same rounds. It is held in vain at all channels but the
/// last.
#[test]
fn other_seats_are_cut(rt: HostRuntime) {
    let one = Plan {
        workers: 1,
        turns: 10,
        ..TWO
    };
    for (plan, alone) in &[(one, 10), (SILENT, 0)] {
        same(&rt, seen(&rt, rt.alloc(), plan), wanted(plan, *alone));
    }
}

/// Run by `tools/refuse-memory` too, where each allocation is refused in turn. A refused one is answered as want of
/// memory, by whatever number of workers. Nobody is waited for.
#[test]
fn refused_memory(rt: HostRuntime) {
    for workers in [1, 2, 16] {
        let plan = Plan {
            workers,
            rounds: 2,
            turns: 0,
            ..if workers < 16 { TWO } else { ALL }
        };
        let found = seen(&rt, rt.alloc(), &plan);
        if found != Err(LiveFault::NoMemory) {
            let alone = 4 * u64::from(plan.channels);
            same(&rt, found, wanted(&plan, alone));
        }
    }
}
