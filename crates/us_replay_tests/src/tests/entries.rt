ghost use Rattle.std.specs.Prelude.{⊤};

use super::base::{BONDED_MAPS, BONDED_REPORT, BONDED_TRACE, bonded, same};
use super::devices::{reader, writer};
use super::replays::outcome;
use std::alloc::{AllocError, Global};
use std::sync::Wait;
use std::sync::atomic::{AtomicU64, Ordering};
use std::thread::Threads;
use us_crew::{Gate, Phase};

/// How often the gate is entered for each item of collecting, of filling and of building: each has a hexadecimal digit,
/// the first one the last.
type Entries = (u64, u64, u64);

/// A gate that holds nobody and counts.
#[derive(Drop)]
struct Counting {
    collect: AtomicU64,
    fill: AtomicU64,
    build: AtomicU64,
}

impl Counting {
    fn new() -> Counting {
        Counting {
            collect: AtomicU64::new(0),
            fill: AtomicU64::new(0),
            build: AtomicU64::new(0),
        }
    }

    fn seen(&self) -> Entries {
        (
            self.collect.load(Ordering::SeqCst),
            self.fill.load(Ordering::SeqCst),
            self.build.load(Ordering::SeqCst),
        )
    }
}

impl Gate for Counting {
    ghost entered = { λ _ _ _. ⊤ };

    fn enter(&self, phase: Phase, index: usize) {
        let count = match phase {
            Phase::Collect => &self.collect,
            Phase::Fill => &self.fill,
            Phase::Build => &self.build,
        };
        count.fetch_add(1 << (4 * index.min(15)), Ordering::SeqCst);
    }
}

/// A request, and five of the same clusters and bytes as the two of the bonded run.
const ONE: &[u8] = b"tick,channel,sid,units\n0,1,257,2000\n";

const FIVE: &[u8] = b"tick,channel,sid,units
0,1,257,1000
0,2,258,600
0,1,257,400
0,2,274,300
0,1,273,200
";

/// Traces of the bonded run, all of whose requests are of one round, numbers of workers, and the entries of 2 rounds over 2
/// channels. There are as many chunks as workers, or requests if these are fewer.
static ENTRIES: [(&[u8], usize, Entries); 8] = [
    (ONE, 1, (0x1, 0x22, 0x22)),
    (ONE, 2, (0x1, 0x22, 0x22)),
    (ONE, 16, (0x1, 0x22, 0x22)),
    (BONDED_TRACE, 1, (0x1, 0x22, 0x22)),
    (BONDED_TRACE, 16, (0x11, 0x22, 0x22)),
    (FIVE, 1, (0x1, 0x22, 0x22)),
    (FIVE, 2, (0x11, 0x22, 0x22)),
    (FIVE, 16, (0x11111, 0x22, 0x22)),
];

/// Replays a trace over so many rounds of the bonded run's tables.
pub(super) fn replay_past(
    threads: &(impl Threads + Wait + Sync),
    alloc: Global,
    trace: &[u8],
    rounds: u32,
    workers: usize,
    gate: &(impl Gate + Sync),
) {
    if let Ok(config) = bonded(alloc) {
        let (maps, report) = (writer(BONDED_MAPS, 100), writer(BONDED_REPORT, 100));
        let trace = reader(trace, false);
        let _ = outcome(
            threads, alloc, &config, rounds, workers, gate, trace, maps, report,
        );
    }
}

/// Each item is entered for once, whoever does it.
#[test]
fn entered_once_for_each_item(rt: HostRuntime) {
    for &(trace, workers, wanted) in &ENTRIES {
        let gate = Counting::new();
        replay_past(&rt, rt.alloc(), trace, 2, workers, &gate);
        same(&rt, &(workers, gate.seen()), &(workers, wanted), "entries");
    }
}

/// A gate that holds nobody and counts the chunks that are collected.
#[derive(Drop)]
struct Chunks {
    seen: AtomicU64,
}

impl Gate for Chunks {
    ghost entered = { λ _ _ _. ⊤ };

    fn enter(&self, phase: Phase, _index: usize) {
        if let Phase::Collect = phase {
            self.seen.fetch_add(1, Ordering::SeqCst);
        }
    }
}

/// A trace of so many requests in each of so many rounds of 320 ticks. They count from round 1 on.
pub(super) fn requests(alloc: Global, rounds: u16, each: usize) -> Result<String, AllocError> {
    let mut text = String::new(alloc);
    text.push_str("tick,channel,sid,units\n")?;
    for round in 0..rounds {
        let line = format!(in alloc; "{},1,257,10\n", 320 * u32::from(round))?;
        for _ in 0..each {
            text.push_str(&line)?;
        }
    }
    Ok(text)
}

/// There are as many chunks as workers, for the most of these that there may be.
#[test]
fn chunks_of_64_workers(rt: HostRuntime) {
    let gate = Chunks {
        seen: AtomicU64::new(0),
    };
    if let Ok(trace) = requests(rt.alloc(), 1, 64) {
        replay_past(&rt, rt.alloc(), trace.as_bytes(), 2, 64, &gate);
    }
    same(&rt, &gate.seen.load(Ordering::SeqCst), &64, "chunks");
}
