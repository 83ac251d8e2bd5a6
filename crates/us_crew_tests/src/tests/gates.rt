ghost use Rattle.std.specs.Prelude.{⊤};

use super::base::{Case, DOUBLED, KEPT, answer_of, same};
use super::kept_base::{LONG, pause};
use std::alloc::Global;
use std::process::Abort;
use std::sync::Wait;
use std::sync::atomic::{AtomicU64, Ordering};
use std::thread::{Threads, yield_now};
use us_crew::{Gate, Phase};

/// A gate that holds some items, for at most so many turns: each until all of them have entered for its call.
#[derive(Drop)]
struct Meeting<'a> {
    held: &'a Held,
    turns: u64,
    /// A bit for each item that is held. A call has each item once, which turns its bit: so all are alike between calls.
    entered: AtomicU64,
    missed: AtomicU64,
}

impl<'a> Meeting<'a> {
    /// Waits until these have entered, and no others. Who waits in vain came alone.
    fn wait(&self, all: u64) {
        for _ in 0..self.turns {
            if self.entered.load(Ordering::SeqCst) == all {
                return;
            }
            yield_now();
        }
        self.missed.fetch_add(1, Ordering::SeqCst);
    }

    /// Turns the bit of an item, and waits for the others.
    fn meet(&self, item: u64) {
        if self.entered.load(Ordering::SeqCst) & item == 0 {
            self.entered.fetch_add(item, Ordering::SeqCst);
            self.wait(self.held.items);
        } else {
            self.entered.fetch_sub(item, Ordering::SeqCst);
            self.wait(0);
        }
    }
}

impl<'a> Gate for Meeting<'a> {
    ghost entered = { λ _ _ _. ⊤ };

    fn enter(&self, _phase: Phase, index: usize) {
        if index >= 64 {
            return;
        }
        let item = 1 << index;
        if self.held.items & item != 0 {
            self.meet(item);
        }
        if self.held.staying & item != 0 {
            pause(LONG);
        }
    }
}

/// A case, and the items that are held: a bit for each, from that of item 0 up.
#[derive(Clone, Copy)]
pub(super) struct Held {
    pub(super) case: Case,
    pub(super) items: u64,
    /// Those of them that stay long once all have met.
    pub(super) staying: u64,
    /// How often the case is answered.
    pub(super) times: u32,
    /// How many items are held in vain each time.
    pub(super) alone: u64,
}

/// A case is answered once, and as many of its items are held in vain as it says.
fn meets<H: Abort + Threads + Wait + Sync>(rt: &H, alloc: Global, held: &Held, turns: u64) {
    let gate = Meeting {
        held,
        turns,
        entered: AtomicU64::new(0),
        missed: AtomicU64::new(0),
    };
    same(
        rt,
        answer_of(rt, alloc, &held.case, &gate),
        held.case.answer,
    );
    same(rt, Ok(gate.missed.load(Ordering::SeqCst)), Ok(held.alone));
}

/// The same of each of these, as often as it says.
pub(super) fn all_meet<H: Abort + Threads + Wait + Sync>(
    rt: &H,
    alloc: Global,
    all: &[Held],
    turns: u64,
) {
    for held in all {
        for _ in 0..held.times {
            meets(rt, alloc, held, turns);
        }
    }
}

/// As many workers as there may be, with a number each.
const ALL: Case = Case {
    numbers: 64,
    workers: 64,
    phase: Phase::Collect,
    answer: Ok(0x8acf_1357_9be0_2460),
    ..DOUBLED
};

/// Four workers, with a number each.
const FOUR: Case = Case {
    numbers: 4,
    workers: 4,
    answer: Ok(0x2468),
    ..DOUBLED
};

/// Five numbers by three workers, who have items 0 and 1, 2 alone, and the others.
const THREE: Held = Held {
    case: DOUBLED,
    items: 0b110,
    staying: 0,
    times: 1_000,
    alone: 0,
};

/// Two workers have items 0 and 1, and the others.
static HELD: &[Held] = &[
    Held {
        case: ALL,
        items: u64::MAX,
        times: 5,
        ..THREE
    },
    Held {
        case: FOUR,
        items: 0b1111,
        ..THREE
    },
    Held {
        case: Case {
            workers: 2,
            ..DOUBLED
        },
        ..THREE
    },
    THREE,
    Held {
        items: 0b1100,
        ..THREE
    },
];

/// Each of all workers is held before its item until all are, and the items on either side of each cut are held until
/// both are.
#[test]
fn workers_meet(rt: HostRuntime) {
    all_meet(&rt, rt.alloc(), HELD, 100_000_000);
}

/// Workers meet as well where the gate has no limit, a thousand times over, and all that there may be some times.
#[test]
fn workers_meet_without_limit(rt: HostRuntime) {
    all_meet(&rt, rt.alloc(), HELD, u64::MAX);
}

static ALONE: &[Held] = &[Held {
    case: Case {
        workers: 1,
        ..DOUBLED
    },
    items: 0b11,
    times: 1,
    alone: 1,
    ..THREE
}];

/// One worker never meets another: it is held in vain at the first item.
#[test]
fn one_worker_is_alone(rt: HostRuntime) {
    all_meet(&rt, rt.alloc(), ALONE, 1_000);
}

const OFTEN: Case = Case {
    rounds: 1_000,
    ..KEPT
};

/// Three workers that are kept have of five items 0 alone, 1 and 2, and the others.
const KEPT_THREE: Held = Held {
    case: OFTEN,
    items: 0b11,
    times: 1,
    ..THREE
};

/// Two workers that are kept have items 0 and 1, and the others.
static KEPT_HELD: &[Held] = &[
    Held {
        case: Case {
            rounds: 20,
            base: 1_000_003,
            answer: Ok(0x0069_efbb_d1ba_72a0),
            ..ALL
        },
        items: u64::MAX,
        ..KEPT_THREE
    },
    Held {
        case: Case {
            rounds: 1_000,
            answer: Ok(0x2468_0112),
            ..FOUR
        },
        items: 0b1111,
        ..KEPT_THREE
    },
    Held {
        case: Case {
            workers: 2,
            ..OFTEN
        },
        items: 0b110,
        ..KEPT_THREE
    },
    KEPT_THREE,
    Held {
        items: 0b1100,
        ..KEPT_THREE
    },
];

/// Workers that are kept meet in each phase of each round, without a limit.
#[test]
fn kept_workers_meet(rt: HostRuntime) {
    all_meet(&rt, rt.alloc(), KEPT_HELD, u64::MAX);
}
