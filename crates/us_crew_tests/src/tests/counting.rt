ghost use Rattle.std.specs.Prelude.{◌<◌, ⊤};

use super::base::{Case, DOUBLED, KEPT, answer_of, same};
use std::alloc::Global;
use std::process::Abort;
use std::sync::Wait;
use std::sync::atomic::{AtomicU64, Ordering};
use std::thread::Threads;
use us_crew::{Gate, Phase};

/// A gate that holds nobody, and counts who enters, in digits to base 16. From the right there is a digit for each of five
/// items in each of three phases, and then one for all other numbers.
#[derive(Drop)]
struct Counting {
    counts: AtomicU64,
}

/// The place of a digit.
fn place(phase: Phase, index: usize) -> u32
    ensures { result < 16 }
{
    if index >= 5 {
        return 15;
    }
    let place = index as u32;
    match phase {
        Phase::Collect => place,
        Phase::Fill => place + 5,
        Phase::Build => place + 10,
    }
}

impl Gate for Counting {
    ghost entered = { λ _ _ _. ⊤ };

    fn enter(&self, phase: Phase, index: usize) {
        self.counts
            .fetch_add(1 << (4 * place(phase, index)), Ordering::SeqCst);
    }
}

const COLLECT: Case = Case {
    phase: Phase::Collect,
    ..DOUBLED
};

const BUILD: Case = Case {
    phase: Phase::Build,
    ..DOUBLED
};

/// Workers that are kept go through two phases three times.
static ENTERED: &[(Case, u64)] = &[
    (
        Case {
            workers: 1,
            ..COLLECT
        },
        0x11111,
    ),
    (COLLECT, 0x11111),
    (
        Case {
            workers: 64,
            ..COLLECT
        },
        0x11111,
    ),
    (
        Case {
            workers: 1,
            ..DOUBLED
        },
        0x11111_00000,
    ),
    (DOUBLED, 0x11111_00000),
    (
        Case {
            workers: 64,
            ..DOUBLED
        },
        0x11111_00000,
    ),
    (
        Case {
            workers: 1,
            ..BUILD
        },
        0x11111_00000_00000,
    ),
    (BUILD, 0x11111_00000_00000),
    (
        Case {
            workers: 64,
            ..BUILD
        },
        0x11111_00000_00000,
    ),
    (Case { workers: 1, ..KEPT }, 0x33333_33333_00000),
    (Case { workers: 4, ..KEPT }, 0x33333_33333_00000),
    (
        Case {
            workers: 64,
            ..KEPT
        },
        0x33333_33333_00000,
    ),
];

/// So many enter for the items of a case.
fn entered<H: Abort + Threads + Wait + Sync>(rt: &H, alloc: Global, case: &Case, wanted: u64) {
    let gate = Counting {
        counts: AtomicU64::new(0),
    };
    same(rt, answer_of(rt, alloc, case, &gate), case.answer);
    same(rt, Ok(gate.counts.load(Ordering::SeqCst)), Ok(wanted));
}

/// Each item is entered for once in a phase, in that phase and by its number.
#[test]
fn entered_once(rt: HostRuntime) {
    let rt = &rt;
    let alloc = rt.alloc();
    for (case, wanted) in ENTERED {
        entered(rt, alloc, case, *wanted);
    }
}
