use super::base::{Case, DOUBLED, KEPT, answer_of, same};
use us_crew::{CrewFault, OpenGate};

static CASES: &[Case] = &[
    Case {
        workers: 2,
        ..DOUBLED
    },
    Case {
        workers: 16,
        ..DOUBLED
    },
    Case {
        workers: 2,
        rounds: 2,
        ..KEPT
    },
    Case {
        workers: 16,
        rounds: 2,
        ..KEPT
    },
];

/// The items are answered whole, or it is want of memory. `tools/refuse-memory` runs this too, where each allocation is
/// refused in turn.
#[test]
fn refused_memory(rt: HostRuntime) {
    let rt = &rt;
    let alloc = rt.alloc();
    for case in CASES {
        let found = answer_of(rt, alloc, case, &OpenGate);
        if found != Err(CrewFault::NoMemory) {
            same(rt, found, case.answer);
        }
    }
}
