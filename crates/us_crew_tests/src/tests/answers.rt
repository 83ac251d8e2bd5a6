use super::base::{Case, DOUBLED, KEPT, answer_of, same};
use us_crew::{CrewFault, OpenGate};

/// Of those with a fault items 2, 3 and 4 are refused.
static CASES: &[Case] = &[
    DOUBLED,
    Case {
        most: 2,
        answer: Err(CrewFault::Item(2, 3)),
        ..DOUBLED
    },
    KEPT,
    Case {
        most: 2,
        answer: Err(CrewFault::Item(2, 3)),
        ..KEPT
    },
];

static WORKERS: &[usize] = &[1, 2, 3, 4, 16, 64];

/// Workers that are started anew and workers that are kept answer as one thread does, those over three rounds of two phases.
/// A fault is that of the first item that is refused.
#[test]
fn answers_and_faults(rt: HostRuntime) {
    let rt = &rt;
    let alloc = rt.alloc();
    for case in CASES {
        let mut case = *case;
        for workers in WORKERS {
            case.workers = *workers;
            same(rt, answer_of(rt, alloc, &case, &OpenGate), case.answer);
        }
    }
}

static FAULTS: &[CrewFault<u64>] = &[
    CrewFault::Workers,
    CrewFault::NoMemory,
    CrewFault::Item(2, 3),
];

/// Each fault is written. A clause says what is written then.
#[test]
fn texts_of_faults(rt: HostRuntime) {
    let rt = &rt;
    let alloc = rt.alloc();
    for fault in FAULTS {
        let text = fault.to_string(alloc);
        same(rt, Ok(u64::from(text.is_ok())), Ok(1));
    }
}
