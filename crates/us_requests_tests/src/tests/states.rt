use std::alloc::Global;
use us_requests::{ClusterState, TraceFault};

#[test]
fn outstanding_bytes(rt: HostRuntime) {
    let (outstanding, told_apart) = outstanding();
    assert!(rt; told_apart && outstanding == [0, 4_611_686_018_427_387_903, 1_024, 0]);
}

/// The bytes that are outstanding at first, at most, of a copy of a state, and of the state behind it; and whether these two
/// differ, and the latter is a new one's.
fn outstanding() -> ([u64; 4], bool) {
    let mut state = ClusterState::new();
    let none = state.outstanding();
    state.add(4_611_686_018_427_387_903);
    let most = state.outstanding();
    state.credit(4_611_686_018_427_386_903);
    state.add(24);
    let copy = state;
    state.credit(1_024);
    let left = [none, most, copy.outstanding(), state.outstanding()];
    (left, copy != state && state == ClusterState::new())
}

const FAULTS: [TraceFault; 6] = [
    TraceFault::Header,
    TraceFault::Fields(2),
    TraceFault::Number(3),
    TraceFault::TooLarge,
    TraceFault::Read,
    TraceFault::NoMemory,
];

/// How many faults are written. A clause says what is written then.
fn written(alloc: Global) -> u64 {
    let mut count = 0_u64;
    for fault in FAULTS {
        let text = format!(in alloc; "{fault}");
        count = count.wrapping_add(u64::from(text.is_ok()));
    }
    count
}

#[test]
fn texts_of_faults(rt: HostRuntime) {
    assert!(rt; written(rt.alloc()) == 6);
}
