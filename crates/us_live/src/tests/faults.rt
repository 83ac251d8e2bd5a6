use super::base::same;
use crate::LiveFault;
use std::alloc::Global;

const FAULTS: [LiveFault; 7] = [
    LiveFault::Rounds,
    LiveFault::NoCluster,
    LiveFault::Quota,
    LiveFault::Failed,
    LiveFault::Done,
    LiveFault::Workers,
    LiveFault::NoMemory,
];

/// How many faults are written. A clause says what is written then.
fn written(alloc: Global) -> u64 {
    let mut count = 0_u64;
    for fault in FAULTS {
        let text = format!(in alloc; "{fault}");
        count = count.wrapping_add(u64::from(text.is_ok()));
    }
    count
}

#[test]
fn texts_of_faults(rt: HostRuntime) {
    same(&rt, written(rt.alloc()), 7);
}
