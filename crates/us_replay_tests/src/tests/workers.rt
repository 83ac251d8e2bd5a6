use super::base::{BONDED_MAPS, BONDED_REPORT, BONDED_TRACE, bonded, same};
use super::devices::{reader, writer};
use super::replays::{Deeds, Outcome, outcome};
use std::alloc::Global;
use std::process::Abort;
use std::sync::Wait;
use std::thread::Threads;
use us_crew::{Gate, OpenGate};
use us_replay::{RunFault, Summary};

/// What the bonded run comes to.
pub(super) const BONDED_OUTCOME: Outcome = (
    Ok(Summary {
        rounds: 2,
        granted: 5,
        missed: 0,
        unknown: 0,
        not_requestable: 0,
        late: 0,
    }),
    (false, 1),
    (false, 152, true, 0, 1),
    (false, 197, true, 0, 1),
);

/// Compares what the bonded run by so many workers comes to with an outcome.
pub(super) fn expect(
    rt: &(impl Abort + Threads + Wait + Sync),
    alloc: Global,
    workers: usize,
    gate: &(impl Gate + Sync),
    wanted: Outcome,
) {
    let trace = reader(BONDED_TRACE, false);
    let (maps, report) = (writer(BONDED_MAPS, 100), writer(BONDED_REPORT, 100));
    let found = match bonded(alloc) {
        Ok(config) => Some(outcome(rt, alloc, &config, 2, workers, gate, trace, maps, report)),
        Err(_) => None,
    };
    same(rt, &found, &Some(wanted), "workers");
}

#[test]
fn same_bytes_by_every_number_of_workers(rt: HostRuntime) {
    for workers in [1, 2, 16] {
        expect(&rt, rt.alloc(), workers, &OpenGate, BONDED_OUTCOME);
    }
}

/// Nothing is read or written.
#[test]
fn no_worker_and_too_many(rt: HostRuntime) {
    let unused: Deeds = (false, 0, true, 0, 0);
    for workers in [0, 65] {
        let wanted = (Err(RunFault::Workers), (false, 0), unused, unused);
        expect(&rt, rt.alloc(), workers, &OpenGate, wanted);
    }
}
