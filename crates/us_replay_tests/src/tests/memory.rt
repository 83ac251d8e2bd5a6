use super::base::{BONDED_MAPS, BONDED_REPORT, BONDED_TRACE, bonded, same};
use super::devices::{reader, writer};
use super::replays::{Outcome, outcome};
use super::workers::BONDED_OUTCOME;
use std::alloc::Global;
use std::process::Abort;
use std::sync::Wait;
use std::thread::Threads;
use us_crew::OpenGate;
use us_flows::ConfigFault;
use us_replay::{RunFault, replay_alone};
use us_requests::{Trace, TraceFault};
use us_slots::{FromRead, FromWrite};

/// What the bonded run comes to where it ends with this fault, and its trace was called so often at its end: both rounds are
/// sent once they are all made, so nothing was written. None: this is no want of memory.
fn refused(fault: RunFault, ends: usize) -> Option<Outcome> {
    match fault {
        RunFault::Trace(TraceFault::NoMemory) | RunFault::NoMemory(0) => {
            let unused = (false, 0, true, 0, 0);
            Some((Err(fault), (false, ends), unused, unused))
        }
        _ => None,
    }
}

/// Compares what the bonded run by so many workers comes to with the whole outcome, or where memory was refused with that
/// of its fault.
fn expect(rt: &(impl Abort + Threads + Wait + Sync), alloc: Global, trace: &[u8], workers: usize) {
    let config = match bonded(alloc) {
        Ok(config) => config,
        Err(fault) => {
            same(rt, &fault, &ConfigFault::NoMemory, "the tables");
            return;
        }
    };
    let trace = reader(trace, false);
    let (maps, report) = (writer(BONDED_MAPS, 100), writer(BONDED_REPORT, 100));
    let found = outcome(
        rt, alloc, &config, 2, workers, &OpenGate, trace, maps, report,
    );
    let wanted = match found.0 {
        Ok(_) => Some(BONDED_OUTCOME),
        Err(fault) => refused(fault, found.1.1),
    };
    same(rt, &Some(found), &wanted, "without memory");
}

/// Run by `tools/refuse-memory` too, where each allocation is refused in turn.
#[test]
fn refused_memory(rt: HostRuntime) {
    expect(&rt, rt.alloc(), BONDED_TRACE, 1);
}

/// So is this.
#[test]
fn refused_memory_of_two_workers(rt: HostRuntime) {
    expect(&rt, rt.alloc(), BONDED_TRACE, 2);
}

/// Sixteen requests of the same clusters and bytes as the two of the bonded run, so that sixteen workers have one each.
const SIXTEEN: &[u8] = b"tick,channel,sid,units
0,1,257,250\n0,1,257,250\n0,1,257,250\n0,1,257,250\n0,1,257,250\n0,1,257,250\n0,1,257,250\n0,1,257,250
0,2,274,62\n0,2,274,62\n0,2,274,62\n0,2,274,62\n0,2,274,63\n0,2,274,63\n0,2,274,63\n0,2,274,63
";

/// And so is this.
#[test]
fn refused_memory_of_sixteen_workers(rt: HostRuntime) {
    expect(&rt, rt.alloc(), SIXTEEN, 16);
}

/// Fails where memory is refused to the reading of the trace, as `tools/refuse-memory` does.
#[test]
fn trace_alone(rt: HostRuntime) {
    if let Ok(config) = bonded(rt.alloc()) {
        let mut trace = FromRead::new(reader(BONDED_TRACE, false));
        if config.rounds_fit(2) {
            let found = Trace::read(rt.alloc(), &mut trace, &config, 2);
            same(&rt, &found.err(), &None, "a trace");
        }
    }
}

/// Fails where want of memory is told of the trace, which has to be where `trace_alone` fails: what a replay is refused
/// behind the trace is told as want of memory behind no round.
#[test]
fn trace_of_a_replay(rt: HostRuntime) {
    if let Ok(config) = bonded(rt.alloc()) {
        let trace = reader(BONDED_TRACE, false);
        let (maps, report) = (writer(BONDED_MAPS, 100), writer(BONDED_REPORT, 100));
        let found = outcome(
            &rt,
            rt.alloc(),
            &config,
            2,
            1,
            &OpenGate,
            trace,
            maps,
            report,
        );
        let of_trace = matches!(found.0, Err(RunFault::Trace(_)));
        same(&rt, &of_trace, &false, "a replay");
    }
}

/// Fails where want of memory is told of the trace by a replay on the calling thread alone.
#[test]
fn trace_of_a_replay_alone(rt: HostRuntime) {
    if let Ok(config) = bonded(rt.alloc()) {
        let mut trace = FromRead::new(reader(BONDED_TRACE, false));
        let mut maps = FromWrite::new(writer(BONDED_MAPS, 100));
        let mut report = FromWrite::new(writer(BONDED_REPORT, 100));
        let found = replay_alone(rt.alloc(), &config, &mut trace, 2, &mut maps, &mut report);
        let of_trace = matches!(found, Err(RunFault::Trace(_)));
        same(&rt, &of_trace, &false, "a replay alone");
    }
}
