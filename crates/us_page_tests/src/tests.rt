//! What no clause says: that with memory enough a run is given, and errors are told as lines. What texts are beside a status,
//! clauses say of all but these lines; so lengths are compared.

use std::alloc::Global;
use std::process::Abort;
use us_page::{Hand, Status, close, copy_fault, copy_maps, copy_report, lint, run};
use us_samples::base;

/// The trace of the stored run, which has 2 rounds.
const TRACE: &[u8] = b"tick,channel,sid,units\n0,1,291,250\n";

/// The lengths of its maps file and of its report.
const MAPS_BYTES: usize = 72;

const REPORT_BYTES: usize = 51;

/// The length of `fault memory`.
const MEMORY_BYTES: usize = 12;

/// A trace of 52 faulty rows, of which 50 are told.
static FAULTY: &[u8] =
    b"tick,channel,sid,units\n0\n0\n0\n0\n0\n0\n0\n0\n0\n0\n0\n0\n0\n0\n0\n0\n0\n0\n0\n0\n0\n0\n0\n0\n0\n0\n0\n0\n0\n0\n0\n0\n0\n0\n0\n0\n0\n0\n0\n0\n0\n0\n0\n0\n0\n0\n0\n0\n0\n0\n0\n0\n";

/// The length of the lines of its errors, and of those of a trace with a row fewer.
const LINES_BYTES: usize = 3_656;

const FEWER_BYTES: usize = 3_655;

/// What a caller sees: the status, and the lengths of the maps file, the report and the lines of the fault or the errors.
type Seen = (Status, usize, usize, usize);

fn seen(alloc: Global, hand: &mut Hand, status: Status) -> Seen {
    let maps = copy_maps(alloc, hand, &mut []);
    let report = copy_report(alloc, hand, &mut []);
    (status, maps, report, copy_fault(alloc, hand, &mut []))
}

/// The one assertion of these tests.
fn same(rt: &impl Abort, found: Seen, wanted: Seen) {
    assert_eq!(rt; found, wanted);
}

/// Runs of one hand: the stored one, faults of both texts and of the rounds, and nothing once it is closed.
#[test]
fn runs_of_one_hand(rt: HostRuntime) {
    let (alloc, base) = (rt.alloc(), base().as_bytes());
    let mut hand = Hand::empty(alloc);
    let runs = [
        (base, TRACE, 2, (Status::Given, MAPS_BYTES, REPORT_BYTES, 0)),
        (TRACE, TRACE, 2, (Status::Config, 0, 0, "fault C1".len())),
        (base, base, 2, (Status::Replay, 0, 0, "fault TR1".len())),
        (base, TRACE, 0, (Status::Replay, 0, 0, "fault RU1".len())),
        (base, TRACE, 2, (Status::Given, MAPS_BYTES, REPORT_BYTES, 0)),
    ];
    for (config, trace, rounds, wanted) in runs {
        let status = run(alloc, &mut hand, config, trace, rounds);
        same(&rt, seen(alloc, &mut hand, status), wanted);
    }
    close(alloc, &mut hand);
    same(
        &rt,
        seen(alloc, &mut hand, Status::Given),
        (Status::Given, 0, 0, MEMORY_BYTES),
    );
}

/// The line of the one error of a configuration.
const LINE: &[u8; 57] = b"1:5: error C1: not TOML: key with no value, expected `=`\n";

/// Errors of two texts: of the configuration, none, and of traces with many.
#[test]
fn errors_of_two_texts(rt: HostRuntime) {
    let (alloc, base) = (rt.alloc(), base().as_bytes());
    let mut hand = Hand::empty(alloc);
    let lints = [
        (base, TRACE, (Status::Given, 0, 0, 0)),
        (base, FAULTY, (Status::Replay, 0, 0, LINES_BYTES)),
        (
            base,
            &FAULTY[..FAULTY.len() - 2],
            (Status::Replay, 0, 0, FEWER_BYTES),
        ),
        (TRACE, TRACE, (Status::Config, 0, 0, LINE.len())),
    ];
    for (config, trace, wanted) in lints {
        let status = lint(alloc, &mut hand, config, trace);
        same(&rt, seen(alloc, &mut hand, status), wanted);
    }
    let mut line = [0; 57];
    copy_fault(alloc, &mut hand, &mut line);
    assert_eq!(rt; line, *LINE);
}

/// All that is wanted stands, or nothing does and memory was wanting.
fn is_whole(rt: &impl Abort, found: Seen, wanted: Seen) {
    if found.0 == Status::NoMemory {
        same(rt, found, (Status::NoMemory, 0, 0, MEMORY_BYTES));
    } else {
        same(rt, found, wanted);
    }
}

// Both are run by `tools/refuse-memory` too, where each allocation is refused in turn.

#[test]
fn refused_memory(rt: HostRuntime) {
    let alloc = rt.alloc();
    let mut hand = Hand::empty(alloc);
    let status = run(alloc, &mut hand, base().as_bytes(), TRACE, 2);
    let found = seen(alloc, &mut hand, status);
    is_whole(&rt, found, (Status::Given, MAPS_BYTES, REPORT_BYTES, 0));
}

#[test]
fn refused_memory_of_errors(rt: HostRuntime) {
    let alloc = rt.alloc();
    let mut hand = Hand::empty(alloc);
    let status = lint(alloc, &mut hand, base().as_bytes(), FAULTY);
    let found = seen(alloc, &mut hand, status);
    is_whole(&rt, found, (Status::Replay, 0, 0, LINES_BYTES));
}
