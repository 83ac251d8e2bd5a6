use super::base::{MAPS, REPORT, TRACE, base, same};
use super::devices::{FakeReader, FakeWriter, reader, short_writer, stuck_writer, writer};
use std::alloc::Global;
use std::process::Abort;
use std::sync::Wait;
use std::thread::Threads;
use us_crew::{Gate, OpenGate};
use us_flows::Config;
use us_replay::{RunFault, Summary, replay};
use us_requests::TraceFault;
use us_slots::{FromRead, FromWrite, Sink, Source};

/// What the stored run did.
pub(super) const STORED: Summary = Summary {
    rounds: 2,
    granted: 1,
    missed: 0,
    unknown: 0,
    not_requestable: 0,
    late: 0,
};

/// What a writer did: whether it is marked as failed, how many bytes it took, whether they are those that are wanted,
/// how often it was called without room, and how often it was flushed.
pub(super) type Deeds = (bool, usize, bool, usize, usize);

/// The answer of a replay, whether the trace is marked as failed and how often it was called at its end, and what the
/// writers did.
pub(super) type Outcome = (Result<Summary, RunFault>, (bool, usize), Deeds, Deeds);

pub(super) fn deeds(writer: FromWrite<FakeWriter>) -> Deeds {
    let failed = writer.has_failed();
    let inner = writer.into_inner();
    (
        failed,
        inner.took,
        inner.as_wanted,
        inner.refused,
        inner.flushes,
    )
}

/// A replay of so many rounds by so many workers on these devices.
pub(super) fn outcome(
    threads: &(impl Threads + Wait + Sync),
    alloc: Global,
    config: &Config,
    rounds: u32,
    workers: usize,
    gate: &(impl Gate + Sync),
    trace: FakeReader<'_>,
    maps: FakeWriter,
    report: FakeWriter,
) -> Outcome {
    let mut trace = FromRead::new(trace);
    let mut maps = FromWrite::new(maps);
    let mut report = FromWrite::new(report);
    let answer = replay(
        threads,
        alloc,
        config,
        &mut trace,
        rounds,
        workers,
        gate,
        &mut maps,
        &mut report,
    );
    let failed = trace.has_failed();
    (
        answer,
        (failed, trace.into_inner().ends),
        deeds(maps),
        deeds(report),
    )
}

/// Compares what a replay of the base configuration on these devices comes to with an outcome.
fn expect(
    rt: &(impl Abort + Threads + Wait + Sync),
    alloc: Global,
    trace: FakeReader<'_>,
    maps: FakeWriter,
    report: FakeWriter,
    wanted: Outcome,
) {
    let found = match base(alloc) {
        Ok(config) => Some(outcome(rt, alloc, &config, 2, 1, &OpenGate, trace, maps, report)),
        Err(_) => None,
    };
    same(rt, &found, &Some(wanted), "outcome");
}

#[test]
fn stored_run_in_pieces_of_every_size(rt: HostRuntime) {
    let (to_maps, to_report) = ((false, 72, true, 0, 1), (false, 51, true, 0, 1));
    for piece in [1, 2, 7, 34, 1_000] {
        let (maps, report) = (writer(MAPS, piece), writer(REPORT, piece));
        let wanted = (Ok(STORED), (false, 1), to_maps, to_report);
        expect(&rt, rt.alloc(), reader(TRACE, false), maps, report, wanted);
    }
}

/// A maps file that fails at each byte, by an error or by a write that takes nothing.
#[test]
fn maps_file_that_fails_at_each_byte(rt: HostRuntime) {
    for room in 0..MAPS.len() {
        let fault = RunFault::WriteMaps(if room < 34 { 0 } else { 1 });
        let (to_maps, to_report) = ((true, room, true, 1, 0), (false, 0, true, 0, 0));
        for fails in [true, false] {
            let (maps, report) = (short_writer(MAPS, room, fails), writer(REPORT, 100));
            let wanted = (Err(fault), (false, 1), to_maps, to_report);
            expect(&rt, rt.alloc(), reader(TRACE, false), maps, report, wanted);
        }
    }
}

/// Round 0 has no line, so that it is done where the report takes nothing. The G line, of 33 bytes, is the one of the rounds.
#[test]
fn report_that_fails_at_each_byte(rt: HostRuntime) {
    for room in 0..REPORT.len() {
        let fault = RunFault::WriteReport(if room < 33 { 1 } else { 2 });
        let (to_maps, to_report) = ((false, 72, true, 0, 0), (true, room, true, 1, 0));
        for fails in [true, false] {
            let (maps, report) = (writer(MAPS, 100), short_writer(REPORT, room, fails));
            let wanted = (Err(fault), (false, 1), to_maps, to_report);
            expect(&rt, rt.alloc(), reader(TRACE, false), maps, report, wanted);
        }
    }
}

/// The maps file is flushed first, and a report behind a maps file that sticks isn't flushed.
#[test]
fn flushes_that_fail(rt: HostRuntime) {
    let unflushed = (false, 51, true, 0, 0);
    let stuck_maps = (true, 72, true, 0, 1);
    for report in [stuck_writer(REPORT), writer(REPORT, 100)] {
        let wanted = (
            Err(RunFault::WriteMaps(2)),
            (false, 1),
            stuck_maps,
            unflushed,
        );
        let trace = reader(TRACE, false);
        expect(&rt, rt.alloc(), trace, stuck_writer(MAPS), report, wanted);
    }
    let (flushed, stuck) = ((false, 72, true, 0, 1), (true, 51, true, 0, 1));
    let wanted = (Err(RunFault::WriteReport(2)), (false, 1), flushed, stuck);
    let (maps, report) = (writer(MAPS, 100), stuck_writer(REPORT));
    expect(&rt, rt.alloc(), reader(TRACE, false), maps, report, wanted);
}

/// A trace that fails at each of its reads, of one byte and of five: that it failed comes before what it has.
#[test]
fn trace_that_fails(rt: HostRuntime) {
    let unused = (false, 0, true, 0, 0);
    let fault = RunFault::Trace(TraceFault::Read);
    for piece in [1, 5] {
        for end in 0..TRACE.len() + 1 {
            let mut trace = reader(&TRACE[..end], true);
            trace.piece = piece;
            let (maps, report) = (writer(MAPS, 100), writer(REPORT, 100));
            let wanted = (Err(fault), (true, 1), unused, unused);
            expect(&rt, rt.alloc(), trace, maps, report, wanted);
        }
    }
}
