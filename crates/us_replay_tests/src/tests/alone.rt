use super::base::{MAPS, REPORT, TRACE, base, same};
use super::devices::{FakeReader, FakeWriter, reader, short_writer, writer};
use super::replays::{Outcome, STORED, deeds};
use std::alloc::Global;
use std::process::Abort;
use us_replay::{RunFault, replay_alone};
use us_slots::{FromRead, FromWrite, Source};

/// Compares what `replay_alone` of the base configuration on these devices comes to with an outcome.
fn expect(
    rt: &impl Abort,
    alloc: Global,
    rounds: u32,
    trace: FakeReader<'_>,
    maps: FakeWriter,
    report: FakeWriter,
    wanted: Outcome,
) {
    let mut trace = FromRead::new(trace);
    let mut maps = FromWrite::new(maps);
    let mut report = FromWrite::new(report);
    let answer = match base(alloc) {
        Ok(config) => replay_alone(alloc, &config, &mut trace, rounds, &mut maps, &mut report),
        Err(_) => Err(RunFault::NoMemory(0)),
    };
    let failed = trace.has_failed();
    let ends = trace.into_inner().ends;
    let found = (answer, (failed, ends), deeds(maps), deeds(report));
    same(rt, &found, &wanted, "alone");
}

/// The stored run; no round; and a report that takes no byte.
#[test]
fn stored_run_alone(rt: HostRuntime) {
    let unused = (false, 0, true, 0, 0);
    let (to_maps, to_report) = ((false, 72, true, 0, 1), (false, 51, true, 0, 1));
    let wanted = (Ok(STORED), (false, 1), to_maps, to_report);
    let (maps, report) = (writer(MAPS, 100), writer(REPORT, 100));
    expect(
        &rt,
        rt.alloc(),
        2,
        reader(TRACE, false),
        maps,
        report,
        wanted,
    );

    let wanted = (Err(RunFault::Rounds), (false, 0), unused, unused);
    let (maps, report) = (writer(MAPS, 100), writer(REPORT, 100));
    expect(
        &rt,
        rt.alloc(),
        0,
        reader(TRACE, false),
        maps,
        report,
        wanted,
    );

    let stuck = (true, 0, true, 1, 0);
    let wanted = (
        Err(RunFault::WriteReport(1)),
        (false, 1),
        (false, 72, true, 0, 0),
        stuck,
    );
    let (maps, report) = (writer(MAPS, 100), short_writer(REPORT, 0, true));
    expect(
        &rt,
        rt.alloc(),
        2,
        reader(TRACE, false),
        maps,
        report,
        wanted,
    );
}
