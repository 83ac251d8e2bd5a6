use super::base::{BONDED_TRACE, bonded, same};
use super::devices::{FakeWriter, reader, short_writer, stuck_writer, writer};
use super::replays::{Outcome, outcome};
use std::alloc::Global;
use std::process::Abort;
use std::sync::Wait;
use std::thread::Threads;
use us_crew::OpenGate;
use us_replay::{RunFault, Summary};

/// The maps file of the bonded run over 5 rounds: two records a round, the second one of round 3 from byte 270 to 304,
static MAPS: &[u8] =
    b"\x00\x00\x00\x00\x00\x1c\x01\x00\x03\x00\x00\x00\x00\x00\x00\x00\x00\x00\x02\x06\x03\x08\
\xff\xfc\x40\x00\xff\xfc\x40\x96\x00\x01\xc0\xa0\
\x00\x00\x00\x00\x00\x1c\x02\x00\x03\x00\x00\x00\x00\x00\x00\x00\x00\x00\x02\x06\x03\x08\
\xff\xfc\x40\x00\xff\xfc\x40\x96\x00\x01\xc0\xa0\
\x00\x00\x00\x01\x00\x20\x01\x00\x04\x00\x00\x00\x00\xa0\x00\x00\x00\x50\x02\x06\x03\x08\
\x04\x06\x80\x00\x04\x46\x80\x7f\xff\xfc\x40\x96\x00\x01\xc0\xa0\
\x00\x00\x00\x01\x00\x28\x02\x00\x06\x00\x00\x00\x00\xa0\x00\x00\x00\x50\x02\x06\x03\x08\
\x04\x4a\x80\x00\xff\xfc\x40\x17\x08\x06\xc0\x46\x04\x0a\x80\x47\xff\xfc\x40\x96\x00\x01\xc0\xa0\
\x00\x00\x00\x02\x00\x24\x01\x00\x05\x00\x00\x00\x01\x40\x00\x00\x00\xf0\x02\x06\x03\x08\
\x04\x06\x80\x00\x04\x46\x40\x18\xff\xfc\x40\x22\xff\xfc\x40\x96\x00\x01\xc0\xa0\
\x00\x00\x00\x02\x00\x24\x02\x00\x05\x00\x00\x00\x01\x40\x00\x00\x00\xf0\x02\x06\x03\x08\
\x04\x0a\x80\x00\x04\x4a\x40\x18\xff\xfc\x40\x22\xff\xfc\x40\x96\x00\x01\xc0\xa0\
\x00\x00\x00\x03\x00\x1c\x01\x00\x03\x00\x00\x00\x01\xe0\x00\x00\x01\x90\x02\x06\x03\x08\
\xff\xfc\x40\x00\xff\xfc\x40\x96\x00\x01\xc0\xa0\
\x00\x00\x00\x03\x00\x1c\x02\x00\x03\x00\x00\x00\x01\xe0\x00\x00\x01\x90\x02\x06\x03\x08\
\xff\xfc\x40\x00\xff\xfc\x40\x96\x00\x01\xc0\xa0\
\x00\x00\x00\x04\x00\x1c\x01\x00\x03\x00\x00\x00\x02\x80\x00\x00\x02\x30\x02\x06\x03\x08\
\xff\xfc\x40\x00\xff\xfc\x40\x96\x00\x01\xc0\xa0\
\x00\x00\x00\x04\x00\x1c\x02\x00\x03\x00\x00\x00\x02\x80\x00\x00\x02\x30\x02\x06\x03\x08\
\xff\xfc\x40\x00\xff\xfc\x40\x96\x00\x01\xc0\xa0";

/// and the report, 292 bytes of which are of the rounds before round 3.
static REPORT: &[u8] = b"G,1,1,req,1,0,0,257,10,0,127,4014
G,1,1,req,1,1,0,273,10,127,23,712
G,1,2,req,1,1,0,274,10,0,23,712
G,1,2,ugs,2,0,0,513,11,70,1,0
G,1,2,req,1,0,0,258,10,71,79,2504
G,2,1,req,1,0,0,257,10,0,24,741
G,2,1,req,1,1,0,273,9,24,10,288
G,2,2,req,1,0,0,258,10,0,24,741
G,2,2,req,1,1,0,274,9,24,10,288
F,1,0,0,-
F,1,1,0,-
U,0,0,0
";

/// Compares what the run over 5 rounds comes to on these writers with an outcome, for several numbers of workers.
fn expect(
    rt: &(impl Abort + Threads + Wait + Sync),
    alloc: Global,
    maps: FakeWriter,
    report: FakeWriter,
    wanted: Outcome,
) {
    for workers in [1, 2, 16] {
        let trace = reader(BONDED_TRACE, false);
        let found = match bonded(alloc) {
            Ok(config) => Some(outcome(
                rt, alloc, &config, 5, workers, &OpenGate, trace, maps, report,
            )),
            Err(_) => None,
        };
        same(rt, &found, &Some(wanted), "5 rounds");
    }
}

/// The report has the lines of the rounds before.
#[test]
fn maps_file_that_fails_in_round_3(rt: HostRuntime) {
    for room in 270..304 {
        for fails in [true, false] {
            let (maps, report) = (short_writer(MAPS, room, fails), writer(REPORT, 100));
            let wanted = (
                Err(RunFault::WriteMaps(3)),
                (false, 1),
                (true, room, true, 1, 0),
                (false, 292, true, 0, 0),
            );
            expect(&rt, rt.alloc(), maps, report, wanted);
        }
    }
}

/// The report fails among the lines of round 2, behind a maps file that failed, and is given no more.
#[test]
fn both_files_that_fail(rt: HostRuntime) {
    for fails in [true, false] {
        let (maps, report) = (
            short_writer(MAPS, 280, fails),
            short_writer(REPORT, 200, fails),
        );
        let wanted = (
            Err(RunFault::WriteMaps(2)),
            (false, 1),
            (true, 280, true, 1, 0),
            (true, 200, true, 1, 0),
        );
        expect(&rt, rt.alloc(), maps, report, wanted);
    }
}

/// A flush that fails tells all rounds.
#[test]
fn flushes(rt: HostRuntime) {
    let summary = Summary {
        rounds: 5,
        granted: 9,
        missed: 0,
        unknown: 0,
        not_requestable: 0,
        late: 0,
    };
    let cases = [
        (writer(MAPS, 100), writer(REPORT, 100), Ok(summary), 1),
        (
            stuck_writer(MAPS),
            writer(REPORT, 100),
            Err(RunFault::WriteMaps(5)),
            0,
        ),
        (
            writer(MAPS, 100),
            stuck_writer(REPORT),
            Err(RunFault::WriteReport(5)),
            1,
        ),
    ];
    for (maps, report, answer, flushes) in cases {
        let wanted = (
            answer,
            (false, 1),
            (maps.sticks, 372, true, 0, 1),
            (report.sticks, 320, true, 0, flushes),
        );
        expect(&rt, rt.alloc(), maps, report, wanted);
    }
}
