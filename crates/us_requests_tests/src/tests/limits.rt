//! The most records of a trace, and one more; a byte too many.

use super::base::{BASE, Case, HEADER, Repeated, compare};
use std::test::Fail;

#[test]
fn records_and_bytes(rt: HostRuntime) -> Result<(), Fail> {
    compare(&rt, rt.alloc(), &CASES)?;
    Ok(())
}

static CASES: [Case<'static>; 3] = [
    Case {
        name: "as many asks as may be",
        reader: Repeated {
            repeated: b"0,1,291,1\n",
            left: 1_000_000,
            last: b"\n\n",
            ..HEADER
        },
        looked_at: &[1],
        answer: "\
            reads: 1000003, 4 rounds, [0, 0, 0]; 1: 1000000 [Ask { cluster: 0, bytes: 4 }, \
            Ask { cluster: 0, bytes: 4 }, Ask { cluster: 0, bytes: 4 }, Ask { cluster: 0, bytes: 4 }, \
            Ask { cluster: 0, bytes: 4 }, Ask { cluster: 0, bytes: 4 }, Ask { cluster: 0, bytes: 4 }]",
        ..BASE
    },
    Case {
        name: "one record more, of three fields",
        reader: Repeated {
            repeated: b"0,1,9,1\n",
            left: 1_000_000,
            last: b"0,1,9",
            ..HEADER
        },
        answer: "reads: 1000003, TR4: the trace is too large",
        ..BASE
    },
    // Of 33,554,432 bytes and one more, behind which nothing is read.
    Case {
        name: "a byte too many, before a failure",
        reader: Repeated {
            text: b"tick,channel,sid,units\n\n\n\n\n\n\n\n\n\n",
            repeated: &[b'\n'; 32],
            left: 1_048_575,
            last: b"\n",
            fails: true,
            ..HEADER
        },
        answer: "reads: 1048577, TR4: the trace is too large",
        ..BASE
    },
];
