//! Worked traces of both versions, and devices that give pieces or fail, which aren't asked again.

use super::base::{BASE, Case, HEADER, Repeated, compare};
use std::test::Fail;

#[test]
fn traces(rt: HostRuntime) -> Result<(), Fail> {
    compare(&rt, rt.alloc(), &CASES)?;
    Ok(())
}

static CASES: [Case<'static>; 9] = [
    Case {
        name: "requests in any order of ticks, and those of a round in the order of the trace",
        reader: Repeated {
            last: b"800,1,291,5\n0,1,291,1\n160,1,291,2\n161,1,291,3\n160,1,291,0\n801,1,291,6\n",
            ..HEADER
        },
        looked_at: &[0, 1, 2, 3, 4, 4_294_967_295],
        answer: "\
            reads: 3, 4 rounds, [0, 0, 1]; 0: 0 []; 1: 3 [Ask { cluster: 0, bytes: 4 }, \
            Ask { cluster: 0, bytes: 8 }, Ask { cluster: 0, bytes: 0 }]; 2: 1 [Ask { cluster: 0, bytes: 12 }]; 3: 1 \
            [Ask { cluster: 0, bytes: 20 }]; 4: 0 []; 4294967295: 0 []",
        ..BASE
    },
    Case {
        name: "requests of every cluster, of SID 700 with its unsolicited grants, of no flow, and late ones",
        reader: Repeated {
            last: b"500,1,601,3
0,1,700,10
0,1,501,1
1000000,1,700,10
0,1,600,5
480,2,800,2
0,1,291,1
1000000,1,999,10
1000000,1,601,10
0,2,700,10
160,2,291,9
0,1,500,2
1,1,803,1
161,1,801,3
0,1,501,4
0,1,800,1
",
            ..HEADER
        },
        looked_at: &[0, 1, 2, 3],
        answer: "\
            reads: 3, 4 rounds, [3, 2, 1]; 0: 0 []; 1: 7 [Ask { cluster: 4, bytes: 16 }, \
            Ask { cluster: 5, bytes: 10 }, Ask { cluster: 0, bytes: 4 }, Ask { cluster: 9, bytes: 9 }, \
            Ask { cluster: 3, bytes: 32 }, Ask { cluster: 8, bytes: 8 }, Ask { cluster: 4, bytes: 64 }]; 2: 2 \
            [Ask { cluster: 7, bytes: 16 }, Ask { cluster: 7, bytes: 24 }]; 3: 1 [Ask { cluster: 6, bytes: 6 }]",
        ..BASE
    },
    Case {
        name: "greatest asks, the shortest lead",
        lead_ticks: 1,
        reader: Repeated {
            last: b"0,1,291,65535\n0,1,500,65535\n0,2,291,65535",
            ..HEADER
        },
        looked_at: &[1],
        answer: "\
            reads: 3, 4 rounds, [0, 0, 0]; 1: 3 [Ask { cluster: 0, bytes: 262140 }, \
            Ask { cluster: 3, bytes: 1048560 }, Ask { cluster: 9, bytes: 65535 }]",
        ..BASE
    },
    // The last tick is late in every run. By a sum of 32 bits it would be of round 8,192. The trace keeps what is asked,
    // and nothing of the rounds, so that this run is read as soon as any other.
    Case {
        name: "a run and a lead as long as may be",
        round_ticks: 8,
        lead_ticks: 65_536,
        rounds: 8_388_608,
        reader: Repeated {
            last: b"67043320,1,291,7\n67043321,1,291,7\n4294967295,1,291,7\n",
            ..HEADER
        },
        looked_at: &[8_192, 8_388_606, 8_388_607, 8_388_608],
        answer: "\
            reads: 3, 8388608 rounds, [0, 0, 2]; 8192: 0 []; 8388606: 0 []; 8388607: 1 \
            [Ask { cluster: 0, bytes: 28 }]; 8388608: 0 []",
        ..BASE
    },
    // Marks of other flows than those that tell their activity, and requests of these, aren't requestable, whether or not
    // they would be late.
    Case {
        name: "marks of activity beside requests",
        reader: Repeated {
            text: b"tick,channel,sid,units,kind\n",
            last: b"0,1,710,0,1
161,1,711,0,01
0,1,291,10,0
0,1,710,0,2
0,1,711,0,0000000002
0,1,710,5,0
0,1,700,5,0
0,1,700,0,1
0,1,291,0,2
1000000,1,291,0,1
0,1,999,0,1
1000000,1,999,0,2
1000000,1,710,0,1
",
            ..HEADER
        },
        looked_at: &[0, 1, 2],
        answer: "\
            reads: 3, 4 rounds, [2, 5, 1]; 0: 0 []; 1: 4 [Ask { cluster: 1, bytes: 1 }, \
            Ask { cluster: 0, bytes: 40 }, Ask { cluster: 2, bytes: 1 }, Ask { cluster: 11, bytes: 1 }]; 2: 1 \
            [Ask { cluster: 10, bytes: 1 }]",
        ..BASE
    },
    Case {
        name: "pieces of a byte, behind a blank line, with quotes, and ended by CR LF",
        reader: Repeated {
            text: b"\ntick,channel,sid,units,kind\r\n",
            last: b"0,1,710,0,\"2\"\r\n",
            piece: 1,
            ..HEADER
        },
        looked_at: &[1],
        answer: "reads: 46, 4 rounds, [0, 0, 0]; 1: 1 [Ask { cluster: 2, bytes: 1 }]",
        ..BASE
    },
    Case {
        name: "a failure before the first byte",
        reader: Repeated {
            text: b"",
            fails: true,
            ..HEADER
        },
        answer: "reads: 1, TR5: the source failed",
        ..BASE
    },
    Case {
        name: "a failure behind what is no header",
        reader: Repeated {
            text: b"tick\n",
            piece: 4,
            fails: true,
            ..HEADER
        },
        answer: "reads: 3, TR5: the source failed",
        ..BASE
    },
    Case {
        name: "a failure at the end",
        reader: Repeated {
            last: b"0,1,291,10\n",
            fails: true,
            ..HEADER
        },
        answer: "reads: 3, TR5: the source failed",
        ..BASE
    },
];
