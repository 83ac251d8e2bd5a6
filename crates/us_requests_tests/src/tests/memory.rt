use super::base::{BASE, Case, HEADER, Repeated, compare};

/// Run by `tools/refuse-memory` too, where each allocation is refused in turn, of the text, its records, its requests and
/// its asks by round among them. A refused one is answered as want of memory, which ends this test, and never as another
/// fault or a wrong trace. There are so many requests that lists grow, and that asks are sorted with memory of their own.
#[test]
fn refused_memory(rt: HostRuntime) {
    let _ = compare(&rt, rt.alloc(), &CASES);
}

static CASES: [Case<'static>; 1] = [Case {
    name: "memory",
    rounds: 7,
    reader: Repeated {
        repeated: REQUESTS,
        left: 14,
        ..HEADER
    },
    looked_at: &[1, 6],
    answer: "\
        reads: 16, 7 rounds, [14, 0, 14]; 1: 28 [Ask { cluster: 0, bytes: 4 }, Ask { cluster: 0, bytes: 8 }, \
        Ask { cluster: 0, bytes: 4 }, Ask { cluster: 0, bytes: 8 }, Ask { cluster: 0, bytes: 4 }, \
        Ask { cluster: 0, bytes: 8 }, Ask { cluster: 0, bytes: 4 }]; 6: 14 [Ask { cluster: 0, bytes: 28 }, \
        Ask { cluster: 0, bytes: 28 }, Ask { cluster: 0, bytes: 28 }, Ask { cluster: 0, bytes: 28 }, \
        Ask { cluster: 0, bytes: 28 }, Ask { cluster: 0, bytes: 28 }, Ask { cluster: 0, bytes: 28 }]",
    ..BASE
}];

/// Requests of six rounds, and of none.
const REQUESTS: &[u8] = b"500,1,291,4
0,1,291,1
161,1,291,3
0,1,999,1
1441,1,291,7
0,1,291,2
801,1,291,5
1000000,1,291,9
1121,1,291,6
";
