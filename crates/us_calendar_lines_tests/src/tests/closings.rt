use super::base::{Case, FIRST, OPEN, OTHERS, SECOND, compare, compare_by};

#[test]
fn closed_occurrences(rt: HostRuntime) {
    let open = Case {
        name: "those that close, and none that is open to the end",
        lines: &[OTHERS, FIRST, SECOND],
        answer: None,
    };
    let left_out = Case {
        name: "one left out",
        lines: &[OTHERS, SECOND, OPEN],
        answer: Some((1, 1, 1)),
    };
    let twice = Case {
        name: "one granted twice",
        lines: &[OTHERS, FIRST, SECOND, "G,1,1,ugs,1,0,0,513,11,1,1,0"],
        answer: Some((1, 1, 1)),
    };
    let both = Case {
        name: "one granted and missed",
        lines: &["M,1,1,ugs,1,0,1", OTHERS, FIRST, SECOND],
        answer: Some((1, 1, 1)),
    };
    compare(&rt, rt.alloc(), &[open, left_out, twice, both]);
}

#[test]
fn first_of_several(rt: HostRuntime) {
    let none = Case {
        name: "no line at all",
        lines: &[],
        answer: Some((0, 1, 1)),
    };
    let channel = Case {
        name: "two channels of a round",
        lines: &["M,0,1,station,1,0,0"],
        answer: Some((0, 2, 2)),
    };
    let round = Case {
        name: "two rounds",
        lines: &["M,0,1,station,1,0,0", "M,0,2,rtp,2,0,0"],
        answer: Some((1, 1, 1)),
    };
    let line = Case {
        name: "a wrong line before one left out",
        lines: &["M,0,1,ugs,0,0,0"],
        answer: Some((0, 1, 0)),
    };
    let behind = Case {
        name: "a wrong line behind one left out",
        lines: &["M,0,1,ugs,9,0,0"],
        answer: Some((0, 1, 1)),
    };
    compare(&rt, rt.alloc(), &[none, channel, round, line, behind]);
}

/// A station whose first window ends with round 0, and the second one with the run.
const ON_BOUNDS: &str = "
[[station]]
id = 7
channel = 1
sid = 5
start_us = 0
interval_us = 4000
jitter_us = 2000
";

#[test]
fn windows_that_end_with_a_round(rt: HostRuntime) {
    let missed = Case {
        name: "it closes in the next round",
        lines: &["M,1,1,station,7,0,0"],
        answer: None,
    };
    let left_out = Case {
        name: "so it is left out there",
        lines: &[],
        answer: Some((1, 1, 7)),
    };
    let early = Case {
        name: "and not missed before",
        lines: &["M,0,1,station,7,0,0"],
        answer: Some((0, 1, 7)),
    };
    let open = Case {
        name: "the second one stays open",
        lines: &["M,1,1,station,7,0,0", "M,2,1,station,7,1,0"],
        answer: Some((2, 1, 7)),
    };
    compare_by(&rt, rt.alloc(), ON_BOUNDS, &[missed, left_out, early, open]);
}

/// A station whose windows close in each round, one after another.
const EACH_ROUND: &str = "
[[station]]
id = 7
channel = 1
sid = 5
start_us = 0
interval_us = 2000
jitter_us = 1000
";

/// Their lines, the last one first.
const LAST: &str = "M,2,1,station,7,2,0";

const MIDDLE: &str = "M,1,1,station,7,1,0";

const EARLIEST: &str = "M,0,1,station,7,0,0";

#[test]
fn falling_order(rt: HostRuntime) {
    let all = Case {
        name: "each missed, the last one told first",
        lines: &[LAST, MIDDLE, EARLIEST],
        answer: None,
    };
    let left_out = Case {
        name: "one left out among them",
        lines: &[LAST, EARLIEST],
        answer: Some((1, 1, 7)),
    };
    let twice = Case {
        name: "one told twice among them",
        lines: &[LAST, MIDDLE, EARLIEST, MIDDLE],
        answer: Some((1, 1, 7)),
    };
    compare_by(&rt, rt.alloc(), EACH_ROUND, &[all, left_out, twice]);
}
