use super::base::{Case, FIRST, OPEN, OTHERS, SECOND, compare, compare_by};

#[test]
fn right_lines(rt: HostRuntime) {
    let all = Case {
        name: "each occurrence granted",
        lines: &[OTHERS, FIRST, SECOND, OPEN],
        answer: None,
    };
    let missed = Case {
        name: "one missed where its window closes",
        lines: &[OTHERS, "M,1,1,ugs,1,0,0", SECOND],
        answer: None,
    };
    let requested = Case {
        name: "a request's line, whatever it tells",
        lines: &[OTHERS, FIRST, SECOND, "G,1,1,req,1,0,0,9,9,99,9,9"],
        answer: None,
    };
    compare(&rt, rt.alloc(), &[all, missed, requested]);
}

#[test]
fn lines_of_nothing(rt: HostRuntime) {
    let word = Case {
        name: "no unsolicited grant has this id",
        lines: &[OTHERS, FIRST, SECOND, "G,0,2,ugs,2,0,0,514,1,0,2,0"],
        answer: Some((0, 2, 2)),
    };
    let missed = Case {
        name: "no entry has this id",
        lines: &[OTHERS, FIRST, SECOND, "M,1,1,ugs,9,0,0"],
        answer: Some((1, 1, 9)),
    };
    let third = Case {
        name: "a third grant of an interval",
        lines: &[OTHERS, FIRST, SECOND, "G,2,1,ugs,1,1,2,513,11,152,1,0"],
        answer: Some((2, 1, 1)),
    };
    let limits = Case {
        name: "numbers at their limit",
        lines: &[
            OTHERS,
            FIRST,
            SECOND,
            "G,9,1,ugs,1,18446744073709551615,1,513,11,18446744073709551615,1,0",
        ],
        answer: Some((9, 1, 1)),
    };
    compare(&rt, rt.alloc(), &[word, missed, third, limits]);
}

#[test]
fn occurrences_behind_the_run(rt: HostRuntime) {
    let open = Case {
        name: "an occurrence that begins in the run, granted behind it",
        lines: &[OTHERS, FIRST, SECOND, "G,3,1,ugs,1,1,0,513,11,0,1,0"],
        answer: None,
    };
    let behind = Case {
        name: "one that begins behind the run",
        lines: &[OTHERS, FIRST, SECOND, "G,4,1,ugs,1,2,0,513,11,152,1,0"],
        answer: Some((4, 1, 1)),
    };
    compare(&rt, rt.alloc(), &[open, behind]);
}

/// A station of which the second interval begins as the run ends.
const AT_THE_END: &str = "
[[station]]
id = 7
channel = 1
sid = 5
start_us = 2000
interval_us = 4000
jitter_us = 2000
";

#[test]
fn occurrences_at_the_end(rt: HostRuntime) {
    let none = Case {
        name: "no line of it",
        lines: &["M,2,1,station,7,0,0"],
        answer: None,
    };
    let granted = Case {
        name: "granted as the run ends",
        lines: &["M,2,1,station,7,0,0", "G,3,1,station,7,1,0,5,4,0,4,0"],
        answer: Some((3, 1, 7)),
    };
    compare_by(&rt, rt.alloc(), AT_THE_END, &[none, granted]);
}

#[test]
fn wrong_grants(rt: HostRuntime) {
    let channel = Case {
        name: "a grant on another channel",
        lines: &[OTHERS, FIRST, SECOND, "G,2,2,ugs,1,1,0,513,11,152,1,0"],
        answer: Some((2, 2, 1)),
    };
    let early = Case {
        name: "a grant before its window",
        lines: &[OTHERS, FIRST, SECOND, "G,2,1,ugs,1,1,0,513,11,151,1,0"],
        answer: Some((2, 1, 1)),
    };
    let late = Case {
        name: "a grant behind its window",
        lines: &[OTHERS, FIRST, "G,1,1,ugs,1,0,1,513,11,57,1,0"],
        answer: Some((1, 1, 1)),
    };
    let sid = Case {
        name: "a grant to another SID",
        lines: &[OTHERS, FIRST, SECOND, "G,2,1,ugs,1,1,0,514,11,152,1,0"],
        answer: Some((2, 1, 1)),
    };
    compare(&rt, rt.alloc(), &[channel, early, late, sid]);
}

#[test]
fn wrong_misses(rt: HostRuntime) {
    let channel = Case {
        name: "missed on another channel",
        lines: &[OTHERS, FIRST, "M,1,2,ugs,1,0,1"],
        answer: Some((1, 2, 1)),
    };
    let late = Case {
        name: "missed a round late",
        lines: &[OTHERS, FIRST, "M,2,1,ugs,1,0,1"],
        answer: Some((2, 1, 1)),
    };
    let open = Case {
        name: "missed while it is open",
        lines: &[OTHERS, FIRST, SECOND, "M,2,1,ugs,1,1,0"],
        answer: Some((2, 1, 1)),
    };
    let twice = Case {
        name: "told twice while it is open",
        lines: &[OTHERS, OPEN, FIRST, SECOND, OPEN],
        answer: Some((2, 1, 1)),
    };
    compare(&rt, rt.alloc(), &[channel, late, open, twice]);
}
