use super::base::{Case, Rule, compare};

/// A lines, of which flows 5, 6, 8 and 9 must have one each: flow 9 alone is silent.
static CASES: [Case; 8] = [
    (
        "A,9,0\nG,9,9,station,9,9,9,9,9,9,9,9\nA,5,1\nA,8,1\nA,6,1\nU,9,9,9\n",
        None,
    ),
    // without a line, and without one of flow 8
    ("", Some((3, 0, 5))),
    ("A,5,1\nA,6,1\nA,9,0\n", Some((3, 0, 8))),
    // one line twice, and one beside it
    ("A,5,1\nA,6,1\nA,6,1\nA,8,1\nA,9,0\n", Some((3, 0, 6))),
    ("A,5,1\nA,6,1\nA,8,1\nA,9,1\nA,9,0\n", Some((3, 0, 9))),
    // of a flow that makes requests, and of no flow
    ("A,5,1\nA,6,1\nA,7,1\nA,8,1\nA,9,1\n", Some((3, 0, 7))),
    ("A,0,1\nA,5,0\n", Some((3, 0, 0))),
    (
        "A,65541,1\nA,5,1\nA,6,1\nA,8,1\nA,9,0\n",
        Some((3, 0, 65541)),
    ),
];

#[test]
fn activities(rt: HostRuntime) {
    compare(&rt, rt.alloc(), Rule::Activities, &CASES);
}

/// A lines that tell something else.
static OTHERS: [Case; 5] = [
    // before its last mark,
    ("A,5,0\nA,6,1\nA,8,1\nA,9,0\n", Some((3, 0, 5))),
    ("A,5,1\nA,6,1\nA,8,1\nA,9,1\n", Some((3, 0, 9))),
    // by the last record of a round, and without a mark
    ("A,5,1\nA,6,0\nA,8,1\nA,9,0\n", Some((3, 0, 6))),
    ("A,5,1\nA,6,1\nA,8,0\nA,9,0\n", Some((3, 0, 8))),
    // and numbers that are neither
    (
        "A,5,1\nA,6,1\nA,8,18446744073709551615\nA,9,2\n",
        Some((3, 0, 8)),
    ),
];

#[test]
fn others(rt: HostRuntime) {
    compare(&rt, rt.alloc(), Rule::Activities, &OTHERS);
}
