use super::base::{Case, Rule, compare};

/// U lines, of which there must be one that tells 1 unknown row, none that isn't requestable and 1 that is late.
static CASES: [Case; 7] = [
    ("G,9,9,station,9,9,9,9,9,9,9,9\nU,1,0,1\nF,9,9,9,9\n", None),
    ("", Some((3, 0, 0))),
    ("U,1,0,1\nU,1,0,1\n", Some((3, 0, 0))),
    ("U,1,0,1\nU,0,0,0\n", Some((3, 0, 0))),
    ("U,0,0,1\n", Some((3, 0, 0))),
    ("U,1,1,1\n", Some((3, 0, 0))),
    ("U,1,0,18446744073709551615\n", Some((3, 0, 0))),
];

#[test]
fn counts(rt: HostRuntime) {
    compare(&rt, rt.alloc(), Rule::Counts, &CASES);
}
