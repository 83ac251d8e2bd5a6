use super::base::{Case, Rule, compare, judge};

/// Lines of requests that are right, each for itself and for the sum of its cluster.
static RIGHT: [Case; 5] = [
    ("", None),
    (
        "G,1,1,req,1,0,0,291,10,0,32,1000\nG,1,2,req,7,0,0,300,10,0,14,400\nG,1,1,req,7,1,0,303,9,32,3,50\n",
        None,
    ),
    // of one cluster on both channels, and in two rounds
    (
        "G,1,1,req,7,0,0,301,9,0,4,100\nG,1,2,req,7,0,0,300,9,0,4,100\nG,2,1,req,7,0,0,301,9,0,4,100\n",
        None,
    ),
    // whatever was asked for, in a round that the run lacks
    ("G,3,1,req,1,0,0,291,10,0,3065,98050\n", None),
    (
        "G,3,1,req,1,0,0,291,10,0,576460752303423489,18446744073709551615\n",
        None,
    ),
];

#[test]
fn right(rt: HostRuntime) {
    compare(&rt, rt.alloc(), Rule::Credits, &RIGHT);
}

/// A line with one thing wrong.
static WRONG: [Case; 10] = [
    // of a flow or a cluster that isn't there
    ("G,1,1,req,2,0,0,291,10,0,32,1000\n", Some((1, 1, 2))),
    ("G,1,1,req,1,1,0,291,10,0,32,1000\n", Some((1, 1, 1))),
    // on a channel that isn't there, or isn't the flow's
    ("G,1,257,req,1,0,0,291,10,0,32,1000\n", Some((1, 257, 1))),
    ("G,1,2,req,1,0,0,291,10,0,32,1000\n", Some((1, 2, 1))),
    // its third number, its SID, its IUC,
    ("G,1,1,req,1,0,1,291,10,0,32,1000\n", Some((1, 1, 1))),
    ("G,1,1,req,7,1,0,302,9,0,3,50\n", Some((1, 1, 7))),
    ("G,1,1,req,7,1,0,303,10,0,3,50\n", Some((1, 1, 7))),
    // its minislots, as if there were no header,
    ("G,1,1,req,1,0,0,291,10,0,31,977\n", Some((1, 1, 1))),
    (
        "G,3,1,req,1,0,0,291,10,0,576460752303423488,18446744073709551615\n",
        Some((3, 1, 1)),
    ),
    // and its credit
    ("G,1,1,req,1,0,0,291,9,0,1,0\n", Some((1, 1, 1))),
];

#[test]
fn wrong(rt: HostRuntime) {
    compare(&rt, rt.alloc(), Rule::Credits, &WRONG);
}

/// Lines of which more than one is wrong.
static SEVERAL: [Case; 5] = [
    // twice the same cluster, channel and round, among others,
    (
        "G,1,1,req,7,1,0,303,9,0,2,20\nG,1,1,req,7,0,0,301,9,0,2,20\nG,1,1,req,7,1,0,303,9,2,2,21\n",
        Some((1, 1, 7)),
    ),
    // by another word
    (
        "G,1,1,req,7,1,0,303,9,0,2,20\nG,1,1,station,7,1,0,303,9,0,2,20\n",
        None,
    ),
    // by round, and in a round by channel
    (
        "G,1,2,req,2,0,0,1,1,0,1,1\nG,1,1,req,3,0,0,1,1,0,1,1\nG,2,1,req,2,0,0,1,1,0,1,1\n",
        Some((1, 1, 3)),
    ),
    // and by id
    (
        "G,1,1,req,4,0,0,1,1,0,1,1\nG,1,1,req,3,0,0,1,1,0,1,1\n",
        Some((1, 1, 3)),
    ),
    // the sum of a round before its lines
    ("G,1,1,req,1,0,0,291,10,0,1,1001\n", Some((1, 0, 1))),
];

#[test]
fn several(rt: HostRuntime) {
    compare(&rt, rt.alloc(), Rule::Credits, &SEVERAL);
}

/// A line of a request isn't due behind one of a later round; others are.
#[test]
fn due(rt: HostRuntime) {
    let late = "G,2,1,req,7,0,0,301,9,0,2,20\nG,1,1,req,7,0,0,301,9,0,2,20\n";
    assert_eq!(rt; judge(rt.alloc(), Rule::Counts, late), None);
}
