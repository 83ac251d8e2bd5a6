use super::base::{Case, Rule, compare};

/// Reports without credits, where all that was asked for is outstanding and the bucket of flow 7 is full.
static QUIET: [Case; 10] = [
    (
        "F,7,1,50,640000000\nF,1,0,1000,-\nF,7,0,640,640000000\n",
        None,
    ),
    // without a line
    ("", Some((3, 0, 1))),
    ("F,1,0,1000,-\nF,7,0,640,640000000\n", Some((3, 0, 7))),
    // one line twice
    (
        "F,1,0,1000,-\nF,1,0,1000,-\nF,7,0,640,640000000\nF,7,1,50,640000000\n",
        Some((3, 0, 1)),
    ),
    // of no cluster, and of no flow
    (
        "F,1,0,1000,-\nF,7,0,640,640000000\nF,7,1,50,640000000\nF,7,2,0,640000000\n",
        Some((3, 0, 7)),
    ),
    (
        "F,2,0,0,-\nF,1,0,1000,-\nF,7,0,640,640000000\n",
        Some((3, 0, 2)),
    ),
    // other bytes, and other units
    ("F,1,0,999,-\nF,7,0,640,640000000\n", Some((3, 0, 1))),
    (
        "F,1,0,1000,-\nF,7,0,640,639999999\nF,7,1,50,640000000\n",
        Some((3, 0, 7)),
    ),
    (
        "F,1,0,1000,-\nF,7,0,640,-\nF,7,1,50,640000000\n",
        Some((3, 0, 7)),
    ),
    (
        "F,1,0,1000,0\nF,7,0,640,640000000\nF,7,1,50,640000000\n",
        Some((3, 0, 1)),
    ),
];

#[test]
fn quiet(rt: HostRuntime) {
    compare(&rt, rt.alloc(), Rule::Finals, &QUIET);
}

/// Reports with credits.
static BUSY: [Case; 4] = [
    // In round 1 the bucket of flow 7 is left with 50 bytes, and in round 2 with 150 less 90.
    (
        "G,1,2,req,7,0,0,0,0,0,0,400\nG,1,1,req,7,1,0,0,0,0,0,50\nG,2,1,req,7,0,0,0,0,0,0,90\n\
F,1,0,1000,-\nF,7,0,150,76800000\nF,7,1,0,76800000\n",
        None,
    ),
    // a credit in round 0 is forgotten in a bucket that is full again
    (
        "G,0,2,req,7,0,0,0,0,0,0,200\nF,1,0,1000,-\nF,7,0,440,640000000\nF,7,1,50,640000000\n",
        None,
    ),
    // more than there is leaves nothing
    (
        "G,2,1,req,7,0,0,0,0,0,0,18446744073709551615\nF,1,0,1000,-\nF,7,0,0,0\nF,7,1,50,0\n",
        None,
    ),
    // and rounds that the run lacks play no part
    (
        "G,3,1,req,1,0,0,0,0,0,0,1\nF,1,0,999,-\nF,7,0,640,640000000\nF,7,1,50,640000000\n",
        Some((3, 0, 1)),
    ),
];

#[test]
fn busy(rt: HostRuntime) {
    compare(&rt, rt.alloc(), Rule::Finals, &BUSY);
}
