use super::base::{Case, Rule, compare};

/// Lines that are right, each by itself, and where a cluster is first credited more than is outstanding.
static CASES: [Case; 6] = [
    // a round late, and a round early
    ("G,2,1,req,1,0,0,291,10,0,32,1000\n", None),
    ("G,0,1,req,1,0,0,291,10,0,32,1000\n", Some((0, 0, 1))),
    // what is outstanding of the other cluster doesn't count
    ("G,1,1,req,7,1,0,303,9,0,3,51\n", Some((1, 0, 7))),
    // a round that asks for 40 more, which were credited in the round before
    (
        "G,1,2,req,7,0,0,300,10,0,21,640\nG,2,1,req,7,0,0,301,9,0,2,1\n",
        Some((1, 0, 7)),
    ),
    // over both rounds
    (
        "G,1,2,req,7,0,0,300,10,0,20,600\nG,2,1,req,7,0,0,301,9,0,2,41\n",
        Some((2, 0, 7)),
    ),
    // of two flows by round
    (
        "G,0,1,req,7,1,0,303,9,0,1,1\nG,1,1,req,1,0,0,291,10,0,32,1001\n",
        Some((0, 0, 7)),
    ),
];

#[test]
fn sums(rt: HostRuntime) {
    compare(&rt, rt.alloc(), Rule::Credits, &CASES);
}
