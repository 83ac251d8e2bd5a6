use super::base::{Case, Rule, compare};

/// Lines of requests, of which flow 7 may be credited 500 bytes, and 100 more from a round to the next.
static CASES: [Case; 9] = [
    ("", None),
    ("G,1,2,req,7,0,0,0,0,0,0,501\n", Some((1, 0, 7))),
    // two lines in a round
    (
        "G,1,2,req,7,0,0,0,0,0,0,300\nG,1,1,req,7,1,0,0,0,0,0,201\n",
        Some((1, 0, 7)),
    ),
    // over two rounds
    (
        "G,1,2,req,7,0,0,0,0,0,0,500\nG,2,2,req,7,0,0,0,0,0,0,100\n",
        None,
    ),
    (
        "G,1,2,req,7,0,0,0,0,0,0,500\nG,2,2,req,7,0,0,0,0,0,0,101\n",
        Some((2, 0, 7)),
    ),
    (
        "G,0,2,req,7,0,0,0,0,0,0,501\nG,2,2,req,7,0,0,0,0,0,0,501\n",
        Some((0, 0, 7)),
    ),
    // more than 64 bits tell
    (
        "G,2,2,req,7,0,0,0,0,0,0,18446744073709551615\nG,2,2,req,7,0,0,0,0,0,0,18446744073709551615\n",
        Some((2, 0, 7)),
    ),
    // of a flow without a limit, of no flow, and of another word
    (
        "G,1,1,req,1,0,0,0,0,0,0,5000\nG,1,1,req,65543,0,0,0,0,0,0,5000\nG,1,1,station,7,0,0,0,0,0,0,5000\n",
        None,
    ),
    // and of rounds that the run lacks
    (
        "G,3,2,req,7,0,0,0,0,0,0,501\nG,4294967296,2,req,7,0,0,0,0,0,0,501\n",
        None,
    ),
];

#[test]
fn rates(rt: HostRuntime) {
    compare(&rt, rt.alloc(), Rule::Rates, &CASES);
}
