use super::base::{FLOWS, answer_of, same};
use std::alloc::Global;
use std::process::Abort;
use std::test::Fail;

/// The rows of a trace, and in which rounds the two flows are active.
struct Case<'a> {
    name: &'a str,
    rows: &'a str,
    answer: &'a str,
}

#[test]
fn worked_traces(rt: HostRuntime) -> Result<(), Fail> {
    compare(&rt, rt.alloc(), FLOWS, &CASES);
    Ok(())
}

/// Where no flow tells its activity, word 0 is a cluster's, and no word is silent.
#[test]
fn no_flow_tells(rt: HostRuntime) -> Result<(), Fail> {
    compare(&rt, rt.alloc(), ONE_CLUSTER, &NONE);
    Ok(())
}

/// Compares what is told of each trace.
fn compare(rt: &impl Abort, alloc: Global, flows: &str, cases: &[Case<'_>]) {
    for case in cases {
        match answer_of(alloc, flows, case.rows) {
            Some(answer) => same(rt, case.name, answer.as_str(), case.answer),
            None => same(rt, case.name, "none", case.answer),
        }
    }
}

/// One flow with a cluster.
const ONE_CLUSTER: &str = "
[[flow]]
id = 2
type = 2
channels = [1]
clusters = [[291]]
priority = 0
rate = 0
burst = 3044
unit = 4
headers = true
";

/// Rows at tick 0 are for round 1, at tick 320 for round 2, and so on; the run has 6 rounds.
static CASES: [Case<'static>; 7] = [
    Case {
        name: "no mark",
        rows: "tick,channel,sid,units,kind\n",
        answer: "700: aaaaaaaaa\n702: aaaaaaaaa\n",
    },
    Case {
        name: "four columns",
        rows: "tick,channel,sid,units\n0,1,291,10\n0,1,700,0\n",
        answer: "700: aaaaaaaaa\n702: aaaaaaaaa\n",
    },
    Case {
        name: "silent, and active again",
        rows: "tick,channel,sid,units,kind\n0,1,700,0,1\n640,1,700,0,2\n",
        answer: "700: assaaaaaa\n702: aaaaaaaaa\n",
    },
    Case {
        name: "both marks in one round, in either order",
        rows: "tick,channel,sid,units,kind
0,1,700,0,1
1,1,700,0,2
0,1,702,0,2
1,1,702,0,1
320,1,702,0,1
640,1,702,0,2
641,1,702,0,1
",
        answer: "700: aaaaaaaaa\n702: aasaaaaaa\n",
    },
    Case {
        name: "marks of the other flow, and a cluster's requests",
        rows: "tick,channel,sid,units,kind
0,1,702,0,1
0,1,291,10,0
320,1,291,10,0
",
        answer: "700: aaaaaaaaa\n702: assssssss\n",
    },
    Case {
        name: "marks that tell nothing new, and marks out of their order",
        rows: "tick,channel,sid,units,kind
1280,1,700,0,2
960,1,700,0,1
0,1,700,0,2
320,1,700,0,1
321,1,700,0,1
",
        answer: "700: aasssaaaa\n702: aaaaaaaaa\n",
    },
    Case {
        name: "a mark in the last round, and one behind it",
        rows: "tick,channel,sid,units,kind\n1280,1,700,0,1\n1600,1,700,0,2\n",
        answer: "700: aaaaassss\n702: aaaaaaaaa\n",
    },
];

static NONE: [Case<'static>; 1] = [Case {
    name: "no flow tells its activity",
    rows: "tick,channel,sid,units\n0,1,291,10\n320,1,291,1\n",
    answer: "700: aaaaaaaaa\n702: aaaaaaaaa\n",
}];
