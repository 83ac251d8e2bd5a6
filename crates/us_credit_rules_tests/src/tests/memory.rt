use super::base::{Rule, judge};
use us_reports::Place;

/// Lines of requests; a cluster without its F line, a flow without its A line,
/// and no U line.
const REPORT: &str = "\
G,1,1,req,7,1,0,303,9,0,2,20
G,1,1,req,7,0,0,301,9,0,2,20
G,1,2,req,7,1,0,302,9,0,2,20
G,1,2,req,7,0,0,300,9,0,2,500
G,2,1,req,7,0,0,301,9,0,2,20
G,2,2,req,7,0,0,300,9,0,2,20
F,1,0,1000,-
F,7,0,80,0
A,5,1
A,6,1
A,8,1
";

/// A rule, and where that fails first.
static CASES: [(Rule, (u64, u64, u64)); 5] = [
    (Rule::Rates, (1, 0, 7)),
    (Rule::Credits, (1, 2, 7)),
    (Rule::Finals, (3, 0, 7)),
    (Rule::Activities, (3, 0, 9)),
    (Rule::Counts, (3, 0, 0)),
];

/// Run by `tools/refuse-memory` too, where each allocation is refused in turn. A refused one is never answered as a
/// place, or as a rule that holds.
#[test]
fn refused_memory(rt: HostRuntime) {
    for (rule, (round, channel, third)) in CASES {
        let wanted = Place {
            round,
            channel,
            third,
        };
        if let Some(first) = judge(rt.alloc(), rule, REPORT) {
            // else it was refused
            assert_eq!(rt; first, Some(wanted));
        }
    }
}
