use super::base::{count_of, same};
use us_reports::ReportFault;

/// So many lines that the rows grow several times, and then one that is bad.
const REPORT: &[u8] = b"\
U,0,0,1\nU,0,0,2\nU,0,0,3\nU,0,0,4\nU,0,0,5\nU,0,0,6\nU,0,0,7\nU,0,0,8\nU,0,0,9\nU,0,0,10\n\
U,0,0,11\nU,0,0,12\nU,0,0,13\nU,0,0,14\nU,0,0,15\nU,0,0,16\nU,0,0,17\nU,0,0,18\nU,0,0,19\n\
U,0,0,020\n";

/// Run by `tools/refuse-memory` too, where each allocation is refused in turn. A refused one is answered as
/// want of memory, and never as a bad line or as fewer rows.
#[test]
fn refused_memory(rt: HostRuntime) {
    let found = count_of(rt.alloc(), REPORT);
    if found != Err(ReportFault::NoMemory) {
        same(&rt, &found, &Err(ReportFault::Line(20)), "the last line");
    }
}
