use super::base::{MAPS, REPORT, broken, same, verdict_on};
use super::stored::{REPORT_OF_TWO_OWNERS, TWO_OWNERS};
use crate::{CheckFault, Rule, Verdict};

/// Lines that turn back, so that all are sorted.
static TURNED_BACK: &str = "G,1,1,req,1,0,0,291,10,0,32,9\nG,0,1,req,1,0,0,291,10,0,32,9\n";

/// Run by `tools/refuse-memory` too, where each allocation is refused in turn. A refused one is answered as want of
/// memory, and never as another verdict or fault.
#[test]
fn refused_memory(rt: HostRuntime) {
    let stored: (&[u8], &str, _) = (&MAPS, REPORT, Ok(Verdict::Holds));
    let changed = broken(Rule::Minislots, 1, 1, 150);
    let sorted = broken(Rule::Minislots, 0, 1, 0);
    for (maps, report, wanted) in [
        stored,
        (&TWO_OWNERS, REPORT_OF_TWO_OWNERS, changed),
        (&MAPS, TURNED_BACK, sorted),
    ] {
        let found = verdict_on(rt.alloc(), maps, report);
        if found != Err(CheckFault::NoMemory) {
            same(&rt, &found, &wanted, report);
        }
    }
}
