use super::base::{FIRST, OTHERS, SECOND, judge};
use us_reports::Place;

/// Run by `tools/refuse-memory` too, where each allocation is refused in turn. A refused one is answered as want of
/// memory, and never as another place.
#[test]
fn refused_memory(rt: HostRuntime) {
    let place = Place {
        round: 2,
        channel: 1,
        third: 1,
    };
    let lines = [OTHERS, FIRST, SECOND, "M,2,1,ugs,1,1,0"];
    if let Some(answer) = judge(rt.alloc(), &lines) {
        // else it was refused
        assert_eq!(rt; answer, Some(place));
    }
}
