use super::base::{place, same};
use crate::Board;

/// Run by `tools/refuse-memory` too, where each allocation is refused in turn: of the board's lists, and of
/// the list of its runs. A refused one is answered as want of memory, and never as a list of fewer runs; and placements
/// take none, so that none is refused.
#[test]
fn refused_memory(rt: HostRuntime) {
    let Ok(mut board) = Board::new(rt.alloc(), 4_096) else {
        return;
    };
    for number in 0..20u32 {
        let _ = place(&mut board, ((2 * number + 1, 4_095), 1, 1));
    }
    if let Ok(runs) = board.runs(rt.alloc()) {
        same(&rt, runs.len(), 41);
    }
}
