use super::asking::walk;
use super::plans::{RUNS, are_planned};

/// Run by `tools/refuse-memory` too, where each allocation is refused in turn: plans, by themselves and by a planner, and
/// askers are answered whole or as want of memory. A round of the planner may have been refused memory before it plans the
/// next one.
#[test]
fn refused_memory(rt: HostRuntime) {
    let _ = are_planned(&rt, rt.alloc(), &RUNS[0]);
    let _ = are_planned(&rt, rt.alloc(), &RUNS[5]);
    let _ = walk(&rt, rt.alloc());
}
