use super::base::config_of;
use super::rounds::is_round_told;
use crate::activity_rows;
use std::alloc::Global;
use std::process::Abort;
use us_slots::NoMemory;

/// The one assertion of these tests, since each costs the proof of the function that it stands in.
fn same(rt: &impl Abort, found: bool, wanted: bool) {
    assert_eq!(rt; found, wanted);
}

/// Whether round 0 gives what it has to. `None` where memory is refused, or the configuration is.
fn told(alloc: Global) -> Option<bool> {
    match config_of(alloc) {
        Ok(config) => is_round_told(alloc, &config).ok(),
        Err(_) => None,
    }
}

/// Whether A lines are made of lists that are shorter and longer than the table of flows. A clause says which they are.
fn are_lines_made(alloc: Global) -> bool {
    match config_of(alloc) {
        Ok(config) => activity_rows(alloc, &config, &[]).is_ok()
            && activity_rows(alloc, &config, &[Some(true); 4]).is_ok(),
        Err(_) => false,
    }
}

#[test]
fn lists_of_other_lengths(rt: HostRuntime) {
    same(&rt, are_lines_made(rt.alloc()), true);
}

/// With ample memory.
#[test]
fn round_zero(rt: HostRuntime) {
    same(&rt, told(rt.alloc()) == Some(true), true);
}

/// Run by `tools/refuse-memory` too, where each allocation is refused in turn: what a round gives is answered whole, as values
/// and as texts, or as want of memory.
#[test]
fn refused_memory(rt: HostRuntime) {
    same(&rt, told(rt.alloc()) == Some(false), false);
}
