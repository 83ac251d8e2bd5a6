use super::base::{Case, answer_of, same};
use super::calendars::SPLIT;
use super::workers::ALL_CHANNELS;
use std::alloc::Global;
use std::process::Abort;
use std::sync::Wait;
use std::thread::Threads;
use us_crew::OpenGate;

/// A case is answered whole, or as want of memory.
fn is_whole(
    rt: &(impl Abort + Threads + Wait + Sync),
    alloc: Global,
    case: &Case<'_>,
    workers: usize,
) {
    // else it was refused to the answer's text
    if let Ok(answer) = answer_of(rt, alloc, case, workers, &OpenGate) {
        if !answer.as_str().ends_with("out of memory") {
            same(rt, case.name, answer.as_str(), case.answer);
        }
    }
}

/// Run by `tools/refuse-memory` too, where each allocation is refused in turn: rounds in which a calendar grants, made
/// by two workers, and rounds by 16.
#[test]
fn refused_memory(rt: HostRuntime) {
    is_whole(&rt, rt.alloc(), &SPLIT, 2);
    is_whole(&rt, rt.alloc(), &ALL_CHANNELS, 16);
}
