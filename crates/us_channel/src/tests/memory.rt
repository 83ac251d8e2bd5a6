use super::base::{answer_of, same};
use super::rounds::ANSWER;

/// Run by `tools/refuse-memory` too, where each allocation is refused in turn: the rounds are answered whole, or as want of
/// memory.
#[test]
fn refused_memory(rt: HostRuntime) {
    // else it was refused to a text
    if let Ok(answer) = answer_of(rt.alloc(), [5_000, 1_000], [1_000, 5_000]) {
        if !answer.as_str().ends_with("out of memory") {
            same(&rt, "two rounds", answer.as_str(), ANSWER);
        }
    }
}
