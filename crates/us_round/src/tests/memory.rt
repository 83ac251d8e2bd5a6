use super::base::{answer_of, same};
use super::rounds::BONDED;
use us_crew::OpenGate;

/// Run by `tools/refuse-memory` too, where each allocation is refused in turn: rounds and final lines are answered
/// whole, or as want of memory.
#[test]
fn refused_memory(rt: HostRuntime) {
    // else it was refused to the answer's text
    if let Ok(answer) = answer_of(&rt, rt.alloc(), &BONDED, 1, &OpenGate) {
        if !answer.as_str().ends_with("out of memory") {
            same(&rt, BONDED.name, answer.as_str(), BONDED.answer);
        }
    }
}
