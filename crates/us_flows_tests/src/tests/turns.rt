use super::base::{Asked, NO_FLOWS, big, check};
use std::alloc::AllocError;
use std::test::Fail;
use us_flows::Config;
use us_samples::base;

/// Writes the turns of a round, each as the places of its flow and of its cluster in it, with the number of the cluster's
/// word: `2.0.1`.
pub fn tell_turns(out: &mut String, config: &Config) -> Result<(), AllocError> {
    out.push_str("turns")?;
    for turn in config.turns() {
        write!(out, " {}.{}.{}", turn.flow, turn.list, turn.cluster)?;
    }
    Ok(())
}

/// Changes of the larger configuration, each with the turns that follow. Its flows of types 2, 6, 3 and 4 have the ids
/// 101, 104, 103 and 102, and the priorities 1, none, 6 and 6.
const TURNS: &str = "\
turns 3.0.3 3.1.4 2.0.2 0.0.0 0.1.1 | id = 10~ -> id = 10~
# by priority, of which the highest goes first
turns 0.0.0 0.1.1 3.0.3 3.1.4 2.0.2 | priority = 1 -> priority = 7
turns 2.0.2 3.0.3 3.1.4 0.0.0 0.1.1 | priority = 6 -> priority = 7
turns 2.0.2 0.0.0 0.1.1 3.0.3 3.1.4 | priority = 6 # -> priority = 0 #
turns 3.0.3 3.1.4 0.0.0 0.1.1 2.0.2 | priority = 6 -> priority = 0
# of one priority by id, and not by place
turns 0.0.0 0.1.1 3.0.3 3.1.4 2.0.2 | priority = 1 -> priority = 6
turns 3.0.3 3.1.4 2.0.2 0.0.0 0.1.1 | priority = 1 -> priority = 6 ; id = 101 -> id = 65535
turns 2.0.2 3.0.3 3.1.4 0.0.0 0.1.1 | id = 103 -> id = 9
turns 2.0.2 0.0.0 0.1.1 3.0.3 3.1.4 | priority = 1 -> priority = 6 ; id = 102 -> id = 256 ; id = 103 -> id = 9
# numbers in table order, without the flow that makes no requests
turns 3.0.2 3.1.3 2.0.1 0.0.0 | , [273, 274]] -> ]
turns 3.0.3 2.0.2 0.0.0 0.1.1 | , [785]] -> ]
turns 3.0.4 3.1.5 2.0.2 2.1.3 0.0.0 0.1.1 | [[513]] -> [[513], [514]]
turns 3.0.3 3.1.4 2.0.2 0.0.0 0.1.1 | id = 104 -> id = 1";

#[test]
fn turns_of_a_round(rt: HostRuntime) -> Result<(), Fail> {
    check(rt.alloc(), Asked::Turns, big(), "", TURNS)?;
    check(
        rt.alloc(),
        Asked::Turns,
        base(),
        NO_FLOWS,
        "turns | id = 1~ -> id = 1~",
    )
}
