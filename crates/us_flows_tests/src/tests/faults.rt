use super::base::{Asked, big, check};
use std::test::Fail;

/// Each fault of a document once, and none.
const FAULTS: &str = "\
ok | id = 10~ -> id = 10~
C1 | round_ticks = 640 -> round_ticks =
C2 top 0 | lead_ticks = 300 -> ~
C2 channel 1 | id = 20 -> ~
C3 channel 0 | guard = 10 -> guard = 256
C3 flow 1 | grant_bytes = 232 -> grant_bytes = 0
C3 station 1 | jitter_us = 1000 -> jitter_us = -1
C4 flow 0 | channels = [10, 20] -> channels = [10, 30]
C5 flow 2 | id = 103 -> id = 101
C6 flow 2 | clusters = [[513]] -> clusters = [[258]]
C7 flow 1 | clusters = [[1025]] -> clusters = [[]]
C8 channel 1 | round_ticks = 640 -> round_ticks = 642
C9 channel 0 | contention_minislots = 10 -> contention_minislots = 301
C10 station 0 | jitter_us = 900 -> jitter_us = 40000
C11 flow 1 | grant_bytes = 232 -> grant_bytes = 65535
C12 flow 0 | headers = true -> headers = false
C14 flow 2 | burst = 4000 -> burst = 4000~min_rate = 2000001";

#[test]
fn each_fault(rt: HostRuntime) -> Result<(), Fail> {
    check(rt.alloc(), Asked::Fault, big(), "", FAULTS)
}
