use super::base::{Asked, big, check};
use std::alloc::AllocError;
use std::test::Fail;
use us_flows::Config;
use us_samples::base;

/// Writes how many words there are.
pub fn tell_words(out: &mut String, config: &Config) -> Result<(), AllocError> {
    write!(out, "{} words", config.clusters())
}

/// What makes the flow of the base configuration one that tells its activity, with grants of a byte.
pub const TELLING: &str =
    "type = 2 -> type = 5 ; priority = 0~rate = 0~burst = 3044~unit = 4~headers = true~ -> \
start_us = 0~interval_us = 2000~jitter_us = 1000~grant_bytes = 1~grants_per_interval = 2~";

/// The larger configuration with such a flow in place of that of unsolicited grants, which stands behind a flow of two
/// clusters; with another one before all others; and with that one alone.
const SIDS: &str = "\
7 words; 10 257 Cluster(0); 10 273 Cluster(1); 10 769 Cluster(5); 10 785 Cluster(6); \
20 258 Cluster(0); 20 274 Cluster(1); 20 513 Cluster(4); 20 1025 Activity(2) | id = 10~ -> id = 10~
9 words; 10 7 Activity(0); 10 257 Cluster(2); 10 273 Cluster(3); 10 769 Cluster(7); 10 785 Cluster(8); \
20 258 Cluster(2); 20 274 Cluster(3); 20 513 Cluster(6); 20 1025 Activity(4) | \
[[flow]] -> [[flow]]~id = 1~type = 5~channels = [10]~clusters = [[7]]~start_us = 0~interval_us = 2000~jitter_us = 0~\
grant_bytes = 1~grants_per_interval = 1~[[flow]]
7 words; 10 7 Activity(0); 10 257 Cluster(2); 10 273 Cluster(3); 10 769 Cluster(5); 10 785 Cluster(6); \
20 258 Cluster(2); 20 274 Cluster(3); 20 513 Cluster(4); 20 1025 Unsolicited | type = 5 -> type = 6 ; \
[[flow]] -> [[flow]]~id = 1~type = 5~channels = [10]~clusters = [[7]]~start_us = 0~interval_us = 2000~jitter_us = 0~\
grant_bytes = 1~grants_per_interval = 1~[[flow]]";

/// Numbers of turns count words, and activity has no turn.
const TURNS: &str = "\
turns 3.0.5 3.1.6 2.0.4 0.0.0 0.1.1 | id = 10~ -> id = 10~
turns 3.0.4 3.1.5 2.0.3 0.0.0 | , [273, 274]] -> ]";

#[test]
fn words_of_activity(rt: HostRuntime) -> Result<(), Fail> {
    let shared = "type = 6 -> type = 5";
    check(rt.alloc(), Asked::Sids, big(), shared, SIDS)?;
    check(rt.alloc(), Asked::Turns, big(), shared, TURNS)
}

/// Such a flow has the keys of unsolicited grants, one channel and one cluster. Its MAPs have 160 minislots, and in a round
/// of 2 ticks a single one, in which a grant of a byte has room, but no poll of 2 minislots.
const FAULTS: &str = "\
ok | id = 1~ -> id = 1~
C3 flow 0 | channels = [1] -> channels = [1, 2]
C3 flow 0 | clusters = [[291]] -> clusters = [[291], [292]]
C7 flow 0 | clusters = [[291]] -> clusters = [[291, 292]]
C3 flow 0 | start_us = 0 -> start_us = 0~priority = 0
C3 flow 0 | start_us = 0 -> start_us = 0~min_rate = 0
C2 flow 0 | grants_per_interval = 2 -> ~
C2 flow 0 | jitter_us = 1000 -> ~
C10 flow 0 | jitter_us = 1000 -> jitter_us = 2000
ok | grant_bytes = 1 -> grant_bytes = 5104
C11 flow 0 | grant_bytes = 1 -> grant_bytes = 5105
C11 flow 0 | round_ticks = 320 -> round_ticks = 2 ; contention_minislots = 10 -> contention_minislots = 0
ok | round_ticks = 320 -> round_ticks = 2 ; contention_minislots = 10 -> contention_minislots = 0 ; \
request_minislots = 2 -> request_minislots = 1
ok | round_ticks = 320 -> round_ticks = 2 ; contention_minislots = 10 -> contention_minislots = 0 ; type = 5 -> type = 6";

#[test]
fn faults_of_activity(rt: HostRuntime) -> Result<(), Fail> {
    check(rt.alloc(), Asked::Fault, base(), TELLING, FAULTS)
}
