use super::base::{Asked, big, check};
use std::alloc::AllocError;
use std::test::Fail;
use us_flows::Config;

/// Writes the minimum rate of each flow.
pub fn tell_min_rates(out: &mut String, config: &Config) -> Result<(), AllocError> {
    out.push_str("min rates")?;
    for flow in config.flows() {
        write!(out, " {}", flow.min_rate())?;
    }
    Ok(())
}

/// Without the key a flow has no minimum rate. The flows have the types 2, 6, 3 and 4.
const MIN_RATES: &str = "\
min rates 0 0 0 0 | id = 10~ -> id = 10~
min rates 1000000 0 2 1000000000 | burst = 3044 -> burst = 3044~min_rate = 1000000 ; \
burst = 4000 -> burst = 4000~min_rate = 2 ; burst = 5000 -> min_rate = 1_000_000_000~burst = 5000";

#[test]
fn min_rates_of_flows(rt: HostRuntime) -> Result<(), Fail> {
    check(rt.alloc(), Asked::MinRates, big(), "", MIN_RATES)
}

/// A minimum rate beside a maximum one, and where there is none; out of its range; at unsolicited grants; and beside
/// other faults: of the same flow all others come first, and flows are judged one after another.
const FAULTS: &str = "\
ok | burst = 3044 -> burst = 3044~min_rate = 0
ok | burst = 3044 -> burst = 3044~min_rate = 1000000
C14 flow 0 | burst = 3044 -> burst = 3044~min_rate = 1000001
C14 flow 2 | burst = 4000 -> burst = 4000~min_rate = 1000000000
ok | burst = 5000 -> burst = 5000~min_rate = 1000000000
C3 flow 3 | burst = 5000 -> burst = 5000~min_rate = 1000000001
C3 flow 0 | burst = 3044 -> burst = 3044~min_rate = -1
C3 flow 0 | burst = 3044 -> burst = 3044~min_rate = true
C3 flow 1 | grant_bytes = 232 -> grant_bytes = 232~min_rate = 0
C12 flow 0 | burst = 3044 -> burst = 3044~min_rate = 1000001 ; headers = true -> headers = false
C10 flow 2 | burst = 4000 -> burst = 4000~min_rate = 2000001 ; jitter_us = 500 -> jitter_us = 20000
C14 flow 0 | burst = 3044 -> burst = 3044~min_rate = 1000001 ; id = 103 -> id = 101
C5 flow 2 | burst = 5000 -> burst = 5000~min_rate = 6 ; rate = 0 -> rate = 5 ; id = 103 -> id = 101";

#[test]
fn faults_of_min_rates(rt: HostRuntime) -> Result<(), Fail> {
    check(rt.alloc(), Asked::Fault, big(), "", FAULTS)
}
