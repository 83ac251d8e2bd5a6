use crate::Activities;
use std::alloc::{AllocError, Global};
use std::process::Abort;
use us_flows::Config;
use us_requests::Trace;
use us_samples::put_channel;
use us_slots::FromRead;

/// In table order a flow that tells its activity, by the words 0 and 1; one with a cluster, of word 2; one with unsolicited
/// grants at all times; and another that tells its activity, by the words 3 and 4.
pub(super) const FLOWS: &str = "
[[flow]]
id = 1
type = 5
channels = [1]
clusters = [[700]]
start_us = 0
interval_us = 20000
jitter_us = 500
grant_bytes = 64
grants_per_interval = 1

[[flow]]
id = 2
type = 2
channels = [1]
clusters = [[291]]
priority = 0
rate = 0
burst = 3044
unit = 4
headers = true

[[flow]]
id = 3
type = 6
channels = [1]
clusters = [[701]]
start_us = 0
interval_us = 20000
jitter_us = 500
grant_bytes = 64
grants_per_interval = 1

[[flow]]
id = 4
type = 5
channels = [1]
clusters = [[702]]
start_us = 0
interval_us = 20000
jitter_us = 500
grant_bytes = 64
grants_per_interval = 1
";

/// The words by which the flows of these SIDs say that they are silent.
pub(super) const SILENT: [(u16, u16); 2] = [(0, 700), (3, 702)];

/// The rounds of a run. A row at tick 0 is served in round 1, and each 320 ticks more are a round.
pub(super) const ROUNDS: u32 = 6;

/// The one comparison of these tests.
pub(super) fn same(rt: &impl Abort, name: &str, found: &str, wanted: &str) {
    assert_eq!(rt; found, wanted, "{name}");
}

/// Whether the two flows are active, `a`, or silent, `s`, in each round and behind the last one; none where the tables or
/// the trace are refused, or memory is.
pub(super) fn answer_of(alloc: Global, flows: &str, rows: &str) -> Option<String> {
    let config = config_of(alloc, flows)?;
    activity_of(alloc, &config, rows)
}

/// The same with a configuration.
pub(super) fn activity_of(alloc: Global, config: &Config, rows: &str) -> Option<String> {
    let trace = trace_of(alloc, config, rows)?;
    let activities = Activities::of(alloc, config, &trace).ok()?;
    let mut answer = String::new(alloc);
    match tell(&mut answer, &activities) {
        Ok(()) => Some(answer),
        Err(_) => None,
    }
}

/// The configuration of a channel and these flows.
pub(super) fn config_of(alloc: Global, flows: &str) -> Option<Config> {
    let mut text = String::new(alloc);
    put_channel(&mut text, 1).ok()?;
    text.push_str(flows).ok()?;
    Config::read(alloc, text.as_bytes()).ok()
}

/// The trace of a text.
fn trace_of(alloc: Global, config: &Config, rows: &str) -> Option<Trace> {
    let mut source = FromRead::new(rows.as_bytes());
    if config.rounds_fit(ROUNDS) {
        Trace::read(alloc, &mut source, config, ROUNDS).ok()
    } else {
        None
    }
}

/// Tells of each flow the rounds, and then the last round that there may be.
fn tell(answer: &mut String, activities: &Activities) -> Result<(), AllocError> {
    for (word, sid) in SILENT {
        write!(answer, "{sid}: ")?;
        for round in 0..ROUNDS + 2 {
            answer.push(letter(activities.is_active(word, u128::from(round))))?;
        }
        answer.push(letter(activities.is_active(word, u128::MAX)))?;
        answer.push('\n')?;
    }
    Ok(())
}

/// The letter of an active flow, or of a silent one.
pub(super) fn letter(active: bool) -> char {
    if active { 'a' } else { 's' }
}
