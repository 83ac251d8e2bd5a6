use super::base::same;
use super::devices::{reader, writer};
use super::replays::{Outcome, outcome};
use std::alloc::Global;
use us_crew::OpenGate;
use us_flows::Config;
use us_replay::Summary;
use us_samples::put_channel;

/// A call alone: two grants of a minislot in each round, or a poll of two while it is silent.
const CALL: &str = "[[flow]]
id = 1
type = 5
channels = [1]
clusters = [[513]]
start_us = 0
interval_us = 2000
jitter_us = 1000
grant_bytes = 16
grants_per_interval = 2
";

/// It falls silent in round 1, and is active again in round 2. The run has 3 rounds.
const TRACE: &[u8] = b"tick,channel,sid,units,kind\n0,1,513,0,1\n400,1,513,0,2\n";

/// Its maps file: records of 42, 38 and 42 bytes.
const MAPS: &[u8] =
    b"\x00\x00\x00\x00\x00\x24\x01\x00\x05\x00\x00\x00\x00\x00\x00\x00\x00\x00\x02\x06\x03\x08\
\x08\x06\xc0\x00\x08\x06\xc0\x01\xff\xfc\x40\x02\xff\xfc\x40\x96\x00\x01\xc0\xa0\
\x00\x00\x00\x01\x00\x20\x01\x00\x04\x00\x00\x00\x00\xa0\x00\x00\x00\x50\x02\x06\x03\x08\
\x08\x04\x40\x00\xff\xfc\x40\x02\xff\xfc\x40\x96\x00\x01\xc0\xa0\
\x00\x00\x00\x02\x00\x24\x01\x00\x05\x00\x00\x00\x01\x40\x00\x00\x00\xf0\x02\x06\x03\x08\
\x08\x06\xc0\x00\x08\x06\xc0\x01\xff\xfc\x40\x02\xff\xfc\x40\x96\x00\x01\xc0\xa0";

/// Its report: the grants of rounds 0 and 2, the poll of round 1, and that the call is active at the end.
const REPORT: &[u8] = b"G,0,1,ad,1,0,0,513,11,0,1,0
G,0,1,ad,1,0,1,513,11,1,1,0
G,1,1,ad,1,1,0,513,1,0,2,0
G,2,1,ad,1,2,0,513,11,0,1,0
G,2,1,ad,1,2,1,513,11,1,1,0
A,1,1
U,0,0,0
";

const OUTCOME: Outcome = (
    Ok(Summary {
        rounds: 3,
        granted: 5,
        missed: 0,
        unknown: 0,
        not_requestable: 0,
        late: 0,
    }),
    (false, 1),
    (false, 122, true, 0, 1),
    (false, 153, true, 0, 1),
);

fn call(alloc: Global) -> Option<Config> {
    let mut text = String::new(alloc);
    put_channel(&mut text, 1).ok()?;
    text.push_str(CALL).ok()?;
    Config::read(alloc, text.as_bytes()).ok()
}

/// The configuration has no cluster, and two words.
#[test]
fn a_call_falls_silent(rt: HostRuntime) {
    for workers in [1, 2, 16] {
        let trace = reader(TRACE, false);
        let (maps, report) = (writer(MAPS, 100), writer(REPORT, 100));
        let found = match call(rt.alloc()) {
            Some(config) => Some(outcome(
                &rt,
                rt.alloc(),
                &config,
                3,
                workers,
                &OpenGate,
                trace,
                maps,
                report,
            )),
            None => None,
        };
        same(&rt, &found, &Some(OUTCOME), "a call");
    }
}
