ghost use Rattle.std.specs.Prelude.{◌≡◌, true};
ghost use Rattle.us_flows.specs.Tables.{rounds_fit};

use std::alloc::Global;
use std::process::Abort;
use us_credit_rules::{
    CreditLines, activities_breach, counts_breach, credits_breach, finals_breach, rates_breach,
};
use us_flows::Config;
use us_reports::{Place, report_rows};
use us_requests::Trace;
use us_round::Row;
use us_samples::{base, put_channel};
use us_slots::{FromRead, NoMemory};

/// The rounds of the run.
const ROUNDS: u32 = 3;

/// Behind the base configuration and a channel 2: flows that tell their activity, among which there is one that has 500
/// bytes at most, and 100 bytes more in each round. Its clusters are the second and the third, and have the words 5 and 6.
const FLOWS: &str = "
[[flow]]
id = 5
type = 5
channels = [1]
clusters = [[513]]
start_us = 0
interval_us = 20000
jitter_us = 500
grant_bytes = 16
grants_per_interval = 1

[[flow]]
id = 9
type = 5
channels = [2]
clusters = [[514]]
start_us = 0
interval_us = 20000
jitter_us = 500
grant_bytes = 16
grants_per_interval = 1

[[flow]]
id = 7
type = 2
channels = [2, 1]
clusters = [[300, 301], [302, 303]]
priority = 0
rate = 400000
burst = 500
unit = 1
headers = true

[[flow]]
id = 6
type = 5
channels = [1]
clusters = [[515]]
start_us = 0
interval_us = 20000
jitter_us = 500
grant_bytes = 16
grants_per_interval = 1

[[flow]]
id = 8
type = 5
channels = [1]
clusters = [[516]]
start_us = 0
interval_us = 20000
jitter_us = 500
grant_bytes = 16
grants_per_interval = 1
";

/// In round 1 flow 1 asks for 1,000 bytes, and the clusters of flow 7 for 600 and 50; the first of them for 40 more in
/// round 2. Then a request of an unknown SID, and one that is late.
///
/// Flow 5 is silent in round 1, and active in round 2. Flow 9 is active in round 1, and silent in round 2. Flow 6 tells both
/// in round 2, silent last, and flow 8 nothing.
const RECORDS: &str = "tick,channel,sid,units,kind
0,1,291,250,0
0,2,300,600,0
0,1,303,50,0
0,1,513,0,1
0,2,514,0,2
200,1,301,40,0
200,1,999,1,0
900,1,291,1,0
200,1,513,0,2
200,1,515,0,2
200,1,515,0,1
200,2,514,0,1
";

/// The rules that are answered here.
#[derive(Clone, Copy)]
pub enum Rule {
    Rates,
    Credits,
    Finals,
    Activities,
    Counts,
}

/// A report, and round, channel and third number of the place where it fails first.
pub type Case = (&'static str, Option<(u64, u64, u64)>);

/// Judges each report by a rule.
pub fn compare(rt: &impl Abort, alloc: Global, rule: Rule, cases: &[Case]) {
    for (report, wanted) in cases {
        let wanted = wanted.map(|(round, channel, third)| Place {
            round,
            channel,
            third,
        });
        assert_eq!(rt; judge(alloc, rule, report), Some(wanted), "{report}");
    }
}

/// Where a report fails first; nothing where it can't be judged: a line isn't due, or memory is refused.
pub fn judge(alloc: Global, rule: Rule, report: &str) -> Option<Option<Place>> {
    let config = config_of(alloc)?;
    let trace = trace_of(alloc, &config)?;
    let lines = report_rows(alloc, report.as_bytes()).ok()?;
    if !config.rounds_fit(trace.rounds()) {
        return None;
    }
    let kept = kept_of(alloc, &config, &trace, &lines)?;
    answer(alloc, rule, &config, &trace, &kept).ok()
}

fn config_of(alloc: Global) -> Option<Config> {
    let mut text = String::new(alloc);
    text.push_str(base()).ok()?;
    put_channel(&mut text, 2).ok()?;
    text.push_str(FLOWS).ok()?;
    Config::read(alloc, text.as_bytes()).ok()
}

fn trace_of(alloc: Global, config: &Config) -> Option<Trace> {
    if !config.rounds_fit(ROUNDS) {
        return None;
    }
    let mut source = FromRead::new(RECORDS.as_bytes());
    Trace::read(alloc, &mut source, config, ROUNDS).ok()
}

/// What is kept of lines; nothing where one isn't due, or memory is refused.
fn kept_of<'a>(
    alloc: Global,
    config: &'a Config,
    trace: &Trace,
    lines: &[Row],
) -> Option<CreditLines<'a>>
    requires { rounds_fit config.now trace.now.rounds ≡ true }
{
    let mut kept = CreditLines::new(alloc, config, trace).ok()?;
    for line in lines {
        if !kept.is_due(line) {
            return None;
        }
        kept.take(config, trace, line);
    }
    Some(kept)
}

fn answer(
    alloc: Global,
    rule: Rule,
    config: &Config,
    trace: &Trace,
    kept: &CreditLines,
) -> Result<Option<Place>, NoMemory>
    requires { rounds_fit config.now trace.now.rounds ≡ true }
{
    match rule {
        Rule::Rates => Ok(rates_breach(config, kept)),
        Rule::Credits => Ok(credits_breach(config, kept)),
        Rule::Finals => finals_breach(alloc, config, trace, kept),
        Rule::Activities => activities_breach(alloc, config, trace, kept),
        Rule::Counts => Ok(counts_breach(trace, kept)),
    }
}
