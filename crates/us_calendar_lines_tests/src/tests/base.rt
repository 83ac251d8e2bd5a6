use std::alloc::{AllocError, Global};
use std::process::Abort;
use us_flows::Config;
use us_map_rules::CalendarLines;
use us_reports::{Place, report_rows};
use us_requests::Trace;
use us_round::Row;
use us_samples::put_channel;
use us_slots::{FromRead, NoMemory};

/// What a run of 3 rounds has beside two channels: on channel 1 a flow of two unsolicited grants an interval, which may
/// start from minislot 152 of round 0 on up to minislot 56 of round 1, and then from round 2 on to past the end; on
/// channel 2 a poll that closes in rounds 0 and 2; and on channel 1 a station, whose maintenance closes in round 0.
const TABLES: &str = "
[[flow]]
id = 1
type = 6
channels = [1]
clusters = [[513]]
start_us = 1900
interval_us = 4000
jitter_us = 800
grant_bytes = 16
grants_per_interval = 2

[[flow]]
id = 2
type = 4
channels = [2]
clusters = [[514]]
priority = 0
rate = 0
burst = 3044
unit = 4
headers = true
start_us = 0
interval_us = 4000
jitter_us = 1000

[[station]]
id = 1
channel = 1
sid = 5
start_us = 0
interval_us = 100000
jitter_us = 1000
";

/// A trace of no request.
const NO_ROWS: &str = "tick,channel,sid,units\n";

/// The lines of the poll and of the station.
pub(super) const OTHERS: &str = "\
G,0,1,station,1,0,0,5,4,0,4,0
G,0,2,rtp,2,0,0,514,1,0,2,0
G,2,2,rtp,2,1,0,514,1,0,2,0";

/// Those of the grants of the first interval, at the first minislot of their round and at the last one of their window,
/// and that of one of the second interval, which is open to the end.
pub(super) const FIRST: &str = "G,1,1,ugs,1,0,0,513,11,0,1,0";

pub(super) const SECOND: &str = "G,1,1,ugs,1,0,1,513,11,56,1,0";

pub(super) const OPEN: &str = "G,2,1,ugs,1,1,0,513,11,152,1,0";

/// Lines, and where they break the rule.
#[derive(Drop)]
pub(super) struct Case<'a> {
    pub(super) name: &'a str,
    pub(super) lines: &'a [&'a str],
    /// Round, channel and id.
    pub(super) answer: Option<(u64, u64, u64)>,
}

/// Judges the lines of each case.
pub(super) fn compare(rt: &impl Abort, alloc: Global, cases: &[Case<'_>]) {
    compare_by(rt, alloc, TABLES, cases);
}

/// The same with other tables beside the channels.
pub(super) fn compare_by(rt: &impl Abort, alloc: Global, tables: &str, cases: &[Case<'_>]) {
    compare_run(rt, alloc, tables, NO_ROWS, cases);
}

/// And with a trace.
pub(super) fn compare_run(
    rt: &impl Abort,
    alloc: Global,
    tables: &str,
    rows: &str,
    cases: &[Case<'_>],
) {
    for case in cases {
        let answer = judge_run(alloc, tables, rows, case.lines);
        assert_eq!(rt; answer, Some(case.answer.map(at)), "{}", case.name);
    }
}

/// The place of a round, a channel and an id.
fn at((round, channel, third): (u64, u64, u64)) -> Place {
    Place {
        round,
        channel,
        third,
    }
}

/// Where these lines break the rule; nothing where they can't be judged, as where memory is refused.
pub(super) fn judge(alloc: Global, lines: &[&str]) -> Option<Option<Place>> {
    judge_run(alloc, TABLES, NO_ROWS, lines)
}

/// The same with other tables beside the channels, and a trace.
fn judge_run(alloc: Global, tables: &str, rows: &str, lines: &[&str]) -> Option<Option<Place>> {
    let config = config_of(alloc, tables)?;
    let trace = trace_of(alloc, &config, rows)?;
    let rows = rows_of(alloc, lines)?;
    first_breach(alloc, &config, &trace, &rows).ok()
}

/// Where these rows break the rule, told one after another.
fn first_breach(
    alloc: Global,
    config: &Config,
    trace: &Trace,
    rows: &[Row],
) -> Result<Option<Place>, NoMemory> {
    let mut lines = CalendarLines::new(alloc, config, trace)?;
    for row in rows {
        lines.take(row)?;
    }
    Ok(lines.breach())
}

/// The configuration of the run.
fn config_of(alloc: Global, tables: &str) -> Option<Config> {
    let text = text_of(alloc, tables).ok()?;
    Config::read(alloc, text.as_bytes()).ok()
}

/// Its text: two channels, and these tables.
fn text_of(alloc: Global, tables: &str) -> Result<String, AllocError> {
    let mut text = String::new(alloc);
    for id in [1, 2] {
        put_channel(&mut text, id)?;
    }
    text.push_str(tables)?;
    Ok(text)
}

/// The trace of a text, for its 3 rounds.
fn trace_of(alloc: Global, config: &Config, rows: &str) -> Option<Trace> {
    let mut source = FromRead::new(rows.as_bytes());
    if config.rounds_fit(3) {
        Trace::read(alloc, &mut source, config, 3).ok()
    } else {
        None
    }
}

/// The rows of these lines.
fn rows_of(alloc: Global, lines: &[&str]) -> Option<Vec<Row>> {
    let mut report = String::new(alloc);
    for line in lines {
        writeln!(report, "{line}").ok()?;
    }
    report_rows(alloc, report.as_bytes()).ok()
}
