use super::{activity, lookups, min_rates, turns};
use std::alloc::Global;
use std::test::Fail;
use us_flows::{Config, ConfigFault};

/// A configuration of two channels, a flow of each of types 2, 3, 4 and 6, and two stations. No line but a header is there
/// twice, so that a change names its place by the line. The MAPs of the channels have 320 and 160 minislots.
const BIG: &str = r#"round_ticks = 640
lead_ticks = 300

[[channel]]
id = 10
minislot_log2 = 1
rate_log2 = 5
ucd_count = 7
ranging_backoff = [2, 6]
data_backoff = [3, 8]
request_minislots = 2
contention_minislots = 10
maintenance_minislots = 20
maintenance_every = 4
station_minislots = 5
long = { bits = 4, preamble = 24, guard = 8, fec_t = 0, fec_k = 200, shortened = false }
short = { bits = 4, preamble = 24, guard = 9, fec_t = 8, fec_k = 201, shortened = true, max_minislots = 11 }
unsolicited = { bits = 4, preamble = 24, guard = 10, fec_t = 0, fec_k = 202, shortened = true }

[[channel]]
id = 20
minislot_log2 = 2
rate_log2 = 4
ucd_count = 8
ranging_backoff = [1, 7]
data_backoff = [4, 9]
request_minislots = 3
contention_minislots = 30
maintenance_minislots = 40
maintenance_every = 6
station_minislots = 7
long = { bits = 6, preamble = 32, guard = 11, fec_t = 5, fec_k = 203, shortened = true }
short = { bits = 2, preamble = 16, guard = 12, fec_t = 3, fec_k = 64, shortened = false, max_minislots = 13 }
unsolicited = { bits = 3, preamble = 20, guard = 13, fec_t = 2, fec_k = 80, shortened = false }

[[flow]]
id = 101
type = 2
channels = [10, 20]
clusters = [[257, 258], [273, 274]]
priority = 1
rate = 1000000
burst = 3044
unit = 1
headers = true

[[flow]]
id = 104
type = 6
channels = [20] # the only one
clusters = [[1025]]
start_us = 300
interval_us = 10000
jitter_us = 800
grant_bytes = 232
grants_per_interval = 2

[[flow]]
id = 103
type = 3
channels = [20]
clusters = [[513]]
priority = 6
rate = 2000000
burst = 4000
unit = 2
headers = false
start_us = 100
interval_us = 20000
jitter_us = 500

[[flow]]
id = 102
type = 4
channels = [10]
clusters = [[769], [785]]
priority = 6 # again
rate = 0
burst = 5000
unit = 8
headers = true # of one channel
start_us = 200
interval_us = 30000
jitter_us = 600

[[station]]
id = 201
channel = 10
sid = 257
start_us = 400
interval_us = 40000
jitter_us = 900

[[station]]
id = 202
channel = 20
sid = 900
start_us = 500
interval_us = 50000
jitter_us = 1000
"#;

/// The larger configuration. It is held here alone, since a long text is dear to prove with wherever it stands.
pub fn big() -> &'static str {
    BIG
}

/// What makes a configuration without flows of the base configuration.
pub const NO_FLOWS: &str =
    "[[flow]]~id = 1~type = 2~channels = [1]~clusters = [[291]]~priority = 0~rate = 0~\
burst = 3044~unit = 4~headers = true~ -> ";

/// What a table of vectors asks of each of its configurations.
#[derive(Clone, Copy)]
pub enum Asked {
    /// `ok`, or its fault: `C1`, or `C8 channel 0` where that names a table.
    Fault,
    /// How many words it has, and all that SIDs ask for on some channels.
    Sids,
    /// The turns of a round.
    Turns,
    /// The minimum rate of each flow.
    MinRates,
    /// How many words it has.
    Words,
}

/// Looks at changes of a configuration, each a line `ANSWER | OLD -> NEW`, and fails with those that are answered
/// otherwise, each with its own answer behind it. `~` is a line feed, and several changes of one line are made in turn,
/// with ` ; ` between them. The shared changes are made first. A line that begins with `#` is a comment.
pub fn check(
    alloc: Global,
    asked: Asked,
    base: &str,
    shared: &str,
    lines: &str,
) -> Result<(), Fail> {
    let base = changed(alloc, base, shared)?;
    let others = others(alloc, asked, base.as_str(), lines)?;
    same(others.as_str(), "")
}

/// Fails with what was found, where it isn't what is expected.
pub fn same(found: &str, expected: &str) -> Result<(), Fail> {
    if found == expected {
        Ok(())
    } else {
        Err(Fail::new(found))
    }
}

/// The lines that are answered otherwise.
fn others(alloc: Global, asked: Asked, base: &str, lines: &str) -> Result<String, Fail> {
    let mut others = String::new(alloc);
    for line in lines.lines() {
        if !line.starts_with('#') {
            judge(&mut others, alloc, asked, base, line)?;
        }
    }
    Ok(others)
}

/// Adds a line to the others, if it is answered otherwise.
fn judge(
    others: &mut String,
    alloc: Global,
    asked: Asked,
    base: &str,
    line: &str,
) -> Result<(), Fail> {
    let (expected, changes) = line.split_once(" | ").ok_or("a line without its answer")?;
    let answer = answer_of(alloc, asked, base, changes)?;
    if answer.as_str() != expected {
        writeln!(others, "{line}: {answer}")?;
    }
    Ok(())
}

/// What a changed configuration is answered with.
fn answer_of(alloc: Global, asked: Asked, base: &str, changes: &str) -> Result<String, Fail> {
    let text = changed(alloc, base, changes)?;
    let mut answer = String::new(alloc);
    tell(&mut answer, alloc, asked, text.as_bytes())?;
    Ok(answer)
}

/// A configuration with these changes, each at the first place that reads so; there has to be one.
pub fn changed(alloc: Global, base: &str, changes: &str) -> Result<String, Fail> {
    let changes = changes.replace(alloc, "~", "\n")?;
    let mut text = String::from_str(alloc, base)?;
    for change in changes.split(" ; ").filter(|change| !change.is_empty()) {
        text = with_change(alloc, text.as_str(), change)?;
    }
    Ok(text)
}

/// A text with one change.
fn with_change(alloc: Global, text: &str, change: &str) -> Result<String, Fail> {
    let (old, new) = change
        .split_once(" -> ")
        .ok_or("a change without an arrow")?;
    let (before, after) = text.split_once(old).ok_or("a place that isn't there")?;
    Ok(format!(in alloc; "{before}{new}{after}")?)
}

/// Writes what is asked of the configuration of a text.
pub fn tell(answer: &mut String, alloc: Global, asked: Asked, text: &[u8]) -> Result<(), Fail> {
    match Config::read(alloc, text) {
        Ok(config) => tell_asked(answer, asked, &config),
        Err(fault) => tell_fault(answer, alloc, fault),
    }
}

/// Writes what is asked of a configuration.
fn tell_asked(answer: &mut String, asked: Asked, config: &Config) -> Result<(), Fail> {
    match asked {
        Asked::Fault => answer.push_str("ok")?,
        Asked::Sids => lookups::tell_sids(answer, config)?,
        Asked::Turns => turns::tell_turns(answer, config)?,
        Asked::MinRates => min_rates::tell_min_rates(answer, config)?,
        Asked::Words => activity::tell_words(answer, config)?,
    }
    Ok(())
}

/// Writes the number of a fault, and the table that it names.
fn tell_fault(answer: &mut String, alloc: Global, fault: ConfigFault) -> Result<(), Fail> {
    let printed = fault.to_string(alloc)?;
    let (code, words) = printed
        .as_str()
        .split_once(": ")
        .ok_or("a fault without a code")?;
    answer.push_str(code)?;
    if fault != ConfigFault::Text && fault != ConfigFault::NoMemory {
        let (table, index) = last_words(words).ok_or("a fault without a table")?;
        write!(answer, " {table} {index}")?;
    }
    Ok(())
}

/// The last two words of a sentence.
fn last_words(sentence: &str) -> Option<(&str, &str)> {
    let (before, last) = sentence.rsplit_once(' ')?;
    let (_, last_but_one) = before.rsplit_once(' ')?;
    Some((last_but_one, last))
}
