use super::base::{Asked, same, tell};
use std::alloc::{AllocError, Global};
use std::test::Fail;
use us_flows::{ConfigFault, Place, TableName};
use us_samples::base;

/// Texts that no change makes: with other ends of lines, without a byte, and with bytes that are no text.
#[test]
fn other_bytes(rt: HostRuntime) -> Result<(), Fail> {
    let mut answers = String::new(rt.alloc());
    tell_bytes(&mut answers, rt.alloc())?;
    same(answers.as_str(), "ok, C2 top 0, C1")
}

/// Writes what they are answered with.
fn tell_bytes(answers: &mut String, alloc: Global) -> Result<(), Fail> {
    let ended_otherwise = base().replace(alloc, "\n", "\r\n")?;
    tell(answers, alloc, Asked::Fault, ended_otherwise.as_bytes())?;
    answers.push_str(", ")?;
    tell(answers, alloc, Asked::Fault, b"")?;
    answers.push_str(", ")?;
    tell(answers, alloc, Asked::Fault, b"lead_ticks = 160 # \xff")
}

const TOP: Place = Place {
    table: TableName::Top,
    index: 0,
};

const CHANNEL: Place = Place {
    table: TableName::Channel,
    index: 0,
};

const FLOW: Place = Place {
    table: TableName::Flow,
    index: 0,
};

const LAST: Place = Place {
    table: TableName::Station,
    index: 255,
};

static FAULTS: [ConfigFault; 14] = [
    ConfigFault::Text,
    ConfigFault::Missing(TOP),
    ConfigFault::Range(CHANNEL),
    ConfigFault::UnknownChannel(FLOW),
    ConfigFault::DuplicateId(LAST),
    ConfigFault::DuplicateSid(FLOW),
    ConfigFault::ClusterLength(FLOW),
    ConfigFault::RoundNotMultiple(CHANNEL),
    ConfigFault::ReservesTooLong(CHANNEL),
    ConfigFault::Jitter(LAST),
    ConfigFault::GrantLongerThanMap(LAST),
    ConfigFault::Headers(FLOW),
    ConfigFault::MinRate(FLOW),
    ConfigFault::NoMemory,
];

/// Writes each fault in a line.
fn write_faults(lines: &mut String) -> Result<(), AllocError> {
    for fault in &FAULTS {
        writeln!(lines, "{fault}")?;
    }
    Ok(())
}

#[test]
fn faults_are_one_line(rt: HostRuntime) -> Result<(), Fail> {
    let mut lines = String::new(rt.alloc());
    write_faults(&mut lines)?;
    same(
        lines.as_str(),
        "\
C1: not a TOML document of at most 4,194,304 bytes
C2: a key is missing in top 0
C3: a value is out of its range, or a key is unknown, in channel 0
C4: an id in channels or channel that no channel has, in flow 0
C5: a duplicate id, or a duplicate in channels, in station 255
C6: a SID in clusters is another cluster's on the same channel in flow 0
C7: a list in clusters doesn't have one SID for each of channels in flow 0
C8: round_ticks isn't a multiple of the minislot, minislot_log2, of channel 0
C9: contention_minislots and maintenance_minislots don't fit in the MAPs of channel 0
C10: jitter_us is not below interval_us in station 255
C11: grant_bytes, a poll or station_minislots is longer than the MAP in station 255
C12: headers is false with several channels in flow 0
C14: min_rate is above rate in flow 0
C13: out of memory
",
    )
}
