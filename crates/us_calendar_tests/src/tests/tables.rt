use super::plain::Plain;
use std::alloc::{AllocError, Global};
use us_calendar::Kind;
use us_flows::{Config, ConfigFault};
use us_samples::put_channel;

/// How the table of an entry begins, up to its id.
fn head_of(kind: Kind) -> &'static str {
    match kind {
        Kind::Unsolicited => "\n[[flow]]\ntype = 6\nid = ",
        Kind::Activity => "\n[[flow]]\ntype = 5\nid = ",
        Kind::RealTimePoll => "\n[[flow]]\ntype = 4\nid = ",
        Kind::NonRealTimePoll => "\n[[flow]]\ntype = 3\nid = ",
        Kind::Station => "\n[[station]]\nid = ",
    }
}

/// What stands there before its SID.
fn owner_of(kind: Kind) -> &'static str {
    match kind {
        Kind::Station => "\nchannel = 1\nsid = ",
        Kind::Unsolicited | Kind::Activity => "\nchannels = [1]\nclusters = [[",
        _ => {
            "\nchannels = [1]\npriority = 0\nrate = 0\nburst = 3044\nunit = 4\nheaders = true\nclusters = [["
        }
    }
}

/// Puts numbers, each behind its words.
fn put_all(text: &mut String, parts: &[(&str, u64)]) -> Result<(), AllocError> {
    for (words, number) in parts {
        write!(text, "{words}{number}")?;
    }
    Ok(())
}

/// Puts the table of an entry. Its SID is its id and 100. A minislot has 32 bytes, and each grant gives up 16.
fn put_table(text: &mut String, entry: &Plain) -> Result<(), AllocError> {
    let id = u64::from(entry.id);
    let parts = [
        (head_of(entry.kind), id),
        ("\nstart_us = ", entry.start),
        ("\ninterval_us = ", entry.interval),
        ("\njitter_us = ", entry.jitter),
        (owner_of(entry.kind), id + 100),
    ];
    put_all(text, &parts)?;
    put_end(text, entry)
}

/// Puts the end of the table.
fn put_end(text: &mut String, entry: &Plain) -> Result<(), AllocError> {
    let bytes = entry.slots.saturating_mul(32).saturating_sub(16);
    match entry.kind {
        Kind::Station => Ok(()),
        Kind::Unsolicited | Kind::Activity => put_all(
            text,
            &[
                ("]]\ngrant_bytes = ", bytes),
                ("\ngrants_per_interval = ", entry.grants),
            ],
        ),
        _ => text.push_str("]]"),
    }
}

fn text_of(alloc: Global, entries: &[Plain]) -> Result<String, AllocError> {
    let mut text = String::new(alloc);
    put_channel(&mut text, 1)?;
    for entry in entries {
        put_table(&mut text, entry)?;
    }
    Ok(text)
}

/// The configuration of channel 1 with these entries: rounds of 2,000 microseconds, and MAPs of 160 minislots of 12.5
/// microseconds.
pub(super) fn config_of(alloc: Global, entries: &[Plain]) -> Result<Config, ConfigFault> {
    let text = text_of(alloc, entries)?;
    Config::read(alloc, text.as_bytes())
}
