use super::activity::TELLING;
use super::base::{Asked, changed, check, same, tell};
use std::alloc::Global;
use std::test::Fail;
use us_flows::MAX_CONFIG_BYTES;
use us_samples::base;

/// Writes a configuration of so many channels, flows and stations, each with ids from 1 on, and else as in this one. The
/// flows are on channel 1, with their ids as SIDs.
fn write_sized(
    text: &mut String,
    base: &str,
    channels: u32,
    flows: u32,
    stations: u32,
) -> Result<(), Fail> {
    let (top, rest) = base.split_once("[[channel]]\nid = 1").ok_or("no channel")?;
    let (channel, flow) = rest.split_once("[[flow]]\nid = 1").ok_or("no flow")?;
    let (front, end) = flow.split_once("291").ok_or("no SID")?;
    text.push_str(top)?;
    for id in 1..=channels {
        write!(text, "[[channel]]\nid = {id}{channel}")?;
    }
    for id in 1..=flows {
        write!(text, "[[flow]]\nid = {id}{front}{id}{end}")?;
    }
    for id in 1..=stations {
        write!(
            text,
            "[[station]]\nid = {id}\nchannel = 1\nsid = 1\nstart_us = 0\n"
        )?;
        write!(text, "interval_us = 100\njitter_us = 0\n")?;
    }
    Ok(())
}

/// Looks at changes of a configuration of so many channels, flows and stations.
fn check_sized(
    alloc: Global,
    channels: u32,
    flows: u32,
    stations: u32,
    lines: &str,
) -> Result<(), Fail> {
    let mut text = String::new(alloc);
    write_sized(&mut text, base(), channels, flows, stations)?;
    check(alloc, Asked::Fault, text.as_str(), "", lines)
}

/// Of 16 channels, 1 flow and 256 stations.
const MOST_CHANNELS: &str = "\
ok | id = 1~ -> id = 1~
C3 top 0 | [[channel]] -> [[channel]]~[[channel]]
C3 top 0 | [[station]] -> [[station]]~[[station]]
C5 channel 15 | id = 16~ -> id = 15~
C5 station 255 | id = 256~channel -> id = 1~channel
ok | channels = [1]~clusters = [[1]] -> channels = [16, 15, 8, 1, 3, 5, 9, 2]~clusters = [[1, 1, 1, 1, 1, 1, 1, 1]]
C3 flow 0 | channels = [1] -> channels = [16, 15, 8, 1, 3, 5, 9, 2, 4]";

/// Of 1,024 flows.
const MOST_FLOWS: &str = "\
ok | id = 1~ -> id = 1~
C3 top 0 | [[flow]] -> [[flow]]~[[flow]]
C6 flow 1023 | clusters = [[1024]] -> clusters = [[1023]]";

#[test]
fn most_tables(rt: HostRuntime) -> Result<(), Fail> {
    check_sized(rt.alloc(), 16, 1, 256, MOST_CHANNELS)?;
    check_sized(rt.alloc(), 1, 1_024, 0, MOST_FLOWS)
}

/// Of 1,024 flows that tell their activity: as many words as there may be, and with a flow more too many.
const MOST_WORDS: &str = "\
2048 words | id = 1~ -> id = 1~
C3 top 0 | [[flow]] -> [[flow]]~[[flow]]";

#[test]
fn most_words(rt: HostRuntime) -> Result<(), Fail> {
    let telling = changed(rt.alloc(), base(), TELLING)?;
    let mut text = String::new(rt.alloc());
    write_sized(&mut text, telling.as_str(), 1, 1_024, 0)?;
    check(rt.alloc(), Asked::Words, text.as_str(), "", MOST_WORDS)
}

/// A text of as many bytes as there may be, and one more.
#[test]
fn longest_text(rt: HostRuntime) -> Result<(), Fail> {
    let mut answers = String::new(rt.alloc());
    tell_longest(&mut answers, rt.alloc())?;
    same(answers.as_str(), "ok, C1")
}

/// Writes what they are answered with.
fn tell_longest(answers: &mut String, alloc: Global) -> Result<(), Fail> {
    let mut text = Vec::new(alloc);
    text.extend_from_slice(base().as_bytes())?;
    text.push(b'#')?;
    text.resize(MAX_CONFIG_BYTES, b'-')?;
    tell(answers, alloc, Asked::Fault, &text)?;
    answers.push_str(", ")?;
    text.push(b'-')?;
    tell(answers, alloc, Asked::Fault, &text)
}
