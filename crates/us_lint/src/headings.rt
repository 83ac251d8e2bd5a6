ghost use Rattle.std.specs.Prelude.{◌≤◌};

use crate::findings::VerdictFile;
use crate::lengths::Lengths;
use crate::phrases::{NOTHING, Name, Phrase, Text};
use crate::records::{behind_records, record_at};
use crate::said::{Said, first_other};
use std::alloc::Global;
use us_codec::{Element, Map};
use us_flows::Channel;
use us_slots::{Iuc, NoMemory};

/// That a record doesn't say of itself what it must, is missing, or is one too many.
pub(crate) fn heading_said(
    alloc: Global,
    channels: &[Channel],
    lengths: Lengths,
    maps: &[u8],
    number: u64,
) -> Result<Said, NoMemory> {
    let record = record_at(alloc, maps, number, 0)?;
    let width = (channels.len() as u64).max(1);
    let round = number / width;
    match channels.get((number % width) as usize) {
        Some(channel) if record.is_whole & (round < lengths.rounds) => {
            let wanted = wanted_of(channel, lengths, round);
            let wrong = first_other(&NAMES, &wanted, &wanted, &record.heading);
            Ok(Said::at(VerdictFile::Maps, record.place, wrong.unwrap_or(NOTHING)))
        }
        _ => {
            let place = Phrase::new(Text::Record, [number, record.at, 0, 0]);
            let wrong = count_wrong(maps, lengths.rounds, width);
            Ok(Said::at(VerdictFile::Maps, place, wrong))
        }
    }
}

/// How many records there are, and how many there must be.
fn count_wrong(maps: &[u8], rounds: u64, width: u64) -> Phrase
    requires { 1 ≤ width }
{
    let (count, _) = behind_records(maps, u64::MAX);
    if count.is_multiple_of(width) {
        Phrase::new(Text::Rounds, [count / width, rounds, 0, 0])
    } else {
        Phrase::wanted(Name::Records, rounds.saturating_mul(width), count)
    }
}

/// What a MAP says of itself: its numbers, as these words tell them.
pub(crate) type Heading = [u64; 10];

/// That of no MAP.
pub(crate) const NO_HEADING: Heading = [0; 10];

static NAMES: [Name; 10] = [
    Name::Round,
    Name::Channel,
    Name::UcdCount,
    Name::AllocStart,
    Name::AckTime,
    Name::RangingStart,
    Name::RangingEnd,
    Name::DataStart,
    Name::DataEnd,
    Name::Length,
];

/// What a MAP of this round says of itself.
pub(crate) fn heading_of(round: u64, map: &Map) -> Heading {
    let head = map.head();
    let [a, b, c, d] = head.backoffs;
    [
        round,
        head.channel as u64,
        head.ucd_count as u64,
        head.alloc_start as u64,
        head.ack as u64,
        a as u64,
        b as u64,
        c as u64,
        d as u64,
        null_offset(map.elements()),
    ]
}

/// Where the Null stands.
fn null_offset(elements: &[Element]) -> u64 {
    for element in elements {
        if element.iuc() == Iuc::null() {
            return element.offset() as u64;
        }
    }
    0
}

/// What the MAP of a round and a channel must say of itself.
fn wanted_of(channel: &Channel, lengths: Lengths, round: u64) -> Heading {
    let ticks = round.saturating_mul(lengths.round_ticks);
    let served = ticks.saturating_sub(lengths.lead_ticks);
    let len = lengths.map_len(channel);
    let [a, b] = channel.ranging_backoff;
    let [c, d] = channel.data_backoff;
    [
        round,
        channel.id as u64,
        channel.ucd_count as u64,
        round.saturating_mul(len),
        served / channel.bursts.time().minislot_ticks() as u64,
        a as u64,
        b as u64,
        c as u64,
        d as u64,
        len,
    ]
}
