use crate::findings::VerdictFile;
use crate::headings::{Heading, NO_HEADING, heading_of};
use crate::phrases::{NOTHING, Phrase, Text};
use crate::said::Said;
use std::alloc::Global;
use us_codec::{Element, MapFault, decode};
use us_slots::NoMemory;

/// The bytes of a record before its body.
const FRONT_BYTES: usize = 6;

/// What the record of a maps file is, or what stands in its place.
#[derive(Clone, Copy)]
pub(crate) struct FileRecord {
    /// Where it is.
    pub(crate) place: Phrase,
    /// The byte at which it begins, or would begin.
    pub(crate) at: u64,
    /// Whether it is there, and whole.
    pub(crate) is_whole: bool,
    /// Why it is none, if its body isn't in the grammar.
    pub(crate) fault: Option<MapFault>,
    /// What it says of itself,
    pub(crate) heading: Heading,
    /// and the element that has a minislot.
    pub(crate) element: Phrase,
}

/// How long the record is that begins these bytes, be it whole or not.
fn record_len(bytes: &[u8]) -> usize {
    match bytes {
        [_, _, _, _, high, low, ..] => FRONT_BYTES + u16::from_be_bytes([*high, *low]) as usize,
        _ => FRONT_BYTES,
    }
}

/// What stands behind so many records of a file, or behind its last whole one, and how many stand before it.
pub(crate) fn behind_records(file: &[u8], number: u64) -> (u64, &[u8]) {
    let mut rest = file;
    for before in 0..number {
        match rest.split_at_checked(record_len(rest)) {
            Some((_, behind)) => rest = behind,
            None => return (before, rest),
        }
    }
    (number, rest)
}

/// The record of this number, from 0, of which a minislot is looked at.
pub(crate) fn record_at(
    alloc: Global,
    file: &[u8],
    number: u64,
    minislot: u64,
) -> Result<FileRecord, NoMemory> {
    let (_, bytes) = behind_records(file, number);
    let at = file.len().saturating_sub(bytes.len()) as u64;
    let len = record_len(bytes);
    let body = bytes.get(FRONT_BYTES..len).unwrap_or(&[]);
    let round = match bytes {
        [a, b, c, d, ..] => u32::from_be_bytes([*a, *b, *c, *d]) as u64,
        _ => 0,
    };
    let channel = body.first().copied().unwrap_or(0) as u64;
    let is_whole = len <= bytes.len();
    let text = if is_whole {
        Text::RecordOfMap
    } else {
        Text::Record
    };
    let mut record = FileRecord {
        place: Phrase::new(text, [number, at, round, channel]),
        at,
        is_whole,
        fault: None,
        heading: NO_HEADING,
        element: NOTHING,
    };
    match decode(alloc, body) {
        Ok(map) => {
            record.heading = heading_of(round, &map);
            record.element = element_span(map.elements(), minislot);
        }
        Err(MapFault::NoMemory) => return Err(NoMemory),
        Err(fault) => record.fault = Some(fault),
    }
    Ok(record)
}

/// The element that has a minislot. It reaches to the first one that begins behind that.
fn element_span(elements: &[Element], at: u64) -> Phrase {
    let (mut begin, mut sid, mut iuc) = (0_u64, 0_u64, 0_u64);
    for element in elements {
        let start = element.offset() as u64;
        if at < start {
            return Phrase::new(
                Text::MapSpan,
                [begin, start.saturating_sub(begin), sid, iuc],
            );
        }
        begin = start;
        sid = element.sid() as u64;
        iuc = element.iuc().number() as u64;
    }
    NOTHING
}

/// Why a record is none: the file ends inside it, or its body isn't in the grammar.
pub(crate) fn record_said(alloc: Global, file: &[u8], number: u64) -> Result<Said, NoMemory> {
    let record = record_at(alloc, file, number, 0)?;
    let end = Phrase::of(Text::FileEnd, file.len() as u64);
    let (fault, more) = if record.is_whole {
        (record.fault, NOTHING)
    } else {
        (Some(MapFault::RecordCut), end)
    };
    let mut said = Said::at(VerdictFile::Maps, record.place, more);
    said.fault = fault;
    Ok(said)
}
