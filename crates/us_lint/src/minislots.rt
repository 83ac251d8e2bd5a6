use crate::calendars::REQUEST;
use crate::findings::VerdictFile;
use crate::lengths::Lengths;
use crate::lines::{Lines, Which, lines_of};
use crate::phrases::{NOTHING, Name, Phrase, Text};
use crate::records::record_at;
use crate::said::Said;
use crate::told::{Told, told_by};
use std::alloc::Global;
use us_flows::Channel;
use us_output::Row;
use us_reports::Place;
use us_slots::NoMemory;

/// The SID that addresses all modems (the standard's).
const BROADCAST: u64 = 0x3fff;

/// The IUC of Initial Maintenance (the standard's).
const INITIAL_MAINTENANCE: u64 = 3;

/// What a channel says of a MAP.
#[derive(Clone, Copy)]
struct PlacedMap {
    /// The number of its record.
    record: u64,
    /// Its minislots.
    len: u64,
    /// Behind which minislot the reserve at its start ends, and at which the one at its end begins.
    first: u64,
    last: u64,
    /// The minislots of a request.
    request: u64,
}

/// That a minislot isn't what it must be, or that the run lacks the round or channel of a line.
pub(crate) fn minislot_said(
    alloc: Global,
    channels: &[Channel],
    lengths: Lengths,
    maps: &[u8],
    rows: &[Row],
    at: Place,
) -> Result<Said, NoMemory> {
    let lacked = match placed(channels, lengths, at) {
        Some(map) if at.round < lengths.rounds => {
            return minislot_of(alloc, maps, rows, at, map);
        }
        Some(_) => {
            let last = lengths.rounds.saturating_sub(1);
            Phrase::between(Name::RoundOfRun, 0, last, at.round)
        }
        None => Phrase::wanted(Name::Channels, 1, 0),
    };
    let lines = lines_of(rows, Which::Map(at.round, at.channel));
    Ok(Said::at(lines.file(), map_of(at), lacked))
}

/// The MAP of a verdict, if there is its channel.
fn placed(channels: &[Channel], lengths: Lengths, at: Place) -> Option<PlacedMap> {
    let before = at.round.saturating_mul(channels.len() as u64);
    for (place, channel) in channels.iter().enumerate() {
        if channel.id as u64 == at.channel {
            let len = lengths.map_len(channel);
            let has_first = at.round.is_multiple_of(channel.maintenance_every as u64);
            let first = if has_first {
                channel.maintenance_minislots
            } else {
                0
            };
            return Some(PlacedMap {
                record: before.saturating_add(place as u64),
                len,
                first: first as u64,
                last: len.saturating_sub(channel.contention_minislots as u64),
                request: channel.request_minislots as u64,
            });
        }
    }
    None
}

/// The place of a verdict's MAP.
fn map_of(at: Place) -> Phrase {
    Phrase::new(Text::Map, [at.round, at.channel, 0, 0])
}

/// That a minislot of a MAP isn't what it must be: what lines grant, what is wanted, and what the MAP has.
fn minislot_of(
    alloc: Global,
    maps: &[u8],
    rows: &[Row],
    at: Place,
    map: PlacedMap,
) -> Result<Said, NoMemory> {
    let record = record_at(alloc, maps, map.record, at.third)?;
    let granted = granted_in(rows, at, map);
    let lines = granted.lines;
    let (file, place) = match lines.count {
        0 => (VerdictFile::Maps, record.place),
        _ => (lines.file(), map_of(at)),
    };
    let which = Phrase::new(Text::Minislot, [at.third, map.len, 0, 0]);
    let wanted = wanted_at(map, at.third, granted);
    let behind = [granted.span, wanted, record.element];
    Ok(Said::of_lines(file, place, which, lines, behind))
}

/// What lines grant of a MAP.
#[derive(Clone, Copy)]
struct Granted {
    /// The lines that grant a minislot,
    lines: Lines,
    /// and the minislots of the first of them.
    span: Phrase,
    /// The last end of grants before it, and the first start behind it, both between the reserves.
    from: u64,
    to: u64,
}

/// What lines grant of the MAP of a verdict, about its minislot.
fn granted_in(rows: &[Row], at: Place, map: PlacedMap) -> Granted {
    let mut lines = Lines::none();
    let mut span = NOTHING;
    let (mut from, mut to) = (map.first, map.last);
    for (place, row) in rows.iter().enumerate() {
        let line = told_by(row);
        let is_of = (line.round == at.round) & (line.channel == at.channel);
        if line.is_grant & is_of {
            if is_about(line, at.third, map.len) {
                if lines.count == 0 {
                    let numbers = [line.start, line.slots, line.sid, line.iuc];
                    span = Phrase::new(Text::LineSpan, numbers);
                }
                lines.add(place);
            }
            if (line.slots > 0) & (line.start <= at.third) {
                from = from.max(line.start.saturating_add(line.slots));
            } else if line.slots > 0 {
                to = to.min(line.start);
            }
        }
    }
    Granted {
        lines,
        span,
        from,
        to,
    }
}

/// Whether a grant is about a minislot: it has that, starts there and is empty, or starts behind the MAP's end.
fn is_about(line: Told, at: u64, len: u64) -> bool {
    if line.slots == 0 {
        return line.start == at;
    }
    if at == len {
        return len <= line.start;
    }
    (line.start <= at) & (at.saturating_sub(line.start) < line.slots)
}

/// What is wanted at a minislot: the reserve that has it, or where no line grants it a gap, for all modems, or for nobody
/// where it is too short for a request.
fn wanted_at(map: PlacedMap, at: u64, granted: Granted) -> Phrase {
    let slots = granted.to.saturating_sub(granted.from);
    if at < map.first {
        let numbers = [0, map.first, BROADCAST, INITIAL_MAINTENANCE];
        Phrase::new(Text::MaintenanceSpan, numbers)
    } else if map.last <= at && at < map.len {
        let numbers = [map.last, map.len - map.last, BROADCAST, REQUEST];
        Phrase::new(Text::ContentionSpan, numbers)
    } else if granted.lines.count > 0 {
        NOTHING
    } else {
        let sid = if map.request <= slots { BROADCAST } else { 0 };
        Phrase::new(Text::Gap, [granted.from, slots, sid, REQUEST])
    }
}
