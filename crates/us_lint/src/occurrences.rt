use crate::calendars::{Entries, Interval, PlacedEntry};
use crate::findings::VerdictFile;
use crate::lengths::Lengths;
use crate::lines::{Occurrence, Which, lines_of};
use crate::phrases::{Name, Phrase, Text};
use crate::said::{Said, first_other, place_of};
use crate::told::{Told, told_by};
use std::alloc::{AllocError, Global};
use us_activity::Activities;
use us_output::Row;
use us_reports::Place;
use us_slots::NoMemory;

/// That a line of a calendar is wrong, or that an occurrence hasn't just one line: the first one that closes in the round, or
/// else that of the first line at the verdict's place.
pub(crate) fn occurrence_said(
    alloc: Global,
    entries: Entries,
    activities: &Activities,
    lengths: Lengths,
    rows: &[Row],
    at: Place,
) -> Result<Said, NoMemory> {
    if let Some(said) = wrong_line(entries, activities, lengths, rows, at) {
        return Ok(said);
    }
    let first = lines_of(rows, Which::Calendar(at)).first(rows);
    let mut unsettled = unsettled_of(alloc, entries.flow, activities, lengths, rows, at)?;
    if unsettled.is_none() {
        unsettled = unsettled_of(alloc, entries.station, activities, lengths, rows, at)?;
    }
    let of = unsettled.unwrap_or(Occurrence {
        topic: first.topic,
        id: first.id,
        i: first.i,
        k: first.k,
    });
    let interval = entries.named(of.topic).interval(activities, lengths, of.i);
    let before = Phrase::new(Text::Occurrence, [of.i, of.k, 0, 0]);
    let ends = [interval.first, interval.last.saturating_add(1), 0, 0];
    let lines = lines_of(rows, Which::Occurrence(of));
    Ok(Said::at_lines(place_of(at), before, lines, Phrase::new(Text::Starts, ends)))
}

/// What is said of the first line at a verdict's place that is wrong by itself.
fn wrong_line(
    entries: Entries,
    activities: &Activities,
    lengths: Lengths,
    rows: &[Row],
    at: Place,
) -> Option<Said> {
    for (place, row) in rows.iter().enumerate() {
        let line = told_by(row);
        if Which::Calendar(at).has(line) {
            let of = entries.named(line.topic);
            let interval = of.interval(activities, lengths, line.i);
            if let Some(wrong) = wrong_with(of, interval, line) {
                return Some(Said::at(VerdictFile::at(place), place_of(at), wrong));
            }
        }
    }
    None
}

/// What the numbers of a grant of an entry are called, and whether there is the entry, in the order in which they are looked
/// at.
static GRANT_NAMES: [Name; 8] = [
    Name::Entries,
    Name::Channel,
    Name::K,
    Name::Start,
    Name::Sid,
    Name::Iuc,
    Name::Slots,
    Name::Credit,
];

/// The same of a missed occurrence.
static MISSED_NAMES: [Name; 4] = [Name::Entries, Name::Channel, Name::K, Name::ClosingRound];

/// What is wrong with a line of an interval of an entry, by itself.
fn wrong_with(of: PlacedEntry, interval: Interval, line: Told) -> Option<Phrase> {
    let is_there = (of.topic == line.topic) as u64;
    let Interval {
        last_place,
        iuc,
        slots,
        first,
        last,
        closes,
    } = interval;
    if line.is_grant {
        let before = line.round.saturating_mul(of.map_len);
        let start = before.saturating_add(line.start);
        first_other(
            &GRANT_NAMES,
            &[1, of.channel, 0, first, of.sid, iuc, slots, 0],
            &[1, of.channel, last_place, last, of.sid, iuc, slots, 0],
            &[
                is_there,
                line.channel,
                line.k,
                start,
                line.sid,
                line.iuc,
                line.slots,
                line.credit,
            ],
        )
    } else {
        first_other(
            &MISSED_NAMES,
            &[1, of.channel, 0, closes],
            &[1, of.channel, last_place, closes],
            &[is_there, line.channel, line.k, line.round],
        )
    }
}

/// The occurrences of an entry whose windows close in a round: how many there are, from this interval on.
#[derive(Clone, Copy)]
struct Closing {
    entry: PlacedEntry,
    first: u64,
    count: u64,
}

impl Closing {
    /// Those of an entry, if it is on the channel of a verdict.
    fn of(entry: PlacedEntry, lengths: Lengths, at: Place) -> Closing {
        let first = entry.first_interval(lengths, at.round);
        let behind = entry.first_interval(lengths, at.round.saturating_add(1));
        let count = behind.saturating_sub(first).saturating_mul(entry.grants);
        Closing {
            entry,
            first,
            count: if entry.channel == at.channel {
                count
            } else {
                0
            },
        }
    }

    /// Where the one that a line of its id names stands among them; behind all where it names another.
    fn place(self, line: Told) -> u64 {
        let entry = self.entry;
        let intervals = line.i.saturating_sub(self.first);
        let place = intervals
            .saturating_mul(entry.grants)
            .saturating_add(line.k);
        let is_of = (line.topic == entry.topic) & (self.first <= line.i);
        if is_of & (line.k < entry.grants) & (place < self.count) {
            place
        } else {
            u64::MAX
        }
    }
}

/// The first occurrence of an entry on the channel whose window closes in the round, and that hasn't just one line.
fn unsettled_of(
    alloc: Global,
    entry: PlacedEntry,
    activities: &Activities,
    lengths: Lengths,
    rows: &[Row],
    at: Place,
) -> Result<Option<Occurrence>, AllocError> {
    let closing = Closing::of(entry, lengths, at);
    let mut counts = vec![in alloc; 0_u8; closing.count as usize]?;
    count_lines(&mut counts, closing, rows, at.third);
    Ok(first_wrong(&counts, closing, activities, lengths, at.third))
}

/// Counts the lines of an id that name these occurrences.
fn count_lines(counts: &mut [u8], closing: Closing, rows: &[Row], id: u64) {
    for row in rows {
        let line = told_by(row);
        if line.id == id {
            if let Some(count) = counts.get_mut(closing.place(line) as usize) {
                *count = count.saturating_add(1);
            }
        }
    }
}

/// The first occurrence that isn't counted once.
fn first_wrong(
    counts: &[u8],
    closing: Closing,
    activities: &Activities,
    lengths: Lengths,
    id: u64,
) -> Option<Occurrence> {
    let entry = closing.entry;
    let grants = entry.grants.max(1);
    for (place, count) in counts.iter().enumerate() {
        let place = place as u64;
        let (i, k) = (closing.first.saturating_add(place / grants), place % grants);
        if *count != 1 && k <= entry.interval(activities, lengths, i).last_place {
            let topic = entry.topic;
            return Some(Occurrence { topic, id, i, k });
        }
    }
    None
}
