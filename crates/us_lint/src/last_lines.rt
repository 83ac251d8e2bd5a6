use crate::calendars::saturated;
use crate::credits::{asked_within, credits_of, first_word, level_before};
use crate::lengths::{Lengths, flow_with};
use crate::lines::{Lines, Which, lines_of};
use crate::phrases::{Name, Phrase, Text};
use crate::said::{Said, first_other};
use crate::told::{Told, Topic};
use std::alloc::Global;
use us_activity::Activities;
use us_flows::Flow;
use us_output::Row;
use us_requests::Trace;
use us_slots::NoMemory;

/// A place of last lines: which lines these are, what they are called, and how many are wanted.
#[derive(Clone, Copy)]
struct LastPlace {
    which: Which,
    words: Phrase,
    wanted: u64,
}

/// That a last line is wrong, is missing, or is there twice: of a flow with this id, and with 0 the U line.
pub(crate) fn last_said(
    alloc: Global,
    flows: &[Flow],
    trace: &Trace,
    activities: &Activities,
    lengths: Lengths,
    rows: &[Row],
    id: u64,
) -> Result<Said, NoMemory> {
    let [lists, tells] = lines_wanted(flows, id);
    for number in 0..lists.saturating_add(3) {
        let place = place_at(id, lists, tells, number);
        let lines = lines_of(rows, place.which);
        if lines.count as u64 != place.wanted {
            return Ok(Said::count(place.wanted, lines, place.words));
        }
        let line = lines.first(rows);
        let wanted = wanted_of(alloc, flows, trace, activities, lengths, rows, line)?;
        let names = names_of(line, wanted);
        if let Some(wrong) = first_other(&names, &wanted, &wanted, &line.last) {
            return Ok(Said::at(lines.file(), place.words, wrong));
        }
    }
    // Nobody comes here: a last line is wrong, or the verdict is another.
    let words = Phrase::of(Text::CountsLine, 0);
    Ok(Said::count(1, Lines::none(), words))
}

/// How many F lines and A lines a flow has; none, if no flow has this id.
fn lines_wanted(flows: &[Flow], id: u64) -> [u64; 2] {
    match flow_with(flows, id) {
        Some(flow) => {
            let kind = flow.kind();
            let clusters = flow.clusters().len() as u64;
            let lists = if kind.makes_requests() { clusters } else { 0 };
            [lists, kind.tells_activity() as u64]
        }
        None => [0, 0],
    }
}

/// The places of an id in their order: F lines of clusters that its flow hasn't, those of each of its clusters, A lines,
/// and the U line.
fn place_at(id: u64, lists: u64, tells: u64, number: u64) -> LastPlace {
    let list = number.saturating_sub(1);
    if number == 0 {
        LastPlace {
            which: Which::Last(Topic::Final, id, lists, u64::MAX),
            words: Phrase::new(Text::FinalLinesFrom, [id, lists, 0, 0]),
            wanted: 0,
        }
    } else if list < lists {
        LastPlace {
            which: Which::Last(Topic::Final, id, list, list),
            words: Phrase::new(Text::FinalLine, [id, list, 0, 0]),
            wanted: 1,
        }
    } else if list == lists {
        LastPlace {
            which: Which::Last(Topic::Activity, id, 0, u64::MAX),
            words: Phrase::of(Text::ActivityLine, id),
            wanted: tells,
        }
    } else {
        LastPlace {
            which: Which::Last(Topic::Counts, 0, 0, u64::MAX),
            words: Phrase::of(Text::CountsLine, 0),
            wanted: 1,
        }
    }
}

/// What a last line must tell.
fn wanted_of(
    alloc: Global,
    flows: &[Flow],
    trace: &Trace,
    activities: &Activities,
    lengths: Lengths,
    rows: &[Row],
    line: Told,
) -> Result<[u64; 3], NoMemory> {
    match (line.topic, flow_with(flows, line.id)) {
        (Topic::Final, Some(flow)) => wanted_final(alloc, flows, flow, trace, lengths, rows, line),
        (Topic::Activity, _) => {
            let word = u16::try_from(first_word(flows, line.id)).unwrap_or(u16::MAX);
            let end = (lengths.rounds as u128).saturating_sub(1);
            Ok([activities.is_active(word, end) as u64, 0, 0])
        }
        (Topic::Counts, _) => Ok(wanted_counts(trace)),
        _ => Ok(line.last),
    }
}

/// What the U line must tell.
fn wanted_counts(trace: &Trace) -> [u64; 3] {
    let counts = trace.counts();
    [
        counts.unknown as u64,
        counts.not_requestable as u64,
        counts.late as u64,
    ]
}

/// What an F line of a flow must tell: what is outstanding, whether there are units, and these.
fn wanted_final(
    alloc: Global,
    flows: &[Flow],
    flow: &Flow,
    trace: &Trace,
    lengths: Lengths,
    rows: &[Row],
    line: Told,
) -> Result<[u64; 3], NoMemory> {
    let rounds = lengths.rounds;
    let word = first_word(flows, line.id).saturating_add(line.i);
    let asked = asked_within(trace, word, rounds);
    let credited = credits_of(rows, flow, [line.i, line.i], rounds).before;
    let left = asked.saturating_sub(credited);
    if flow.rate() == 0 {
        return Ok([left, 0, 0]);
    }
    let level = level_before(alloc, rows, flow, lengths.round_ticks, rounds)?;
    Ok([left, 1, saturated(level.units_in(rounds.saturating_sub(1)))])
}

/// What the numbers of a last line are called. That units are wanted, or aren't, is told in words.
fn names_of(line: Told, wanted: [u64; 3]) -> [Name; 3] {
    let [_, has_units, _] = wanted;
    match line.topic {
        Topic::Final if has_units == 0 => [
            Name::Outstanding,
            Name::NumbersWithoutRate,
            Name::Units,
        ],
        Topic::Final => [Name::Outstanding, Name::NumbersWithRate, Name::Units],
        Topic::Activity => [Name::Active; 3],
        _ => [Name::Unknown, Name::NotRequestable, Name::Late],
    }
}
