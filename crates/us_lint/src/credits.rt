use crate::calendars::saturated;
use crate::findings::VerdictFile;
use crate::lengths::{Lengths, flow_with};
use crate::levels::Level;
use crate::lines::{Lines, Which};
use crate::phrases::{Name, Phrase, Text};
use crate::said::{Said, place_of};
use crate::told::told_by;
use std::alloc::{AllocError, Global};
use us_bucket::UNITS_PER_BYTE;
use us_flows::Flow;
use us_output::Row;
use us_reports::Place;
use us_requests::Trace;
use us_slots::NoMemory;

/// All clusters of a flow.
const ALL: [u64; 2] = [0, u64::MAX];

/// What lines credit to a flow, or to one of its clusters: before a round, and in it.
#[derive(Clone, Copy)]
pub(crate) struct Credits {
    /// The bytes before the round.
    pub(crate) before: u64,
    /// The bytes in it, and the lines.
    inside: u64,
    lines: Lines,
}

impl Credits {
    /// That the bytes in the round are too many, and how many there may be at most.
    fn said(self, place: Phrase, most: Phrase) -> Said {
        let before = Phrase::of(Text::Credited, self.inside);
        Said::at_lines(place, before, self.lines, most)
    }
}

/// What the lines of a report credit to these clusters of a flow.
pub(crate) fn credits_of(rows: &[Row], flow: &Flow, clusters: [u64; 2], round: u64) -> Credits {
    let [least, most] = clusters;
    let which = Which::Requests(flow.id() as u64, least, most);
    let (mut before, mut inside) = (0_u64, 0_u64);
    let mut lines = Lines::none();
    for (place, row) in rows.iter().enumerate() {
        let line = told_by(row);
        if which.has(line) {
            if line.round == round {
                lines.add(place);
                inside = inside.saturating_add(line.credit);
            } else if line.round < round {
                before = before.saturating_add(line.credit);
            }
        }
    }
    Credits {
        before,
        inside,
        lines,
    }
}

/// The bucket of a flow behind all that is credited to it before a round. Lines may stand in any order.
pub(crate) fn level_before(
    alloc: Global,
    rows: &[Row],
    flow: &Flow,
    round_ticks: u64,
    round: u64,
) -> Result<Level, NoMemory> {
    let credits = credits_before(alloc, rows, flow.id() as u64, round)?;
    let mut level = Level::of_flow(flow, round_ticks);
    for (credited, bytes) in &credits {
        level = level.spent(*credited, *bytes);
    }
    Ok(level)
}

/// The rounds before this one in which something is credited to a flow, each with its bytes, in order.
fn credits_before(
    alloc: Global,
    rows: &[Row],
    id: u64,
    round: u64,
) -> Result<Vec<(u64, u64)>, AllocError> {
    let which = Which::Requests(id, 0, u64::MAX);
    let mut credits = Vec::new(alloc);
    for row in rows {
        let line = told_by(row);
        if which.has(line) & (line.round < round) {
            credits.push((line.round, line.credit))?;
        }
    }
    credits.sort_unstable();
    Ok(credits)
}

/// The number of a flow's first word.
pub(crate) fn first_word(flows: &[Flow], id: u64) -> u64 {
    let mut word = 0_u64;
    for flow in flows {
        if flow.id() as u64 == id {
            break;
        }
        word = word.saturating_add(flow.words() as u64);
    }
    word
}

/// The bytes that are asked for by a word in the first so many rounds.
pub(crate) fn asked_within(trace: &Trace, word: u64, rounds: u64) -> u64 {
    let mut bytes = 0_u64;
    for round in 0..trace.rounds() {
        if (round as u64) < rounds {
            bytes = bytes.saturating_add(asked_in(trace, word, round));
        }
    }
    bytes
}

/// Those that are asked for in one round.
fn asked_in(trace: &Trace, word: u64, round: u32) -> u64 {
    let mut bytes = 0_u64;
    for ask in trace.asks(round) {
        if ask.cluster as u64 == word {
            bytes = bytes.saturating_add(ask.bytes as u64);
        }
    }
    bytes
}

/// That a flow is credited more than its rate and its burst allow.
pub(crate) fn rate_said(
    alloc: Global,
    flows: &[Flow],
    lengths: Lengths,
    rows: &[Row],
    at: Place,
) -> Result<Said, NoMemory> {
    let place = Phrase::new(Text::Flow, [at.round, at.third, 0, 0]);
    let Some(flow) = flow_with(flows, at.third) else {
        let none = Phrase::wanted(Name::Flows, 1, 0);
        return Ok(Said::at(VerdictFile::Report, place, none));
    };
    let level = level_before(alloc, rows, flow, lengths.round_ticks, at.round)?;
    let most = level.units_in(at.round) / UNITS_PER_BYTE as u128;
    let credits = credits_of(rows, flow, ALL, at.round);
    Ok(credits.said(place, Phrase::of(Text::Bucket, saturated(most))))
}

/// That a cluster is credited more in a round than is outstanding.
pub(crate) fn outstanding_said(flows: &[Flow], trace: &Trace, rows: &[Row], at: Place) -> Said {
    if let Some(flow) = flow_with(flows, at.third) {
        let first = first_word(flows, at.third);
        for cluster in 0..flow.clusters().len() as u64 {
            let credits = credits_of(rows, flow, [cluster, cluster], at.round);
            let word = first.saturating_add(cluster);
            let asked = asked_within(trace, word, at.round.saturating_add(1));
            let most = asked.saturating_sub(credits.before);
            if most < credits.inside {
                let place = Phrase::new(Text::Cluster, [at.round, at.third, cluster, 0]);
                return credits.said(place, Phrase::of(Text::Left, most));
            }
        }
    }
    // Nobody comes here: some cluster is credited too much, or the verdict is another.
    Said::at(
        VerdictFile::Report,
        place_of(at),
        Phrase::wanted(Name::Flows, 1, 0),
    )
}
