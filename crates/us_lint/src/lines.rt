use crate::findings::VerdictFile;
use crate::phrases::{Phrase, Text};
use crate::told::{NO_LINE, REQUESTED, Told, Topic, told_by};
use us_output::Row;
use us_reports::Place;

/// How many lines are named by their numbers.
const MAX_NAMED: usize = 5;

/// So many lines, of which the first is where the finding is.
static LINES: [Text; MAX_NAMED + 1] = [
    Text::NoLine,
    Text::OneLine,
    Text::TwoLines,
    Text::ThreeLines,
    Text::FourLines,
    Text::FiveLines,
];

/// Lines of a report that have to do with one another, by their numbers from 1.
#[derive(Clone, Copy)]
pub(crate) struct Lines {
    numbers: [u64; MAX_NAMED],
    pub(crate) count: usize,
}

impl Lines {
    /// No lines.
    pub(crate) fn none() -> Lines {
        Lines {
            numbers: [0; MAX_NAMED],
            count: 0,
        }
    }

    /// One more, at this place among all rows.
    pub(crate) fn add(&mut self, place: usize) {
        if let Some(number) = self.numbers.get_mut(self.count) {
            *number = (place as u64).saturating_add(1);
        }
        self.count = self.count.saturating_add(1);
    }

    /// What the first one tells.
    pub(crate) fn first(self, rows: &[Row]) -> Told {
        let place = self.numbers[0].wrapping_sub(1);
        rows.get(place as usize).map_or(NO_LINE, told_by)
    }

    /// What a finding at the first one calls them: `this line and line 12`.
    pub(crate) fn named(self) -> Phrase {
        let [_, a, b, c, d] = self.numbers;
        Phrase::new(LINES[self.count.min(MAX_NAMED)], [a, b, c, d])
    }

    /// How many more there are than are named.
    pub(crate) fn more(self) -> Phrase {
        let more = self.count.saturating_sub(MAX_NAMED);
        let text = if more == 0 {
            Text::Nothing
        } else {
            Text::MoreLines
        };
        Phrase::of(text, more as u64)
    }

    /// Where a finding of them is: at the first one, if there is one.
    pub(crate) fn file(self) -> VerdictFile {
        if self.count == 0 {
            VerdictFile::Report
        } else {
            VerdictFile::Line(self.numbers[0])
        }
    }
}

/// An occurrence of an entry.
#[derive(Clone, Copy)]
pub(crate) struct Occurrence {
    pub(crate) topic: Topic,
    pub(crate) id: u64,
    pub(crate) i: u64,
    pub(crate) k: u64,
}

/// The lines that a report has of something.
#[derive(Clone, Copy)]
pub(crate) enum Which {
    /// Those of a round and a channel.
    Map(u64, u64),
    /// Those of calendars that are at the place of a verdict,
    Calendar(Place),
    /// and those of requests there, from this cluster up to that one.
    Request(Place, u64, u64),
    /// The grants of requests of a flow, of such clusters.
    Requests(u64, u64, u64),
    /// Those that name this occurrence.
    Occurrence(Occurrence),
    /// Last lines about this, of a flow and of such clusters.
    Last(Topic, u64, u64, u64),
}

impl Which {
    /// Whether a line is one of them.
    pub(crate) fn has(self, line: Told) -> bool {
        match self {
            Which::Map(round, channel) => {
                line.topic.is_of_map() & (line.round == round) & (line.channel == channel)
            }
            Which::Calendar(at) => {
                line.topic.is_of_map() & (line.topic != REQUESTED) & line.is_at(at)
            }
            Which::Request(at, least, most) => {
                let is_of = line.is_grant & (line.topic == REQUESTED);
                is_of & line.is_at(at) & (least <= line.i) & (line.i <= most)
            }
            Which::Requests(id, least, most) => {
                let is_of = line.is_grant & (line.topic == REQUESTED);
                is_of & (line.id == id) & (least <= line.i) & (line.i <= most)
            }
            Which::Occurrence(of) => {
                let is_of = (line.topic == of.topic) & (line.id == of.id);
                is_of & (line.i == of.i) & (line.k == of.k)
            }
            Which::Last(topic, id, least, most) => {
                let is_of = (line.topic == topic) & (line.id == id);
                is_of & (least <= line.i) & (line.i <= most)
            }
        }
    }
}

/// The lines that there are of something.
pub(crate) fn lines_of(rows: &[Row], which: Which) -> Lines {
    let mut lines = Lines::none();
    for (place, row) in rows.iter().enumerate() {
        if which.has(told_by(row)) {
            lines.add(place);
        }
    }
    lines
}

/// The bytes of the line of this number, from 1, with its line feed, if it has one.
pub(crate) fn line_at(report: &[u8], number: u64) -> &[u8] {
    let (mut line, mut start) = (1_u64, 0);
    for (place, byte) in report.iter().enumerate() {
        if *byte == b'\n' {
            let end = place.saturating_add(1);
            if line == number {
                return report.get(start..end).unwrap_or(&[]);
            }
            line = line.saturating_add(1);
            start = end;
        }
    }
    report.get(start..).unwrap_or(&[])
}
