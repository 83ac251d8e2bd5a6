ghost use Rattle.std.specs.Prelude.{◌≡◌, option_map};
ghost use Rattle.us_output.specs.declared.rows.Row.TheVariants as rows;
ghost use Rattle.us_reports.specs.Reports.{Answers, AnswersAt, IsLinesEnd};

use crate::report_faults::ReportFault;
use crate::report_fronts::Front;
use crate::report_lines::line;
use std::alloc::Global;
use std::marker::Model;
use us_output::{Row, TraceCounts};

/// Where the lines of a text end: behind its last line feed, or at 0 where it has none.
pub fn lines_end(bytes: &[u8]) -> usize
    ensures { IsLinesEnd bytes.now result }
{
    let mut end = bytes.len();
    while end > 0 {
        if bytes[end - 1] == b'\n' {
            return end;
        }
        end -= 1;
    }
    0
}

/// Reads lines, each over the row of the one before, whose front it remembers: most lines begin like that one.
#[derive(Drop)]
pub struct LineReader {
    row: Row,
    front: Option<Front>,
}

impl Model for LineReader {
    ghost use Rattle.us_output.specs.declared.rows.Row.{Row};

    ghost Value = { Row };

    ghost view = { λ r. r.row };

    ghost use Rattle.us_reports.specs.Fronts.{Remembers};

    ghost invariant = { λ r. Remembers r.front r.row };
}

impl LineReader {
    /// One that has read no line yet. Its row is a U line of zeros.
    pub fn new() -> LineReader
        ensures { result ≡ rows.Counts (record { unknown = 0; not_requestable = 0; late = 0 }) }
    {
        let nothing = TraceCounts {
            unknown: 0,
            not_requestable: 0,
            late: 0,
        };
        LineReader {
            row: Row::Counts(nothing),
            front: None,
        }
    }

    /// The row of the line that was read last; where none began, it says nothing.
    pub fn row(&self) -> &Row
        ensures { result.now ≡ self.now }
    {
        &self.row
    }

    /// Reads the line that begins at this place of a text, whose lines end at `end`, and answers the place behind it; `None`
    /// where no line of a row begins there, and then the row says nothing.
    pub fn read(&mut self, bytes: &[u8], end: usize, from: usize) -> Option<usize>
        requires { IsLinesEnd bytes.now end }
        ensures { AnswersAt bytes.now from (option_map (λ next. (self.new, next)) result) }
    {
        if from < end {
            line(bytes, end, from, &mut self.row, &mut self.front)
        } else {
            None
        }
    }
}

/// The line that begins at this place of a text, and the place behind it; `None` where no line of a row begins there. The
/// lines of the text end at `end`. So whoever goes over a text by this call keeps no rows.
pub fn line_at(bytes: &[u8], end: usize, from: usize) -> Option<(Row, usize)>
    requires { IsLinesEnd bytes.now end }
    ensures { AnswersAt bytes.now from result }
{
    let mut reader = LineReader::new();
    let next = reader.read(bytes, end, from)?;
    Some((*reader.row(), next))
}

/// The rows whose lines these bytes are, or the first line that is of no row. Lines are judged by their form alone: by
/// letter, entry word, count of fields, numbers and line feed. No bytes have no rows.
pub fn report_rows(alloc: Global, bytes: &[u8]) -> Result<Vec<Row>, ReportFault>
    ensures { Answers bytes.now result }
{
    let end = lines_end(bytes);
    let mut reader = LineReader::new();
    let mut rows = Vec::new(alloc);
    let mut at = 0;
    while at < bytes.len() {
        let Some(next) = reader.read(bytes, end, at) else {
            return Err(ReportFault::Line(rows.len() as u64 + 1));
        };
        rows.push(*reader.row())?;
        at = next;
    }
    Ok(rows)
}
