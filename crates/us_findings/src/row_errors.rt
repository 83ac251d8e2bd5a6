use crate::rows::Rows;
use crate::sentences::Sentence;
use crate::shown::Shown;
use csv::ByteRecord;
use std::alloc::{AllocError, Global};
use std::fmt;
use us_requests::{
    MAX_CHANNEL, MAX_DIGITS, MAX_KIND, MAX_RECORDS, MAX_SID, MAX_TICK, MAX_UNITS, TraceFault,
    number_in,
};

/// The columns of a trace, and the greatest numbers of their fields.
static COLUMNS: [(&str, u32); 5] = [
    ("tick", MAX_TICK),
    ("channel", MAX_CHANNEL),
    ("sid", MAX_SID),
    ("units", MAX_UNITS),
    ("kind", MAX_KIND),
];

/// A part of a record as a finding shows it, in quotes.
#[derive(Clone, Copy)]
struct Quoted<'a>(&'a [u8]);

impl fmt::Display for Quoted<'_> {
    fn fmt<W: fmt::Write>(&self, f: &mut fmt::Formatter<W>) -> fmt::Result {
        match self.0 {
            [] => f.write_str("nothing"),
            part => write!(f, "\"{}\"", Shown(part)),
        }
    }
}

/// What is wrong with the record that was read last, which has this fault, behind a header of so many columns.
pub(crate) fn row_error(
    alloc: Global,
    rows: &Rows<'_>,
    columns: usize,
    fault: TraceFault,
) -> Result<String, AllocError> {
    match fault {
        TraceFault::Header => format!(in alloc;
            "tick,channel,sid,units or tick,channel,sid,units,kind is wanted as the first row, {} is there",
            Quoted(rows.first_line())
        ),
        TraceFault::Fields(_) => format!(in alloc;
            "{columns} fields are wanted, as in the header, {} are there: {}",
            rows.fields().len(),
            Quoted(rows.first_line())
        ),
        TraceFault::Number(_) => number_error(alloc, rows.fields()),
        TraceFault::TooLarge | TraceFault::Read | TraceFault::NoMemory => format!(in alloc;
            "at most {MAX_RECORDS} rows are wanted, the header among them, this is one more"
        ),
    }
}

/// A field is no number in its range; or all are, and the record is a mark and has units.
fn number_error(alloc: Global, fields: &ByteRecord) -> Result<String, AllocError> {
    for (place, (column, greatest)) in COLUMNS.iter().enumerate() {
        match fields.get(place) {
            Some(field) if number_in(field, *greatest).is_none() => {
                return field_error(alloc, column, *greatest, field);
            }
            _ => {}
        }
    }
    format!(in alloc;
        "units: 0 is wanted of a mark, which is a row of kind {}, {} is there",
        Shown(fields.get(4).unwrap_or(&[])),
        Quoted(fields.get(3).unwrap_or(&[]))
    )
}

/// A field is no number in its range.
fn field_error(
    alloc: Global,
    column: &str,
    greatest: u32,
    field: &[u8],
) -> Result<String, AllocError> {
    let form = form_wanted(field);
    format!(in alloc;
        "{column}: a whole number from 0 to {greatest}{form} is wanted, {} is there",
        Quoted(field)
    )
}

/// What is wanted of a number's digits, where a field lacks it that is no number in its range.
fn form_wanted(field: &[u8]) -> Sentence {
    if !are_digits(field) {
        Sentence::plain(", of digits alone,")
    } else if field.len() > MAX_DIGITS {
        Sentence::of(", of at most # digits,", MAX_DIGITS as u64)
    } else {
        Sentence::plain("")
    }
}

/// Whether all bytes are digits.
fn are_digits(field: &[u8]) -> bool {
    for byte in field {
        if !byte.is_ascii_digit() {
            return false;
        }
    }
    true
}
