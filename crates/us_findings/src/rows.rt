ghost use Rattle.std.specs.Prelude.{◌≡◌, [], IfOk};
ghost use Rattle.csv.specs.Records.{fields_of};
ghost use Rattle.us_requests.specs.Records.{records_left, IsRecordReader, TakesRecord};
ghost use Rattle.us_requests.specs.Texts.{records_of};
ghost use Rattle.us_findings.specs.Rows.{Reading};

use csv::{ByteRecord, Position, Reader, ReaderBuilder};
use std::alloc::Global;
use std::marker::Model;
use us_slots::NoMemory;

/// What may stand before the first record, and is none of it.
const BYTE_ORDER_MARK: &[u8] = b"\xef\xbb\xbf";

/// The records of a text as `Trace::read` has them, one at a time, each with its line.
///
/// Lines count from 1, and a line feed ends one. A record begins behind blank lines, and may go over several lines.
pub struct Rows<'a> {
    text: &'a [u8],
    reader: Reader<&'a [u8]>,
    fields: ByteRecord,
    start: Start,
}

/// Where a record begins.
#[derive(Clone, Copy)]
struct Start {
    /// How many bytes come before it.
    at: usize,
    line: usize,
}

impl Drop for Rows<'_> {
    fn drop(self) {
        let Rows {
            text: _,
            reader: _,
            fields: _,
            start: _,
        } = self;
    }
}

impl<'a> Model for Rows<'a> {
    ghost Value = { Reading };

    ghost view = { λ rows. record { fields = fields_of rows.fields; left = records_left rows.reader } };

    ghost invariant = { λ rows. IsRecordReader rows.reader };
}

impl<'a> Rows<'a> {
    /// Those of a text, of which none was read.
    #[tactic(auto, using(us_requests::proofs::RecordLemmas::reading))]
    pub fn new(alloc: Global, text: &'a [u8]) -> Rows<'a>
        ensures { result ≡ record { fields = []; left = records_of text.entry.now } }
    {
        let reader = ReaderBuilder::new()
            .has_headers(false)
            .flexible(true)
            .from_reader(alloc, text);
        Rows {
            text,
            reader,
            fields: ByteRecord::new(alloc),
            start: Start { at: 0, line: 1 },
        }
    }

    /// Reads the next record, and answers whether there was one.
    #[tactic(auto, using(us_requests::proofs::RecordLemmas::reading))]
    pub fn read(&mut self) -> Result<bool, NoMemory>
        ensures { IfOk result (λ found. TakesRecord self.old.left self.new.left self.new.fields found) }
    {
        self.start = next_start(self.text, self.reader.position());
        // A slice gives every read, and records may differ in their count of fields, so the one error is want of memory.
        match self.reader.read_byte_record(&mut self.fields) {
            Ok(found) => Ok(found),
            Err(_) => Err(NoMemory),
        }
    }

    /// The fields of the record that was read last.
    pub fn fields(&self) -> &ByteRecord
        ensures { fields_of result.now ≡ self.now.fields }
    {
        &self.fields
    }

    /// The line on which that record begins; where there was no more, the line on which the text ends.
    pub fn line(&self) -> usize {
        self.start.line
    }

    /// Its first line, as it stands in the text.
    pub(crate) fn first_line(&self) -> &'a [u8] {
        let rest = self.text.get(self.start.at..).unwrap_or(&[]);
        for (end, byte) in rest.iter().enumerate() {
            if (*byte == b'\n') | (*byte == b'\r') {
                return rest.get(..end).unwrap_or(rest);
            }
        }
        rest
    }
}

/// Where the next record of a text begins, for a reader that stands before blank lines, or before a byte-order mark.
fn next_start(text: &[u8], position: Position) -> Start {
    let mut start = Start {
        at: position.byte() as usize,
        line: position.line() as usize,
    };
    if (start.at == 0) & text.starts_with(BYTE_ORDER_MARK) {
        start.at = BYTE_ORDER_MARK.len();
    }
    for byte in text.get(start.at..).unwrap_or(&[]) {
        match *byte {
            b'\n' => start.line = start.line.saturating_add(1),
            b'\r' => {}
            _ => return start,
        }
        start.at = start.at.saturating_add(1);
    }
    start
}
