ghost use Rattle.std.specs.Prelude.{◌≡◌, List, IfOk};
ghost use Rattle.csv.specs.Records.{fields_of};
ghost use Rattle.us_requests.specs.Records.{records_left, IsRecordReader, TakesRecord};
ghost use Rattle.us_requests.specs.Texts.{Record, records_of};

use csv::{ByteRecord, Reader, ReaderBuilder};
use std::alloc::{AllocError, Global};
use std::marker::Model;

/// The records of a text that are left to read, the header among them.
#[derive(Drop)]
pub(crate) struct RecordReader<'a> {
    reader: Reader<&'a [u8]>,
}

impl<'a> Model for RecordReader<'a> {
    ghost Value = { List Record };

    ghost view = { λ r. records_left r.reader };

    ghost invariant = { λ r. IsRecordReader r.reader };
}

impl<'a> RecordReader<'a> {
    /// A reader of all records of a text, of any count of fields each.
    #[tactic(auto, using(crate::proofs::RecordLemmas::reading))]
    pub(crate) fn new(alloc: Global, text: &'a [u8]) -> RecordReader<'a>
        ensures { result ≡ records_of text.entry.now }
    {
        let reader = ReaderBuilder::new()
            .has_headers(false)
            .flexible(true)
            .from_reader(alloc, text);
        RecordReader { reader }
    }

    /// Reads the next record into `fields` and answers whether there was one. A slice gives every read, and records
    /// may differ in their count of fields, so the one error is want of memory.
    #[tactic(auto, using(crate::proofs::RecordLemmas::reading))]
    pub(crate) fn read(&mut self, fields: &mut ByteRecord) -> Result<bool, AllocError>
        ensures { IfOk result (λ found. TakesRecord self.old self.new (fields_of fields.new) found) }
    {
        match self.reader.read_byte_record(fields) {
            Ok(found) => Ok(found),
            Err(_) => Err(AllocError),
        }
    }
}
