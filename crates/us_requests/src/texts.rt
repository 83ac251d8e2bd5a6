ghost use Rattle.std.specs.Prelude.{◌≡◌, drop, map, IfErr, IfOk, OnOk};
ghost use Rattle.us_requests.specs.Texts.{fault_from, records_fault, trace_fault, requests_of, request_of};
ghost use Rattle.us_requests.specs.Readings.{Tells, IsFirst};

use crate::faults::TraceFault;
use crate::fields::{is_header, request_in};
use crate::readers::RecordReader;
use crate::requests::Request;
use csv::ByteRecord;
use std::alloc::Global;

/// The most records of a trace, with the header.
pub const MAX_RECORDS: u32 = 1_000_001;

/// The requests that the text of a trace tells, or its first fault.
#[tactic(auto, unfolding(crate::specs::Texts::trace_fault, crate::specs::Texts::requests_of))]
pub(crate) fn requests_in(alloc: Global, text: &[u8]) -> Result<Vec<Request>, TraceFault>
    ensures { Tells (trace_fault text.now) (requests_of text.now) result }
{
    let mut reader = RecordReader::new(alloc, text);
    let mut fields = ByteRecord::new(alloc);
    let columns = read_header(&mut reader, &mut fields)?;
    read_requests(alloc, &mut reader, &mut fields, columns)
}

/// Reads the header, which is record 1, and answers how many columns it names.
fn read_header(reader: &mut RecordReader<'_>, fields: &mut ByteRecord) -> Result<usize, TraceFault>
    ensures left { OnOk result (reader.new ≡ drop 1 reader.old) }
    ensures later { IfOk result (λ columns. records_fault reader.old ≡ fault_from columns 2 reader.new) }
    ensures fault { IfErr result (λ fault. IsFirst (records_fault reader.old) fault) }
{
    if !reader.read(fields)? {
        return Err(TraceFault::Header);
    }
    if !is_header(fields) {
        return Err(TraceFault::Header);
    }
    Ok(fields.len())
}

/// Reads the requests, which are the records from 2 on, behind a header of so many columns.
#[tactic(auto, using(crate::proofs::TextLemmas::telling))]
fn read_requests(
    alloc: Global,
    reader: &mut RecordReader<'_>,
    fields: &mut ByteRecord,
    columns: usize,
) -> Result<Vec<Request>, TraceFault>
    ensures { Tells (fault_from columns 2 reader.old) (map request_of reader.old) result }
{
    let mut requests = Vec::new(alloc);
    for number in 2..MAX_RECORDS + 1 {
        if !reader.read(fields)? {
            return Ok(requests);
        }
        requests.push(request_in(fields, columns, number)?)?;
    }
    if reader.read(fields)? {
        return Err(TraceFault::TooLarge);
    }
    Ok(requests)
}
