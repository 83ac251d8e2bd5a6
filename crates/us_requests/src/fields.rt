ghost use Rattle.std.specs.Prelude.{◌≡◌, ◌≤◌, length, Some, None, if◌then◌else◌, IfOk, IfErr, IfSome};
ghost use Rattle.std.specs.List.{list_all};
ghost use Rattle.csv.specs.Records.{fields_of};
ghost use Rattle.us_requests.specs.declared.requests.Kind.TheVariants as kinds;
ghost use Rattle.us_requests.specs.Texts;
ghost use Rattle.us_slots.specs.Lists.{first_of};
ghost use Rattle.us_requests.specs.Texts.{max_records, field_in, is_digit, number_of, is_number, is_kind, are_four_numbers, are_numbers, request_of, record_checks};

use crate::faults::TraceFault;
use crate::requests::{Kind, Request};
use csv::ByteRecord;

/// The greatest tick of a row.
pub const MAX_TICK: u32 = u32::MAX;

/// The greatest channel id.
pub const MAX_CHANNEL: u32 = 255;

/// The greatest SID.
pub const MAX_SID: u32 = 16_383;

/// The most units that a row asks for.
pub const MAX_UNITS: u32 = 65_535;

/// The greatest kind.
pub const MAX_KIND: u32 = 2;

/// The most digits of a field.
pub const MAX_DIGITS: usize = 10;

/// The columns of a trace in its first version.
const COLUMNS: usize = 4;

/// Those of its second version, of which the last is the kind.
const COLUMNS_WITH_KIND: usize = 5;

/// Whether a record is the header, of either version.
#[tactic(auto, unfolding(crate::specs::Texts::is_header))]
pub fn is_header(fields: &ByteRecord) -> bool
    ensures { result ≡ Texts.is_header (fields_of fields.now) }
{
    (fields.len() == COLUMNS
        || (fields.len() == COLUMNS_WITH_KIND && field(fields, 4) == b"kind".as_slice()))
        && field(fields, 0) == b"tick".as_slice()
        && field(fields, 1) == b"channel".as_slice()
        && field(fields, 2) == b"sid".as_slice()
        && field(fields, 3) == b"units".as_slice()
}

/// The request that the record of this number tells, behind a header of so many columns.
pub fn request_in(fields: &ByteRecord, columns: usize, number: u32) -> Result<Request, TraceFault>
    requires { number ≤ max_records }
    ensures fault { IfErr result (λ fault. first_of (record_checks columns number (fields_of fields.now)) ≡ Some fault) }
    ensures none { IfOk result (λ _. first_of (record_checks columns number (fields_of fields.now)) ≡ None) }
    ensures value { IfOk result (λ request. request ≡ request_of (fields_of fields.now)) }
    ensures small { IfOk result (λ request. request.units ≤ 65535) }
{
    if fields.len() != columns {
        return Err(TraceFault::Fields(number));
    }
    match request_of(fields, columns) {
        Some(request) => Ok(request),
        None => Err(TraceFault::Number(number)),
    }
}

/// The request that so many fields tell, if each is a number in its range. Only behind more than four columns it has a
/// kind to be read.
#[tactic(auto, using(crate::proofs::FieldLemmas::kinded))]
fn request_of(fields: &ByteRecord, columns: usize) -> Option<Request>
    requires { length (fields_of fields.now) ≡ columns }
    ensures value { result ≡
        if are_numbers (fields_of fields.now) then Some (request_of (fields_of fields.now)) else None }
    ensures small { IfSome result (λ request. request.units ≤ 65535) }
{
    let request = four_numbers(fields)?;
    if columns == COLUMNS {
        return Some(request);
    }
    let kind = kind_in(field(fields, 4), request.units)?;
    Some(Request { kind, ..request })
}

/// The request that the first four fields tell, if each is a number in its range.
#[tactic(auto, unfolding(crate::specs::Texts::are_four_numbers))]
fn four_numbers(fields: &ByteRecord) -> Option<Request>
    ensures value { result ≡ if are_four_numbers (fields_of fields.now)
        then Some (record (request_of (fields_of fields.now)) { kind = kinds.Request }) else None }
    ensures small { IfSome result (λ request. request.units ≤ 65535) }
{
    let tick = number_in(field(fields, 0), MAX_TICK)?;
    let channel = number_in(field(fields, 1), MAX_CHANNEL)?;
    let sid = number_in(field(fields, 2), MAX_SID)?;
    let units = number_in(field(fields, 3), MAX_UNITS)?;
    Some(Request {
        tick,
        channel: channel as u8,
        sid: sid as u16,
        units: units as u16,
        kind: Kind::Request,
    })
}

/// The kind that a field tells of a request of so many units: a mark has none.
fn kind_in(field: &[u8], units: u16) -> Option<Kind>
    ensures { result ≡ if is_kind units field.now then Some (Texts.kind_of (number_of field.now)) else None }
{
    match number_in(field, MAX_KIND)? {
        0 => Some(Kind::Request),
        _ if units > 0 => None,
        1 => Some(Kind::Silent),
        _ => Some(Kind::Active),
    }
}

/// The bytes of a field, none where the record has no such field.
#[tactic(auto, using(crate::proofs::FieldLemmas::fielded))]
fn field(fields: &ByteRecord, place: usize) -> &[u8]
    ensures { result.now ≡ field_in (fields_of fields.now) place }
{
    match fields.get(place) {
        Some(bytes) => bytes,
        None => &[],
    }
}

/// The number that a field of 1 to 10 digits tells, if it is at most `greatest`.
pub fn number_in(field: &[u8], greatest: u32) -> Option<u32>
    ensures value { result ≡ if is_number greatest field.now then Some (number_of field.now) else None }
    ensures small { IfSome result (λ number. number ≤ greatest) }
{
    if field.is_empty() || field.len() > MAX_DIGITS {
        return None;
    }
    let number = decimal(field)?;
    if number > u64::from(greatest) {
        return None;
    }
    Some(number as u32)
}

/// The number that up to 10 digits tell, `None` where a byte is no digit.
#[tactic(auto, unfolding(crate::specs::Texts::number_from))]
fn decimal(field: &[u8]) -> Option<u64>
    requires { length field.now ≤ 10 }
    ensures { result ≡ if list_all is_digit field.now then Some (number_of field.now) else None }
{
    let mut number = 0;
    for byte in field {
        if !byte.is_ascii_digit() {
            return None;
        }
        number = 10 * number + u64::from(byte - b'0');
    }
    Some(number)
}
