ghost use Rattle.std.specs.Prelude.{◌≡◌, ◌≢◌, ◌<◌, ◌≤◌, length, List, Ok, Err, IsOk, IfOk, IfErr};
ghost use Rattle.std.specs.List.{All, AllByRecursion};
ghost use Rattle.us_codec.specs.MapsFiles.{Piece, IsPiece, maps_file};
ghost use Rattle.us_codec.specs.Records.{places, IsMapsFile, EndsInside, BeginsWhole};
ghost use Rattle.us_codec.specs.Answers.{ListUnlessNoMemory};
ghost use Rattle.us_codec.specs.declared.faults.MapFault.TheVariants.{NoMemory, RecordCut};

use crate::faults::MapFault;
use std::alloc::Global;

/// The bytes of a record before its body: the round and the length (ours).
const HEADER_BYTES: usize = 6;

/// A record of a maps file: the round, and where its body stands, in bytes from the start of the file.
#[derive(Clone, Copy, Debug, PartialEq, Eq, Hash)]
pub struct Record {
    /// The round of the MAP.
    pub round: u32,
    /// Where the body begins.
    pub from: usize,
    /// Where it ends: the place behind its last byte, and [`Record::from`] if it has none.
    pub to: usize,
}

/// The records of a maps file, in the file's order. Neither their rounds nor their bodies are judged, and a file of no
/// bytes has none. The faults are M11, where the file ends inside a record, and M10, want of memory.
pub fn records(alloc: Global, file: &[u8]) -> Result<Vec<Record>, MapFault>
    ensures found { IfOk result (λ records. IsMapsFile file.now records.items) }
    ensures within { IfOk result (λ records.
        All (λ r. (r.from ≤ r.to) × (r.to ≤ length file.now)) records.items) }
    ensures complete { (pieces : List Piece) → AllByRecursion IsPiece pieces → file.now ≡ maps_file pieces →
        ListUnlessNoMemory result (Ok (places 0 pieces)) }
    ensures fault { IfErr result (λ fault. fault ≢ NoMemory → fault ≡ RecordCut) }
    ensures inside { IfErr result (λ fault. fault ≢ NoMemory → EndsInside file.now) }
    ensures cut { EndsInside file.now → ListUnlessNoMemory result (Err RecordCut) }
    ensures empty { length file.now ≡ 0 → IsOk result }
    ensures short { 0 < length file.now → length file.now < 6 → result ≡ Err RecordCut }
    ensures wanting { result ≡ Err NoMemory → BeginsWhole file.now }
{
    split(alloc, file)
}

/// The same by one reading from front to back: what `complete` and `cut` say follows of this function's clauses alone.
#[tactic(auto, using(crate::proofs::FileLemmas::reading))]
fn split(alloc: Global, file: &[u8]) -> Result<Vec<Record>, MapFault>
    ensures found { IfOk result (λ records. IsMapsFile file.now records.items) }
    ensures fault { IfErr result (λ fault. fault ≢ NoMemory → fault ≡ RecordCut) }
    ensures inside { IfErr result (λ fault. fault ≢ NoMemory → EndsInside file.now) }
    ensures empty { length file.now ≡ 0 → IsOk result }
    ensures short { 0 < length file.now → length file.now < 6 → result ≡ Err RecordCut }
    ensures wanting { result ≡ Err NoMemory → BeginsWhole file.now }
{
    let mut found = Vec::new(alloc);
    let mut rest = file;
    let mut at = 0;
    while !rest.is_empty() {
        if rest.len() < HEADER_BYTES {
            return Err(MapFault::RecordCut);
        }
        let round = u32::from_be_bytes([rest[0], rest[1], rest[2], rest[3]]);
        let body_len = usize::from(u16::from_be_bytes([rest[4], rest[5]]));
        if rest.len() < HEADER_BYTES + body_len {
            return Err(MapFault::RecordCut);
        }
        let (record, later) = rest.split_at(HEADER_BYTES + body_len);
        let from = at + HEADER_BYTES;
        at += record.len();
        found.push(Record {
            round,
            from,
            to: at,
        })?;
        rest = later;
    }
    Ok(found)
}
