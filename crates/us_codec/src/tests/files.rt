use super::base::same;
use crate::{MapFault, Record, decode, records};
use std::alloc::Global;

/// Records of 34 and 38 bytes: the base body in round 0, and one with a grant in round 1.
pub static TWO_RECORDS: [u8; 72] = [
    0, 0, 0, 0, 0, 28, 1, 0, 3, 0, 0, 0, 0, 0, 0, 0, 0, 0, 2, 6, 3, 8, 0xff, 0xfc, 0x40, 0, 0xff,
    0xfc, 0x40, 150, 0, 1, 0xc0, 160, 0, 0, 0, 1, 0, 32, 1, 0, 4, 0, 0, 0, 0, 160, 0, 0, 0, 80, 2,
    6, 3, 8, 0x04, 0x8e, 0x80, 0, 0xff, 0xfc, 0x40, 0x20, 0xff, 0xfc, 0x40, 150, 0, 1, 0xc0, 160,
];

/// How many records a file has.
pub fn count_of_records(alloc: Global, file: &[u8]) -> Result<usize, MapFault> {
    Ok(records(alloc, file)?.len())
}

#[test]
fn every_prefix(rt: HostRuntime) {
    for end in 0..=72 {
        let found = count_of_records(rt.alloc(), &TWO_RECORDS[..end]);
        let wanted = match end {
            0 => Ok(0),
            34 => Ok(1),
            72 => Ok(2),
            _ => Err(MapFault::RecordCut),
        };
        same(&rt, &(end, found), &(end, wanted), "a prefix");
    }
}

/// Whether the records of a file are in these places.
fn has_places(alloc: Global, file: &[u8], places: &[Record]) -> Result<bool, MapFault> {
    let found = records(alloc, file)?;
    Ok(found.as_slice() == places)
}

/// The same of round 2^32 - 1 with no body, and then a body of 65,535 bytes.
fn has_places_of_longest(alloc: Global, places: &[Record]) -> Result<bool, MapFault> {
    let mut file = Vec::new(alloc);
    file.extend_from_slice(&[0xff, 0xff, 0xff, 0xff, 0, 0, 0, 0, 0, 7, 0xff, 0xff])?;
    file.resize(12 + 65_535, 0xaa)?;
    has_places(alloc, &file, places)
}

/// The places of the two records.
static PLACES: [Record; 2] = [
    Record {
        round: 0,
        from: 6,
        to: 34,
    },
    Record {
        round: 1,
        from: 40,
        to: 72,
    },
];

/// Those of a file with a body of no bytes and one of the most.
static PLACES_OF_LONGEST: [Record; 2] = [
    Record {
        round: u32::MAX,
        from: 6,
        to: 6,
    },
    Record {
        round: 7,
        from: 12,
        to: 65_547,
    },
];

#[test]
fn places_of_bodies(rt: HostRuntime) {
    let alloc = rt.alloc();
    let found = [
        has_places(alloc, &TWO_RECORDS[..34], &PLACES[..1]),
        has_places(alloc, &TWO_RECORDS, &PLACES),
        has_places_of_longest(alloc, &PLACES_OF_LONGEST),
    ];
    same(&rt, &found, &[Ok(true); 3], "places");
    let bodies = [
        decode(alloc, &TWO_RECORDS[6..34]).err(),
        decode(alloc, &TWO_RECORDS[40..]).err(),
    ];
    same(&rt, &bodies, &[None, None], "bodies");
}
