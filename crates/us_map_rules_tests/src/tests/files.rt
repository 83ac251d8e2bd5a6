use super::base::{STORED, heading_of, same};
use std::alloc::Global;
use us_map_rules::MapsFault;
use us_reports::Place;
use us_slots::NoMemory;

/// The number of the first MAP that isn't that of the stored run, which is of one channel.
fn number_of(alloc: Global, file: &[u8]) -> Result<Result<Option<u64>, MapsFault>, NoMemory> {
    Ok(heading_of(alloc, &[1], file)?.map(|first| first.map(|place| place.third)))
}

/// A front of a file is one only where it ends behind a record.
#[test]
fn every_prefix(rt: HostRuntime) {
    for end in 0..=72 {
        let found = number_of(rt.alloc(), &STORED[..end]);
        let wanted = match end {
            0 => Ok(Some(0)),
            34 => Ok(Some(1)),
            72 => Ok(None),
            _ => Err(MapsFault {
                record: if end < 34 { 0 } else { 1 },
            }),
        };
        same(&rt, &(end, found), &(end, Ok(wanted)), "a prefix");
    }
}

/// What is answered of the stored file with the lowest bit of a byte changed: `R` that its record is none, `H` that its MAP
/// isn't that of the run, and `.` nothing, for a SID, an IUC or an offset before the Null.
static ANSWERS: [u8; 72] =
    *b"HHHHRRHHRRHHHHHHHHHHHH..RR..R.RRHHHHHHRRHHRRHHHHHHHHHHHH..RR..R...R.RRHH";

/// The answer of these for a byte in this place.
fn with_byte(alloc: Global, place: usize) -> u8 {
    let mut file = STORED;
    if let Some(changed) = file.get_mut(place) {
        *changed ^= 1;
    }
    let number = if place < 34 { 0 } else { 1 };
    let there = Place {
        round: 0,
        channel: 0,
        third: number,
    };
    match heading_of(alloc, &[1], &file) {
        Ok(Ok(None)) => b'.',
        Ok(Ok(first)) if first == Some(there) => b'H',
        Ok(Err(fault)) if fault.record == number => b'R',
        _ => b'?',
    }
}

#[test]
fn every_byte(rt: HostRuntime) {
    for (place, wanted) in ANSWERS.iter().enumerate() {
        let found = with_byte(rt.alloc(), place);
        same(&rt, &(place, found), &(place, *wanted), "a byte");
    }
}

#[test]
fn text_of_a_maps_fault(rt: HostRuntime) {
    let text = format!(in rt.alloc(); "{}", MapsFault { record: 4 });
    let wanted = "record 4 is none of a maps file";
    same(
        &rt,
        &text.is_ok_and(|text| text.as_str() == wanted),
        &true,
        "a fault",
    );
}
