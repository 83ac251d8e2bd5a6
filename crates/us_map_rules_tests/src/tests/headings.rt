use super::base::{heading_of, same};
use std::alloc::{AllocError, Global};
use us_reports::Place;
use us_slots::NoMemory;

/// The channels of the run, in the order of its table.
const CHANNELS: [u8; 2] = [5, 2];

/// Its MAPs, each as its round and its channel.
const MAPS: [(u8, u8); 4] = [(0, 5), (0, 2), (1, 5), (1, 2)];

/// The maps file of MAPs without grants, of rounds 0 and 1.
fn file_of(alloc: Global, maps: &[(u8, u8)]) -> Result<Vec<u8>, AllocError> {
    let mut file = Vec::new(alloc);
    for (round, channel) in maps {
        let (start, ack) = if *round == 0 { (0, 0) } else { (160, 80) };
        file.extend_from_slice(&[
            0, 0, 0, *round, 0, 28, *channel, 0, 3, 0, 0, 0, 0, start, 0, 0, 0, ack, 2, 6, 3, 8,
        ])?;
        file.extend_from_slice(&[0xff, 0xfc, 0x40, 0, 0xff, 0xfc, 0x40, 150, 0, 1, 0xc0, 160])?;
    }
    Ok(file)
}

/// The number of the first of these MAPs that isn't that of the run.
fn number_of(alloc: Global, maps: &[(u8, u8)]) -> Result<Option<u64>, NoMemory> {
    let file = file_of(alloc, maps)?;
    match heading_of(alloc, &CHANNELS, &file)? {
        Ok(
            Some(
                Place {
                    round: 0,
                    channel: 0,
                    third,
                },
            ),
        ) => Ok(Some(third)),
        Ok(None) => Ok(None),
        _ => Ok(Some(u64::MAX)),
    }
}

/// A MAP that is missing is told by its number, which is that behind the last one.
#[test]
fn missing(rt: HostRuntime) {
    for count in 0..=4 {
        let found = number_of(rt.alloc(), &MAPS[..count]);
        let wanted = if count < 4 { Some(count as u64) } else { None };
        same(&rt, &found, &Ok(wanted), "a front");
    }
}

/// MAPs, and the number of the first that isn't that of the run.
static CASES: [(&[(u8, u8)], u64); 5] = [
    // by number of the channel
    (&[(0, 2), (0, 5), (1, 2), (1, 5)], 0),
    // by channel, and then by round
    (&[(0, 5), (1, 5), (0, 2), (1, 2)], 1),
    // one twice, and one more in the place of another
    (&[(0, 5), (0, 2), (0, 2), (1, 5)], 2),
    (&[(0, 5), (0, 2), (1, 5), (1, 7)], 3),
    // one too many
    (&[(0, 5), (0, 2), (1, 5), (1, 2), (1, 2)], 4),
];

#[test]
fn others(rt: HostRuntime) {
    for (maps, wanted) in CASES {
        same(
            &rt,
            &number_of(rt.alloc(), maps),
            &Ok(Some(wanted)),
            "other MAPs",
        );
    }
}
