use super::base::{place_of, same};
use std::alloc::{AllocError, Global};
use us_reports::Place;
use us_round::{EntryWord, FinalActivity, FinalState, Grant, MissedOccurrence, Row, TraceCounts};
use us_slots::NoMemory;

/// The channels of the run of 2 rounds, in the order of its table.
const CHANNELS: [u8; 2] = [5, 2];

/// The G line of a grant without any more in it.
fn grant_at(round: u64, channel: u64) -> Row {
    Row::Granted(Grant {
        round,
        channel,
        entry: EntryWord::Requested,
        id: 0,
        i: 0,
        k: 0,
        sid: 0,
        iuc: 0,
        start: 0,
        slots: 0,
        credit: 0,
    })
}

/// An M line.
fn missed_at(round: u64, channel: u64) -> Row {
    Row::Missed(MissedOccurrence {
        round,
        channel,
        entry: EntryWord::Station,
        id: 0,
        i: 0,
        k: 0,
    })
}

/// The lines that a report ends with, which are of no round.
const ENDS: [Row; 3] = [
    Row::Final(FinalState {
        flow: 9,
        cluster: 0,
        outstanding: 0,
        units: None,
    }),
    Row::Activity(FinalActivity { flow: 9, active: 9 }),
    Row::Counts(TraceCounts {
        unknown: 9,
        not_requestable: 9,
        late: 9,
    }),
];

/// Lines of these places, by turns of both kinds, and the last lines behind them.
fn lines_at(alloc: Global, places: &[(u64, u64)]) -> Result<Vec<Row>, AllocError> {
    let mut lines = Vec::new(alloc);
    for (turn, (round, channel)) in places.iter().enumerate() {
        lines.push(if turn % 2 == 0 {
            grant_at(*round, *channel)
        } else {
            missed_at(*round, *channel)
        })?;
    }
    lines.extend_from_slice(&ENDS)?;
    Ok(lines)
}

/// The first of these places that the run lacks.
fn first_of(alloc: Global, places: &[(u64, u64)]) -> Result<Option<Place>, NoMemory> {
    let lines = lines_at(alloc, places)?;
    place_of(alloc, &CHANNELS, &lines)
}

/// The places of lines, and the round and the channel of the first that the run lacks.
static CASES: [(&[(u64, u64)], Option<(u64, u64)>); 9] = [
    (&[], None),
    (&[(0, 5), (0, 2), (1, 5), (1, 2)], None),
    // past the last round
    (&[(2, 5)], Some((2, 5))),
    (&[(0, 5), (u64::MAX, 2)], Some((u64::MAX, 2))),
    // of another channel, 0 before all and the others by number
    (&[(1, 9), (1, 7), (1, 261)], Some((1, 7))),
    (&[(1, 7), (1, 0)], Some((1, 0))),
    // by round, and then in the order of the table
    (&[(3, 5), (2, 2), (2, 5), (2, 7)], Some((2, 5))),
    (&[(2, 0), (1, u64::MAX)], Some((1, u64::MAX))),
    // the second of both kinds
    (&[(0, 5), (0, 7), (0, 7)], Some((0, 7))),
];

#[test]
fn places(rt: HostRuntime) {
    for (places, wanted) in CASES {
        let wanted = wanted.map(|(round, channel)| Place {
            round,
            channel,
            third: 0,
        });
        same(&rt, &first_of(rt.alloc(), places), &Ok(wanted), "lines");
    }
}
