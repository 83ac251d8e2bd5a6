//! Filing once more, by a plain loop over the requests and a table of all SIDs, beside which a trace is laid.

use super::base::{HEADER, Repeated, trace_of};
use std::alloc::{AllocError, Global};
use std::test::Fail;
use us_requests::{Ask, Counts, Trace, TraceFault};
use us_slots::FromRead;

#[test]
fn requests_by_chance_filed(rt: HostRuntime) -> Result<(), Fail> {
    assert!(rt; is_read_as_filed(rt.alloc())?);
    Ok(())
}

/// Reads the requests, and compares their trace with the plain loop.
fn is_read_as_filed(alloc: Global) -> Result<bool, TraceFault> {
    let text = requests_by_chance(alloc)?;
    let reader = Repeated {
        last: text.as_bytes(),
        ..HEADER
    };
    let trace = trace_of(alloc, [320, 160], ROUNDS, &mut FromRead::new(reader))?;
    Ok(is_as_filed(&trace))
}

/// Whose a SID is on a channel, by hand: a cluster's, with its unit, a flow's that makes no requests, or nobody's.
#[derive(Clone, Copy)]
enum Owner {
    Cluster(u16, u32),
    Other,
    Nobody,
}

static OWNERS: [(u8, u16, Owner); 16] = [
    (1, 291, Owner::Cluster(0, 4)),
    (1, 500, Owner::Cluster(3, 16)),
    (1, 501, Owner::Cluster(4, 16)),
    (1, 600, Owner::Cluster(5, 2)),
    (1, 601, Owner::Cluster(6, 2)),
    (1, 700, Owner::Other),
    (2, 800, Owner::Cluster(7, 8)),
    (1, 801, Owner::Cluster(7, 8)),
    (2, 802, Owner::Cluster(8, 8)),
    (1, 803, Owner::Cluster(8, 8)),
    (2, 291, Owner::Cluster(9, 1)),
    (2, 700, Owner::Nobody),
    (1, 800, Owner::Nobody),
    (1, 710, Owner::Other),
    (3, 291, Owner::Nobody),
    (1, 0, Owner::Nobody),
];

/// The rounds of the run.
const ROUNDS: u32 = 6;

/// How many requests are drawn, and by which number the first of them.
const REQUESTS: u32 = 600;

const SEED: u64 = 2_026;

/// Ticks at which rounds start, and one that is late, and how far behind these a request is.
static STARTS: [u32; 8] = [0, 320, 640, 960, 1_280, 1_600, 1_920, 4_294_966_976];

static BEHIND: [u32; 6] = [0, 1, 159, 160, 161, 319];

static UNITS: [u32; 7] = [0, 1, 2, 3, 7, 250, 65_535];

/// A request of a SID of that table.
#[derive(Clone, Copy)]
struct DrawnRequest {
    tick: u32,
    channel: u8,
    sid: u16,
    owner: Owner,
    units: u32,
}

/// A request by the next number of a linear congruential generator.
fn drawn(state: &mut u64) -> DrawnRequest {
    *state = state
        .wrapping_mul(6_364_136_223_846_793_005)
        .wrapping_add(1_442_695_040_888_963_407);
    let number = (*state >> 33) as usize;
    let (channel, sid, owner) = OWNERS[number % 16];
    DrawnRequest {
        tick: STARTS[number / 16 % 8].saturating_add(BEHIND[number / 128 % 6]),
        channel,
        sid,
        owner,
        units: UNITS[number / 768 % 7],
    }
}

/// The text of these requests, at the edges of rounds, and some of them late.
fn requests_by_chance(alloc: Global) -> Result<String, AllocError> {
    let mut text = String::new(alloc);
    let mut state = SEED;
    for _ in 0..REQUESTS {
        let request = drawn(&mut state);
        writeln!(
            text,
            "{},{},{},{}",
            request.tick, request.channel, request.sid, request.units
        )?;
    }
    Ok(text)
}

/// Whether each round of a trace has the asks of a plain loop over the requests, in its order, and the counts are
/// the same. No count is empty, so that each is compared.
fn is_as_filed(trace: &Trace) -> bool {
    let mut state = SEED;
    let mut met = [0usize; 8];
    let mut counts = Counts {
        unknown: 0,
        not_requestable: 0,
        late: 0,
    };
    for _ in 0..REQUESTS {
        let request = drawn(&mut state);
        match (request.owner, plain_round(request.tick)) {
            (Owner::Nobody, _) => counts.unknown = counts.unknown.saturating_add(1),
            (Owner::Other, _) => counts.not_requestable = counts.not_requestable.saturating_add(1),
            (Owner::Cluster(_, _), None) => counts.late = counts.late.saturating_add(1),
            (Owner::Cluster(cluster, unit), Some(round)) => {
                let bytes = request.units.saturating_mul(unit);
                if !is_next(trace, &mut met, round, Ask { cluster, bytes }) {
                    return false;
                }
            }
        }
    }
    let none_empty = counts.unknown > 0 && counts.not_requestable > 0 && counts.late > 0;
    all_met(trace, &met) && none_empty && trace.counts() == counts
}

/// Whether so many asks of each round were met as it has.
fn all_met(trace: &Trace, met: &[usize; 8]) -> bool {
    for round in 0..8u32 {
        if trace.asks(round).len() != met[round as usize] {
            return false;
        }
    }
    true
}

/// Whether this ask stands behind those of its round that were met, among which it is then.
fn is_next(trace: &Trace, met: &mut [usize; 8], round: u32, ask: Ask) -> bool {
    let asks = trace.asks(round);
    let place = round as usize % 8;
    let next = met[place];
    met[place] = next.saturating_add(1);
    next < asks.len() && asks[next] == ask
}

/// The least round that starts no earlier than 160 ticks after a tick, by counting up; none where it is late.
fn plain_round(tick: u32) -> Option<u32> {
    let least = u64::from(tick).saturating_add(160);
    let mut start = 0u64;
    for round in 0..ROUNDS {
        if start >= least {
            return Some(round);
        }
        start = start.saturating_add(320);
    }
    None
}
