ghost use Rattle.std.specs.Prelude.{◌≡◌, ◌+◌, ◌<◌, ◌≤◌, length, flat_map, IfOk};
ghost use Rattle.std.specs.List.{AllByRecursion};
ghost use Rattle.us_intake.specs.Seats.{new_seat, seat_after_split, spent};
ghost use Rattle.us_requests.specs.Traces.{max_asks};
ghost use Rattle.us_replay.specs.Collecting.{AreAsks, IsChunk, chunk_quota, joined_seats};

use super::submitting::Chunk;
use std::alloc::Global;
use us_intake::{Intake, Seat};
use us_requests::Ask;
use us_slots::NoMemory;

/// The most bytes of an ask: 65,535 units of 16 bytes.
const MAX_ASK: u64 = 1_048_560;

/// Divides asks into so many chunks that stand side by side, none of them much longer than another, and splits a seat
/// off for each. What is left of the seat comes first.
pub(crate) fn split_all<'a>(
    alloc: Global,
    intake: &Intake,
    seat: Seat,
    asks: &'a [Ask],
    parts: usize,
) -> Result<(Seat, Vec<Chunk<'a>>), NoMemory>
    requires own { seat.intake ≡ intake.now }
    requires some { 1 ≤ parts }
    requires parts { parts ≤ length asks.now }
    requires asks { AreAsks intake.now.clusters asks.now }
    requires few { length asks.now ≤ max_asks }
    requires room { spent seat + chunk_quota asks.now < seat.quota }
    ensures rest { IfOk result (λ both. both.0 ≡ seat_after_split seat (chunk_quota asks.now)) }
    ensures count { IfOk result (λ both. length both.1.items ≡ parts) }
    ensures whole { IfOk result (λ both. flat_map (λ item. item.1.now) both.1.items ≡ asks.now) }
    ensures chunks { IfOk result (λ both. AllByRecursion (λ item. IsChunk intake.now item.0 item.1.now) both.1.items) }
{
    let mut chunks = Vec::with_capacity(alloc, parts)?;
    let mut seat = seat;
    let mut rest = asks;
    let mut left = parts;
    while left > 0 {
        let (chunk, behind) = rest.split_at(rest.len() / left);
        let (kept, new) = split_off(alloc, intake, seat, chunk);
        chunks.push_reserved((new, chunk));
        seat = kept;
        rest = behind;
        left -= 1;
    }
    Ok((seat, chunks))
}

/// Splits a seat off for a chunk. It needs no memory.
fn split_off(alloc: Global, intake: &Intake, seat: Seat, chunk: &[Ask]) -> (Seat, Seat)
    requires own { seat.intake ≡ intake.now }
    requires some { 1 ≤ length chunk.now }
    requires few { length chunk.now ≤ max_asks }
    requires room { spent seat + chunk_quota chunk.now < seat.quota }
    ensures rest { result.0 ≡ seat_after_split seat (chunk_quota chunk.now) }
    ensures new { result.1 ≡ new_seat intake.now (chunk_quota chunk.now) }
{
    match intake.split(alloc, seat, MAX_ASK * chunk.len() as u64) {
        Ok(both) => both,
        Err(_) => unreachable!(),
    }
}

/// Makes a seat and those that were split off it one again.
pub(crate) fn join_all(intake: &Intake, seat: Seat, others: Vec<Seat>) -> Seat
    requires own { seat.intake ≡ intake.now }
    requires others { AllByRecursion (λ other. other.intake ≡ intake.now) others.items }
    ensures { result ≡ joined_seats seat others.items }
{
    let mut seat = seat;
    let mut rest = others.into_iter();
    while let Some(other) = rest.next() {
        seat = intake.join(seat, other);
    }
    seat
}
