ghost use Rattle.std.specs.Prelude.{◌<◌};

use crate::{Board, Owner, Placed, Run};
use std::alloc::Global;
use std::process::Abort;
use us_slots::Iuc;

/// The one assertion of these tests, since each costs the proof of the function that it stands in.
pub fn same(rt: &impl Abort, found: usize, wanted: usize) {
    assert_eq!(rt; found, wanted);
}

/// A window of starts, how many minislots, and a SID.
pub type Wish = ((u32, u32), u32, u16);

/// Minislots side by side: the first, how many there are, and the SID that they are assigned to.
pub type Triple = (u32, u32, Option<u16>);

/// What a board tells after a wish: the answer, how many minislots are idle, the longest run of them, and the runs.
pub type Told<'a> = (Placed, u32, Option<(u32, u32)>, &'a [Triple]);

/// A request of this SID.
fn request(sid: u16) -> Owner
    requires { sid < 16384 }
{
    Owner::new(sid, Iuc::request())
}

/// Places what is wished for, as a request. A wish that is out of range is answered as no other: at the last number.
pub fn place(board: &mut Board, wish: Wish) -> Placed {
    let ((from, to), slots, sid) = wish;
    if from > to || to >= board.len() || slots == 0 || sid >= 16_384 {
        return Placed::At(u32::MAX, u32::MAX);
    }
    board.place_earliest(from, to, slots, request(sid))
}

/// A run as numbers.
fn triple_of(run: &Run) -> Triple {
    (run.start(), run.len(), run.owner().map(|owner| owner.sid()))
}

/// Whether these are the runs of a board.
fn are_runs(alloc: Global, board: &Board, wanted: &[Triple]) -> bool {
    match board.runs(alloc) {
        Ok(runs) => runs.iter().map(triple_of).eq(wanted.iter().copied()),
        Err(_) => false,
    }
}

/// Whether a board tells this after it gave an answer.
pub fn is_told(alloc: Global, board: &Board, answer: Placed, wanted: &Told) -> bool {
    let (placed, idle, longest, runs) = wanted;
    answer == *placed
        && board.free_count() == *idle
        && board.longest() == *longest
        && are_runs(alloc, board, runs)
}
