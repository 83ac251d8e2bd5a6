ghost use Rattle.std.specs.Prelude.{◌≡◌, ◌<◌, ◌≤◌, ◌∷◌, List, [], IfSome, IfNone, drop};
ghost use Rattle.us_holes.specs.Boards as boards;
ghost use Rattle.us_holes.specs.Lists as lists;
ghost use Rattle.us_holes.specs.Runs as spec;

use crate::assignments::Assignment;
use crate::holes::Hole;
use crate::placed::beginning_at;
use crate::runs::Run;
use std::marker::Model;

/// A walk along a board, from its first minislot to behind its last. It hands out one run after another, without a list
/// of them: where a run ends, a hole begins or an assignment does.
#[derive(Drop)]
pub struct RunWalk<'a> {
    // the assignments as they were put, and the place of each by the minislot at which it begins
    placed: &'a [Assignment],
    numbers: &'a [u8],
    holes: &'a [Hole],
    len: u32,

    // where the next run begins
    from: u32,

    // the number of the next hole, and where it begins; `len` where there is none
    next: usize,
    idle_from: u32,
}

impl<'a> Model for RunWalk<'a> {
    ghost Value = { List spec.Run };

    ghost view = { λ w. lists.runs_left w.placed.now w.from w.len };

    ghost invariant = { λ w.
        lists.IsWalk w.placed.now w.numbers.now w.holes.now w.len w.from w.next w.idle_from };
}

/// Where the hole of a number begins; `len` where there is none.
fn start_of(holes: &[Hole], number: usize, len: u32) -> u32
    ensures { result ≡ lists.first_start (drop number holes.now) len }
{
    if number < holes.len() {
        holes[number].start()
    } else {
        len
    }
}

impl<'a> RunWalk<'a> {
    /// The walk along a board of `len` minislots with these assignments and the holes between them.
    pub(crate) fn along(
        placed: &'a [Assignment],
        numbers: &'a [u8],
        holes: &'a [Hole],
        len: u32,
    ) -> RunWalk<'a>
        requires kept { lists.AreKept placed.now numbers.now }
        requires most { len ≤ boards.max_minislots }
        requires order { spec.InOrder 0 (lists.by_start placed.now) len }
        requires between { holes.now ≡ lists.holes_of 0 (lists.by_start placed.now) len }
        ensures { result ≡ spec.runs_between 0 (lists.by_start placed.now) len }
    {
        RunWalk {
            placed,
            numbers,
            holes,
            len,
            from: 0,
            next: 0,
            idle_from: start_of(holes, 0, len),
        }
    }

    /// The next run, `None` behind the last. It is small, and made where it is used: so no run is put together that its
    /// user takes apart.
    #[inline(always)]
    pub fn next(&mut self) -> Option<Run>
        ensures some { IfSome result (λ run. self.old ≡ run ∷ self.new) }
        ensures none { IfNone result (self.old ≡ []) }
        ensures ended { IfNone result (self.new ≡ []) }

        // A run begins inside a board.
        ensures inside { IfSome result (λ run. run.start < boards.max_minislots) }
    {
        if self.from < self.idle_from {
            let one = beginning_at(self.placed, self.numbers, self.from);
            self.from += one.slots();
            return Some(Run::of(one));
        }
        if self.next >= self.holes.len() {
            return None;
        }
        let hole = self.holes[self.next];
        self.from = hole.end();
        self.next += 1;
        self.idle_from = start_of(self.holes, self.next, self.len);
        Some(Run::idle(hole))
    }
}
