ghost use Rattle.std.specs.Prelude.{◌≡◌, ◌+◌, ◌-◌, ◌<◌, ◌≤◌, max, drop, length, slice_index_or, IfOk, vec_len, vec_capacity};
ghost use Rattle.std.specs.List.{insert, remove};
ghost use Rattle.us_holes.specs.Boards as spec;
ghost use Rattle.us_holes.specs.Lists as lists;

use crate::boards::MAX_ASSIGNMENTS;
use crate::shifting;
use std::alloc::Global;
use std::marker::Model;
use us_slots::NoMemory;

/// A hole: idle minislots between held ones, or the ends of the board.
#[derive(Clone, Copy)]
pub(crate) struct Hole {
    start: u16,
    end: u16,
}

impl Model for Hole {
    ghost use Rattle.std.specs.Prelude.{◌≡◌, ◌+◌, ◌-◌, ◌≤◌};
    ghost use Rattle.std.proofs.Common.{arith};
    ghost use Rattle.us_holes.specs.Boards as spec;
    ghost use Rattle.us_holes.specs.Lists as lists;

    ghost Value = { lists.Hole };

    ghost view = { λ h. lists.hole_from h.start h.end };

    ghost invariant = { λ h. (h.start ≤ h.end) × (h.end ≤ spec.max_minislots) };

    ghost inverse = { λ h. record { start = h.start; end = lists.hole_end h } };

    ghost inverse_ok = { λ h known.
        let end : h.start + (h.end - h.start) ≡ h.end = omega (arith, known.0) in
        λ i. record { start = h.start; end = end i } };
}

impl Hole {
    /// The hole from `from` on that ends before `to`.
    pub(crate) fn between(from: u32, to: u32) -> Hole
        requires order { from ≤ to }
        requires inside { to ≤ spec.max_minislots }
        ensures { result ≡ lists.hole_from from to }
    {
        Hole {
            start: from as u16,
            end: to as u16,
        }
    }

    /// Its first minislot.
    pub(crate) fn start(self) -> u32
        ensures { result ≡ self.start }
    {
        self.start as u32
    }

    /// How many minislots it has.
    pub(crate) fn slots(self) -> u32
        ensures { result ≡ self.slots }
    {
        self.end() - self.start()
    }

    /// The minislot behind it.
    pub(crate) fn end(self) -> u32
        ensures value { result ≡ lists.hole_end self }
        ensures inside { lists.hole_end self ≤ spec.max_minislots }
    {
        self.end as u32
    }
}

/// The most holes of a board: one more than assignments.
pub(crate) const MAX_HOLES: usize = MAX_ASSIGNMENTS as usize + 1;

/// The one hole of an idle board of `len` minislots, and room for as many holes as a board may have.
pub(crate) fn whole(alloc: Global, len: u32) -> Result<Vec<Hole>, NoMemory>
    requires some { 1 ≤ len }
    requires most { len ≤ spec.max_minislots }
    ensures items { IfOk result (λ holes. holes.items ≡ lists.hole_in 0 len) }
    ensures room { IfOk result (λ holes. spec.max_assignments + 1 ≤ vec_capacity holes) }
{
    let mut holes = Vec::with_capacity(alloc, MAX_HOLES)?;
    holes.push(Hole::between(0, len))?;
    Ok(holes)
}

/// Makes it the one hole from `from` on that ends before `to`, if it has a minislot. It needs no memory.
pub(crate) fn refill(holes: &mut Vec<Hole>, from: u32, to: u32)
    requires order { from ≤ to }
    requires most { to ≤ spec.max_minislots }
    requires room { 1 ≤ vec_capacity holes.old }
    ensures items { holes.new.items ≡ lists.hole_in from to }
    ensures capacity { vec_capacity holes.old ≤ vec_capacity holes.new }
{
    holes.clear();
    if from < to {
        holes.push_reserved(Hole::between(from, to));
    }
}

/// How many of the first holes are passed four by four, since the last of four ends before `slots` minislots from `from` on
/// do, and so do those before it.
fn passed_by_four(holes: &[Hole], from: u32, to: u32, slots: u32) -> usize
    requires { lists.AreApart 0 holes.now }
    ensures value { lists.fit result from to slots (drop result holes.now) ≡ lists.fit 0 from to slots holes.now }
    ensures inside { result ≤ length holes.now }
{
    // few are passed sooner one by one
    if holes.len() < 8 {
        return 0;
    }
    let least = from as u64 + slots as u64;
    let mut at = 0;
    while at + 4 <= holes.len() && (holes[at + 3].end() as u64) < least {
        at += 4;
    }
    at
}

/// How many of the first holes end before `slots` minislots from `from` on do, so that none has room in the window.
#[tactic(auto, unfolding(crate::specs::Lists::fit), using(crate::proofs::HoleLemmas::ends_early))]
fn passed(holes: &[Hole], from: u32, to: u32, slots: u32) -> usize
    requires { lists.AreApart 0 holes.now }
    ensures { lists.fit result from to slots (drop result holes.now) ≡ lists.fit 0 from to slots holes.now }
{
    let least = from as u64 + slots as u64;
    for i in passed_by_four(holes, from, to, slots)..holes.len() {
        let one = holes[i];
        if one.end() as u64 >= least {
            return i;
        }
    }
    holes.len()
}

/// The first hole where `slots` minislots fit from a start from `from` to `to` on: its place, and the least such start.
#[tactic(auto, unfolding(crate::specs::Lists::fit))]
pub(crate) fn earliest(holes: &[Hole], from: u32, to: u32, slots: u32) -> Option<(usize, u32)>
    requires { lists.AreApart 0 holes.now }
    ensures { result ≡ lists.fit 0 from to slots holes.now }
{
    for i in passed(holes, from, to, slots)..holes.len() {
        let hole = holes[i];
        let start = from.max(hole.start());
        if start > to {
            // those behind it begin later yet
            return None;
        }
        if start as u64 + slots as u64 <= hole.end() as u64 {
            return Some((i, start));
        }
    }
    None
}

/// Gives the last hole up, and puts one at a place: those from there on move one further.
fn put_for_last(holes: &mut [Hole], place: usize, hole: Hole)
    requires { place < length holes.old }
    ensures { holes.new ≡ insert (remove holes.old (length holes.old - 1)) place hole }
{
    let mut at = holes.len() - 1;
    while at > place {
        let other = holes[at - 1];
        holes[at] = other;
        at -= 1;
    }
    holes[at] = hole;
}

/// Puts a hole at a place, and moves those from there on one further. It needs no memory.
fn put_at(holes: &mut Vec<Hole>, place: usize, hole: Hole)
    requires place { place ≤ vec_len holes.old }
    requires room { vec_len holes.old < vec_capacity holes.old }
    ensures items { holes.new.items ≡ insert holes.old.items place hole }
    ensures capacity { vec_capacity holes.old ≤ vec_capacity holes.new }
{
    // mostly few stand behind it: to move them one by one costs less than to have a block of memory moved
    holes.push_reserved(hole);
    put_for_last(holes.as_mut_slice(), place, hole);
}

/// Takes the `slots` minislots from `start` on out of the hole at a place. It needs no memory.
pub(crate) fn narrow(holes: &mut Vec<Hole>, place: usize, hole: Hole, start: u32, slots: u32)
    requires place { place < vec_len holes.old }
    requires there { hole ≡ slice_index_or holes.old.items place hole }
    requires room { vec_len holes.old < vec_capacity holes.old }
    requires inside { start + slots ≤ lists.hole_end hole }
    ensures items { holes.new.items ≡ lists.narrowed_at place start slots holes.old.items }
    ensures capacity { vec_capacity holes.old ≤ vec_capacity holes.new }
{
    let (first, last) = (hole.start(), hole.end());
    let end = start + slots;
    if first < start {
        holes[place] = Hole::between(first, start);
        if end < last {
            put_at(holes, place + 1, Hole::between(end, last));
        }
    } else if end < last {
        holes[place] = Hole::between(end, last);
    } else {
        shifting::take_out(holes, place);
    }
}
