ghost use Rattle.std.specs.Prelude.{◌≡◌, ◌+◌, ◌<◌, ◌≤◌, ◌++◌, List, [], IfOk, IsSome, Some, length, vec_capacity};
ghost use Rattle.us_holes.specs.Boards as spec;
ghost use Rattle.us_holes.specs.Lists as lists;
ghost use Rattle.us_holes.specs.Runs as runs;

use crate::assignments::Assignment;
use crate::boards::{MAX_ASSIGNMENTS, MAX_MINISLOTS};
use crate::owners::Owner;
use std::alloc::Global;
use std::marker::Model;
use us_slots::NoMemory;

/// The assignments of a board, by start. None of them moves when one more is put among them, since at the first minislot of
/// each is noted where it stands.
#[derive(Drop)]
pub(crate) struct Assignments {
    // in the order in which they were put
    placed: Vec<Assignment>,

    // the place of the assignment that begins at a minislot; where none does, any number
    numbers: Vec<u8>,
}

impl Model for Assignments {
    ghost Value = { List spec.Assignment };

    ghost view = { λ a. lists.by_start a.placed.items };

    ghost invariant = { λ a. lists.AreKept a.placed.items a.numbers.items
        × (spec.max_assignments ≤ vec_capacity a.placed) };
}

impl Assignments {
    /// None, and room for as many as there may be.
    pub(crate) fn new(alloc: Global) -> Result<Assignments, NoMemory>
        ensures { IfOk result (λ assigned. assigned ≡ []) }
    {
        let placed = Vec::with_capacity(alloc, MAX_ASSIGNMENTS as usize)?;
        let numbers = vec![in alloc; 0u8; MAX_MINISLOTS as usize]?;
        Ok(Assignments { placed, numbers })
    }

    /// How many there are.
    pub(crate) fn len(&self) -> usize
        ensures { result ≡ length self.now }
    {
        self.placed.len()
    }

    /// Takes all away.
    pub(crate) fn clear(&mut self)
        ensures { self.new ≡ [] }
    {
        self.placed.clear();
    }

    /// Puts an assignment among the others. It needs no memory.
    pub(crate) fn put(&mut self, one: Assignment)
        requires few { length self.old < spec.max_assignments }
        requires order { runs.InOrder 0 (lists.put one self.old) spec.max_minislots }
        ensures { self.new ≡ lists.put one self.old }
    {
        self.numbers[one.start() as usize] = self.placed.len() as u8;
        self.placed.push_reserved(one);
    }

    /// Puts an assignment behind the others, if it has a minislot. It needs no memory.
    pub(crate) fn put_some(&mut self, start: u32, slots: u32, owner: Owner)
        requires few { length self.old < spec.max_assignments }
        requires inside { start + slots ≤ spec.max_minislots }
        requires order { runs.InOrder 0 (self.old ++ lists.one_from start slots owner) spec.max_minislots }
        ensures { self.new ≡ self.old ++ lists.one_from start slots owner }
    {
        if slots > 0 {
            self.put(Assignment::new(start, slots, owner));
        }
    }

    /// Lent for a walk along them: as they were put, and the place of each by the minislot at which it begins.
    pub(crate) fn lent(&self) -> (&[Assignment], &[u8])
        ensures value { lists.by_start result.0.now ≡ self.now }
        ensures kept { lists.AreKept result.0.now result.1.now }
    {
        (&self.placed, &self.numbers)
    }
}

/// The one of these assignments that begins at a minislot, where one does.
#[inline(always)]
pub(crate) fn beginning_at(placed: &[Assignment], numbers: &[u8], start: u32) -> Assignment
    requires kept { lists.AreKept placed.now numbers.now }
    requires inside { start < spec.max_minislots }
    requires there { IsSome (lists.beginning start (lists.by_start placed.now)) }
    ensures { Some result ≡ lists.beginning start (lists.by_start placed.now) }
{
    placed[numbers[start as usize] as usize]
}
