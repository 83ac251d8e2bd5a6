ghost use Rattle.std.specs.Prelude.{◌≡◌, ℕ, ◌+◌, ◌*◌, ◌-◌, ◌≤◌, ◌<◌, ◌++◌, max, false, IfOk, OnOk, OnErr, IsOk, IfSome, IfNone, Some, length, vec_len, vec_capacity};
ghost use Rattle.std.specs.List.{flat_map};
ghost use Rattle.us_holes.specs.Boards as spec;
ghost use Rattle.us_holes.specs.Kept.{IsBoard};
ghost use Rattle.us_holes.specs.Lists as lists;
ghost use Rattle.us_holes.specs.Placements as placements;
ghost use Rattle.us_holes.specs.Runs as runs;

use crate::assigning::assign;
use crate::assignments::Assignment;
use crate::holes::{self, Hole};
use crate::owners::Owner;
use crate::placed::Assignments;
use crate::placements::Placed;
use crate::rank_keys::RankKey;
use crate::ranks;
use crate::run_walks::RunWalk;
use crate::runs::Run;
use std::alloc::Global;
use std::marker::Model;
use us_slots::NoMemory;

/// The most minislots of a board (ours): a MAP has at most 4,096 ticks.
pub const MAX_MINISLOTS: u32 = 4_096;

/// The most assignments of a board (ours).
pub const MAX_ASSIGNMENTS: u32 = 100;

/// The board of one MAP: for each minislot the one assignment that holds it, if one does. At most 100 assignments
/// stand, each in minislots side by side.
#[derive(Drop)]
pub struct Board {
    // by start, where their value is told; they stand as they came
    assigned: Assignments,

    // what is idle between them, by start, and the same again, the longest first
    holes: Vec<Hole>,
    ranked: Vec<RankKey>,

    // how many minislots there are, and how many of them are idle
    len: u32,
    free: u32,
}

impl Model for Board {
    ghost Value = { spec.Board };

    ghost view = { λ b. lists.board_of b.assigned b.len };

    ghost invariant = { λ b. lists.AreLists b.assigned b.holes.items b.ranked.items b.len b.free
        × lists.HaveRoom (vec_capacity b.holes) (vec_capacity b.ranked) };
}

impl Board {
    /// A board of `len` idle minislots, 1 to 4,096.
    #[tactic(auto, using(crate::proofs::KeptLemmas::empty_facts))]
    pub fn new(alloc: Global, len: u32) -> Result<Board, NoMemory>
        requires some { 1 ≤ len }
        requires most { len ≤ MAX_MINISLOTS }
        ensures { IfOk result (λ board. board ≡ spec.empty_board len) }
    {
        let assigned = Assignments::new(alloc)?;
        let holes = holes::whole(alloc, len)?;
        let ranked = ranks::whole(alloc, len)?;
        Ok(Board {
            assigned,
            holes,
            ranked,
            len,
            free: len,
        })
    }

    /// Clears the board, and gives its first `head` minislots to `first` and its last `tail` to `last`, each as one
    /// assignment; none are no assignment. It needs no memory.
    pub fn reserve_ends(&mut self, head: u32, first: Owner, tail: u32, last: Owner)
        requires room { head + tail ≤ length self.old.cells }
        ensures board { self.new ≡ spec.ends_held (length self.old.cells) head first tail last }
        ensures len { length self.new.cells ≡ length self.old.cells }
    {
        let to = self.len - tail;
        self.assigned.clear();
        self.assigned.put_some(0, head, first);
        self.assigned.put_some(to, tail, last);
        holes::refill(&mut self.holes, head, to);
        ranks::refill(&mut self.ranked, head, to);
        self.free = to - head;
    }

    /// Assigns `slots` minislots to `owner` at the earliest start from `from` to `to` where so many are idle. A board
    /// that is full is told before one that has no room. It needs no memory.
    #[tactic(auto, using(crate::proofs::FitLemmas::full_facts))]
    pub fn place_earliest(&mut self, from: u32, to: u32, slots: u32, owner: Owner) -> Placed
        requires window { from ≤ to }
        requires inside { to < length self.old.cells }
        requires some { 1 ≤ slots }
        ensures value { result ≡ placements.placed self.old from to slots }
        ensures board { self.new ≡ placements.after_placing self.old owner result }
        ensures len { length self.new.cells ≡ length self.old.cells }
        ensures says { placements.Says self.old from to slots result }
    {
        if self.is_full() {
            return Placed::Full;
        }
        match holes::earliest(&self.holes, from, to, slots) {
            Some((place, start)) => {
                let one = Assignment::new(start, slots, owner);
                assign(
                    &mut self.assigned,
                    &mut self.holes,
                    &mut self.ranked,
                    place,
                    one,
                );
                self.free -= slots;
                Placed::At(start, slots)
            }
            None => Placed::NoRoom,
        }
    }

    /// The longest run of idle minislots, the first of several: its start and how many they are. `None` where no
    /// minislot is idle.
    pub fn longest(&self) -> Option<(u32, u32)>
        ensures longest { IfSome result (λ found. spec.IsFirstLongest self.now.cells found.0 found.1) }
        ensures none { IfNone result
            ((start slots : ℕ) → 0 < slots → spec.is_idle_at self.now.cells slots start ≡ false) }
        ensures value { result ≡ spec.longest_idle self.now.cells }
    {
        ranks::first(&self.ranked)
    }

    /// How many minislots are idle.
    pub fn free_count(&self) -> u32
        ensures { result ≡ spec.free_count self.now.cells }
    {
        self.free
    }

    /// How many minislots there are, 1 to 4,096.
    pub fn len(&self) -> u32
        ensures value { result ≡ length self.now.cells }
        ensures known { IsBoard self.now }

        // The limits that conditions and docs name.
        ensures limits { (MAX_MINISLOTS ≡ 4096) × (MAX_ASSIGNMENTS ≡ 100) }
    {
        self.len
    }

    /// Whether there are as many assignments as there may be. There may be idle minislots yet.
    pub fn is_full(&self) -> bool
        ensures { result ≡ spec.is_full self.now }
    {
        self.assigned.len() >= MAX_ASSIGNMENTS as usize
    }

    /// The runs of minislots with one holder, in order: one for each assignment, and one for each gap.
    pub fn runs(&self, alloc: Global) -> Result<Vec<Run>, NoMemory>
        ensures value { IfOk result (λ found. found.items ≡ runs.runs_of self.now.cells) }

        // They follow on from the first minislot to the last, hold all that the board tells, and are as long as they
        // can be; and there are at most twice as many as assignments, and one.
        ensures follow { runs.FollowOn 0 (length self.now.cells) (runs.runs_of self.now.cells) }
        ensures minislots { flat_map runs.minislots_of (runs.runs_of self.now.cells) ≡ self.now.cells }
        ensures differ { runs.Differ (runs.runs_of self.now.cells) }
        ensures few { length (runs.runs_of self.now.cells) ≤ 2 * self.now.standing + 1 }

        // The list has room for so many, and no more.
        ensures room { IfOk result (λ found. vec_capacity found ≡ 2 * self.now.standing + 1) }
    {
        let mut found = Vec::new(alloc);
        self.push_runs(&mut found)?;
        Ok(found)
    }

    /// Puts the runs behind what a list has, as `runs` gives them. Where the list has room for two an assignment and one
    /// more, no memory is taken.
    #[tactic(auto, using(crate::proofs::RunLemmas::runs_facts))]
    pub fn push_runs(&self, found: &mut Vec<Run>) -> Result<(), NoMemory>
        ensures value { OnOk result (found.new.items ≡ found.old.items ++ runs.runs_of self.now.cells) }
        ensures follow { runs.FollowOn 0 (length self.now.cells) (runs.runs_of self.now.cells) }
        ensures minislots { flat_map runs.minislots_of (runs.runs_of self.now.cells) ≡ self.now.cells }
        ensures differ { runs.Differ (runs.runs_of self.now.cells) }
        ensures few { length (runs.runs_of self.now.cells) ≤ 2 * self.now.standing + 1 }

        // The list gets room for so many, where it hasn't, and no more. Where it has, no memory is wanted.
        ensures room { OnOk result (vec_capacity found.new ≡
            max (vec_capacity found.old) (vec_len found.old + (2 * self.now.standing + 1))) }
        ensures spared { vec_len found.old + (2 * self.now.standing + 1) ≤ vec_capacity found.old → IsOk result }

        // Where memory is wanting, the list is as it was.
        ensures stays { OnErr result (found.new.items ≡ found.old.items) }
        ensures room_stays { OnErr result (vec_capacity found.new ≡ vec_capacity found.old) }
    {
        found.reserve_exact(2 * self.assigned.len() + 1)?;
        let mut walk = self.walk();
        while let Some(run) = walk.next() {
            found.push_reserved(run);
        }
        Ok(())
    }

    /// How many runs there are: one for each assignment, and one for each hole.
    pub fn run_count(&self) -> usize
        ensures value { result ≡ length (runs.runs_of self.now.cells) }
        ensures few { result ≤ 2 * spec.max_assignments + 1 }
    {
        self.assigned.len() + self.holes.len()
    }

    /// The runs, as `runs` gives them, one after another. It needs no memory.
    pub fn walk(&self) -> RunWalk
        ensures value { result ≡ runs.runs_of self.now.cells }
        ensures few { length (runs.runs_of self.now.cells) ≤ 2 * self.now.standing + 1 }
    {
        let (placed, numbers) = self.assigned.lent();
        RunWalk::along(placed, numbers, &self.holes, self.len)
    }
}
