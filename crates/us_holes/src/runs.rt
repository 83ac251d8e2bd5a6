ghost use Rattle.std.specs.Prelude.{◌≡◌};
ghost use Rattle.us_holes.specs.Lists as lists;
ghost use Rattle.us_holes.specs.Runs as spec;

use crate::assignments::Assignment;
use crate::holes::Hole;
use crate::owners::Owner;
use std::marker::Model;

/// A run: minislots side by side that one assignment holds, or that are idle, as many as there are.
#[derive(Clone, Copy)]
pub struct Run {
    start: u32,
    len: u32,
    owner: Option<Owner>,
}

impl Model for Run {
    ghost Value = { spec.Run };

    ghost view = { λ r. record { start = r.start; len = r.len; owner = r.owner } };

    ghost inverse = { λ r. record { start = r.start; len = r.len; owner = r.owner } };
}

impl Run {
    /// The first minislot.
    pub fn start(self) -> u32
        ensures { result ≡ self.start }
    {
        self.start
    }

    /// How many minislots there are.
    pub fn len(self) -> u32
        ensures { result ≡ self.len }
    {
        self.len
    }

    /// Whose they are; `None` where they are idle.
    pub fn owner(self) -> Option<Owner>
        ensures { result ≡ self.owner }
    {
        self.owner
    }
}

impl Run {
    /// The run of an assignment.
    pub(crate) fn of(one: Assignment) -> Run
        ensures { result ≡ spec.run_of one }
    {
        Run {
            start: one.start(),
            len: one.slots(),
            owner: Some(one.owner()),
        }
    }

    /// The run of a hole.
    pub(crate) fn idle(hole: Hole) -> Run
        ensures { result ≡ lists.run_of_hole hole }
    {
        Run {
            start: hole.start(),
            len: hole.slots(),
            owner: None,
        }
    }
}
