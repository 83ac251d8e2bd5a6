ghost use Rattle.std.specs.Prelude.{◌≡◌, ◌+◌, ◌^◌, ◌<◌, min, IfOk, vec_len};

use super::answers::Answered;
use super::turns::in_turn;
use crate::{Gate, Phase, Work};
use std::alloc::Global;
use us_slots::NoMemory;

/// Items that stand side by side, and the work to be done with one after the other. The first has the number `start`.
#[derive(Drop)]
pub(crate) struct Task<W, G, T> {
    pub(crate) alloc: Global,
    pub(crate) work: W,
    pub(crate) gate: G,
    pub(crate) phase: Phase,
    pub(crate) start: usize,
    pub(crate) items: Vec<T>,
}

impl<W: Copy, G: Copy, T> Task<W, G, T> {
    ghost use Rattle.us_crew.specs.Tasks.{IsCut};

    /// Cuts the last `length` items off, or all where there are fewer.
    pub(crate) fn cut_off(&mut self, length: usize) -> Result<Task<W, G, T>, NoMemory>
        requires { self.old.start + vec_len self.old.items < 2 ^ 64 }
        ensures cut { IfOk result (λ last. IsCut self.old self.new last) }
        ensures part { IfOk result (λ last. vec_len last.items ≡ min length (vec_len self.old.items)) }
    {
        let kept = self.items.len().saturating_sub(length);
        let items = self.items.split_off(kept)?;
        Ok(Task {
            alloc: self.alloc,
            work: self.work,
            gate: self.gate,
            phase: self.phase,
            start: self.start + kept,
            items,
        })
    }
}

impl<W: Drop, G: Gate + Drop, T: Drop> Task<W, G, T> {
    ghost use Rattle.us_crew.specs.Tasks.{IsReadyTask, TellsTask};

    /// Does the work with the items, one after the other.
    pub(crate) fn run<R: Drop, E>(self) -> Answered<R, E>
    where
        W: Work<T, R, E>,
        requires { IsReadyTask G.entered W.accepts self }
        ensures { TellsTask W.value W.may_fail W.must_fail self result }
    {
        let items = self.items;
        in_turn(
            self.alloc, &self.work, self.phase, self.start, items, &self.gate,
        )
    }
}
