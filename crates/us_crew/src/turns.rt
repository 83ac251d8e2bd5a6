ghost use Rattle.std.specs.Prelude.{◌≡◌, ◌+◌, ◌^◌, ◌<◌, OnOk, IfOk, IfErr, vec_len, vec_capacity, ◌≤◌, []};
ghost use Rattle.us_crew.specs.Parts.{AreReady, Tells};

use crate::{CrewFault, Gate, Phase, Work};
use std::alloc::Global;
use us_slots::NoMemory;

/// Enters the gate for an item, and does the work with it.
fn one<W: Work<T, R, E>, G: Gate, T: Drop, R, E>(
    alloc: Global,
    work: &W,
    phase: Phase,
    index: usize,
    item: T,
    gate: &G,
) -> Result<R, CrewFault<E>>
    requires { G.entered gate.now phase index → W.accepts work.now index item }
    ensures value { IfOk result (λ answer. answer ≡ W.value work.now index item) }
    ensures sound { OnOk result (¬ W.must_fail work.now index item) }
    ensures fault { IfErr result (λ said.
        (fault : E) × (said ≡ CrewFault.Item index fault) × W.may_fail work.now index item fault) }
{
    gate.enter(phase, index);
    match work.run(alloc, index, item) {
        Ok(answer) => Ok(answer),
        Err(fault) => Err(CrewFault::Item(index, fault)),
    }
}

/// A list with room for this many answers.
fn room_for<R>(alloc: Global, count: usize) -> Result<Vec<R>, NoMemory>
    ensures items { IfOk result (λ room. room.items ≡ []) }
    ensures len { IfOk result (λ room. vec_len room ≡ 0) }
    ensures room { IfOk result (λ room. count ≤ vec_capacity room) }
{
    Ok(Vec::with_capacity(alloc, count)?)
}

/// Does the work with items, one after the other. The first has the number `start`.
pub(crate) fn in_turn<W: Work<T, R, E>, G: Gate, T: Drop, R: Drop, E>(
    alloc: Global,
    work: &W,
    phase: Phase,
    start: usize,
    items: Vec<T>,
    gate: &G,
) -> Result<Vec<R>, CrewFault<E>>
    requires room { start + vec_len items < 2 ^ 64 }
    requires items { AreReady (G.entered gate.now phase) (W.accepts work.now) start items.items }
    ensures { Tells (λ answers. answers.items) (W.value work.now) (W.may_fail work.now) (W.must_fail work.now)
        start items.items result }
{
    let mut answers = room_for(alloc, items.len())?;
    let mut rest = items.into_iter();
    let mut index = start;
    while let Some(item) = rest.next() {
        answers.push_reserved(one(alloc, work, phase, index, item, gate)?);
        index += 1;
    }
    Ok(answers)
}
