ghost use Rattle.std.specs.Prelude.{◌≡◌, ◌≤◌, ◌++◌, length, map, flat_map, Some, OnOk, IfOk};
ghost use Rattle.std.specs.List.{AllByRecursion};
ghost use Rattle.us_flows.specs.Tables.{Tables};
ghost use Rattle.us_flows.specs.Clusters.{words_in, turns_of};
ghost use Rattle.us_flows.specs.Turns.{turn_at};
ghost use Rattle.us_flows.specs.Lawful.{AreApart};
ghost use Rattle.us_flows.specs.Ranks.{IsRanked, rank_of, flow_turns, table_turns};

use crate::flows::Flow;
use crate::turns::Turn;
use std::alloc::{AllocError, Global};

/// The turns of a round, in order.
pub(crate) fn turns_of(alloc: Global, flows: &[Flow]) -> Result<Vec<Turn>, AllocError>
    requires apart { AreApart (map (λ flow. flow.id) flows.now) }
    requires ranges { AllByRecursion IsRanked flows.now }
    requires few { length (flat_map words_in flows.now) ≤ 65535 }
    ensures { IfOk result (λ turns. (t : Tables) → t.flows ≡ flows.now →
        map (turn_at t) turns.items ≡ map Some (turns_of t)) }
{
    let mut turns = turns_in_table_order(alloc, flows)?;
    turns.sort_unstable_by_key(|turn| rank(flows, turn));
    Ok(turns)
}

/// What turns are sorted by: priority falling, flow id rising, then the place among the flow's clusters.
fn rank(flows: &[Flow], turn: &Turn) -> (u8, u16, usize)
    ensures { result ≡ rank_of flows.now turn.now }
{
    match flows.get(turn.flow) {
        Some(flow) => (u8::MAX - flow.priority, flow.id, turn.list),
        None => (0, 0, turn.list),
    }
}

/// The turns of all flows that make requests, in table order.
fn turns_in_table_order(alloc: Global, flows: &[Flow]) -> Result<Vec<Turn>, AllocError>
    requires few { length (flat_map words_in flows.now) ≤ 65535 }
    ensures { IfOk result (λ turns. turns.items ≡ table_turns 0 0 flows.now) }
{
    let mut turns = Vec::new(alloc);
    let mut number = 0;
    for (place, flow) in flows.iter().enumerate() {
        push_turns(&mut turns, place, number, flow)?;
        number += flow.words();
    }
    Ok(turns)
}

/// Puts the turns of the flow at this place, whose first word has this number, behind those before it.
fn push_turns(
    turns: &mut Vec<Turn>,
    place: usize,
    number: usize,
    flow: &Flow,
) -> Result<(), AllocError>
    requires { number ≤ 65535 }
    ensures { OnOk result (turns.new.items ≡ turns.old.items ++ flow_turns place number flow.now) }
{
    if !flow.kind.makes_requests() {
        return Ok(());
    }
    for list in 0..flow.clusters().len() {
        turns.push(Turn {
            flow: place,
            list,
            cluster: number + list,
        })?;
    }
    Ok(())
}
