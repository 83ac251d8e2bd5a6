ghost use Rattle.std.specs.Prelude.{◌≡◌, ◌≢◌, ◌+◌, ◌*◌, ◌^◌, ◌<◌, ◌≤◌, length, map, IfOk};
ghost use Rattle.std.specs.List.{AllByRecursion};
ghost use Rattle.us_slots.specs.UsageCodes as codes;
ghost use Rattle.us_codec.specs.Elements.{IsMapElement};
ghost use Rattle.us_codec.specs.Bodies.{IsHead, IsMapBody};
ghost use Rattle.us_flows.specs.Tables.{map_len, max_run_ticks};
ghost use Rattle.us_flows.specs.Lawful.{IsChannel};
ghost use Rattle.us_holes.specs.Boards.{max_assignments};
ghost use Rattle.us_holes.specs.Runs.{FollowOn, runs_of};
ghost use Rattle.us_channel.specs.Maps as spec;
ghost use Rattle.us_channel.specs.Maps.{max_pendings};

use crate::reserving::BROADCAST;
use std::alloc::Global;
use us_codec::{Element, Head, Map};
use us_flows::{Channel, Config};
use us_holes::{Board, Run};
use us_slots::{Iuc, NoMemory};

/// The SID that addresses nobody (the standard's).
const NOBODY: u16 = 0;

/// The MAP of a channel's round: its head, an element for each assignment and each idle run of the board, the Null, and a
/// data grant pending for each of these SIDs. Its start, its length and its Ack Time count minislots. The list of runs is
/// for what the board has, and nothing that stands there is kept. The one fault is want of memory.
#[tactic(auto, unfolding(crate::specs::Maps::map_of))]
pub fn map_of(
    alloc: Global,
    config: &Config,
    round: u32,
    channel: &Channel,
    board: &Board,
    sids: &[u16],
    runs: &mut Vec<Run>,
) -> Result<Map, NoMemory>
    requires lawful { IsChannel config.now channel.now }
    requires len { length board.now.cells ≡ map_len config.now channel.now }
    requires time { (round + 1) * config.now.round_ticks ≤ max_run_ticks }
    requires few { length sids.now ≤ max_pendings }
    requires bits { AllByRecursion (λ sid. sid < 2 ^ 14) sids.now }
    ensures value { IfOk result (λ map. map ≡ spec.map_of config.now round channel.now board.now sids.now) }
    ensures grammar { IfOk result (λ map. IsMapBody map) }
    ensures standing { IfOk result (λ _. board.now.standing ≤ max_assignments) }
{
    let head = head_of(config, channel, round);
    let elements = elements_of(alloc, channel, board, runs, 1 + sids.len())?;
    let len = board.len() as u16;
    let pendings = pendings_of(alloc, sids, len)?;
    Map::from_parts(head, elements, len, &pendings)
}

/// What stands before the elements of a MAP.
#[tactic(auto, unfolding(crate::specs::Maps::head_of))]
pub fn head_of(config: &Config, channel: &Channel, round: u32) -> Head
    requires lawful { IsChannel config.now channel.now }
    requires time { (round + 1) * config.now.round_ticks ≤ max_run_ticks }
    ensures value { result ≡ spec.head_of config.now round channel.now }
    ensures lawful { IsHead result }
{
    let minislot = channel.bursts.time().minislot_ticks();
    let start = round * config.round_ticks();
    let [ranging_start, ranging_end] = channel.ranging_backoff;
    let [data_start, data_end] = channel.data_backoff;
    Head {
        channel: channel.id,
        ucd_count: channel.ucd_count,
        alloc_start: round * (config.round_ticks() / minislot),
        ack: start.saturating_sub(config.lead_ticks()) / minislot,
        backoffs: [ranging_start, ranging_end, data_start, data_end],
    }
}

/// What stands before the Null: an element for each assignment and each idle run, which the list of runs gets.
/// There is room for so many `more`.
#[tactic(auto, using(crate::proofs::MapLemmas::follow_starts), unfolding(crate::specs::Maps::elements_of))]
fn elements_of(
    alloc: Global,
    channel: &Channel,
    board: &Board,
    runs: &mut Vec<Run>,
    more: usize,
) -> Result<Vec<Element>, NoMemory>
    requires { length board.now.cells ≤ 4096 }
    ensures value { IfOk result (λ elements. elements.items ≡ spec.elements_of channel.now board.now) }
    ensures other { IfOk result (λ elements. AllByRecursion (λ e. e.iuc ≢ codes.null) elements.items) }
    ensures fields { IfOk result (λ elements. AllByRecursion IsMapElement elements.items) }
    ensures follow { FollowOn 0 (length board.now.cells) (runs_of board.now.cells) }
    ensures few { length (runs_of board.now.cells) ≤ 2 * board.now.standing + 1 }
{
    runs.clear();
    board.push_runs(runs)?;
    elements_in(alloc, channel, runs, more)
}

/// The elements of some runs, with room for so many `more`.
fn elements_in(
    alloc: Global,
    channel: &Channel,
    runs: &[Run],
    more: usize,
) -> Result<Vec<Element>, NoMemory>
    requires { AllByRecursion (λ run. run.start < 2 ^ 14) runs.now }
    ensures value { IfOk result (λ elements. elements.items ≡ map (spec.run_element channel.now) runs.now) }
    ensures other { IfOk result (λ elements. AllByRecursion (λ e. e.iuc ≢ codes.null) elements.items) }
    ensures fields { IfOk result (λ elements. AllByRecursion IsMapElement elements.items) }
{
    let mut elements = Vec::with_capacity(alloc, runs.len().saturating_add(more))?;
    for run in runs {
        elements.push(element_of(channel, *run))?;
    }
    Ok(elements)
}

/// The element of a run: of its owner, or of nobody's minislots.
pub fn element_of(channel: &Channel, run: Run) -> Element
    requires { run.start < 2 ^ 14 }
    ensures value { result ≡ spec.run_element channel.now run }
    ensures other { result.iuc ≢ codes.null }
    ensures fields { IsMapElement result }
{
    match run.owner() {
        Some(owner) => Element::from_fields(owner.sid(), owner.iuc(), run.start() as u16),
        None => gap_of(channel, run),
    }
}

/// The element of an idle run: a broadcast request where one fits.
pub fn gap_of(channel: &Channel, run: Run) -> Element
    requires { run.start < 2 ^ 14 }
    ensures value { result ≡ spec.gap channel.now run.start run.len }
    ensures other { result.iuc ≢ codes.null }
    ensures fields { IsMapElement result }
{
    let sid = if run.len() >= u32::from(channel.request_minislots) {
        BROADCAST
    } else {
        NOBODY
    };
    Element::from_fields(sid, Iuc::request(), run.start() as u16)
}

/// The data grant pending of a SID, at the MAP's length.
pub fn pending_of(sid: u16, len: u16) -> Element
    requires sid { sid < 2 ^ 14 }
    requires len { len < 2 ^ 14 }
    ensures { result ≡ spec.pending_element len sid }
{
    Element::from_fields(sid, Iuc::long_data_grant(), len)
}

/// The data grants pending of some SIDs, at the MAP's length.
fn pendings_of(alloc: Global, sids: &[u16], len: u16) -> Result<Vec<Element>, NoMemory>
    requires len { len < 2 ^ 14 }
    requires bits { AllByRecursion (λ sid. sid < 2 ^ 14) sids.now }
    ensures { IfOk result (λ pendings. pendings.items ≡ map (spec.pending_element len) sids.now) }
{
    let mut pendings = Vec::with_capacity(alloc, sids.len())?;
    for sid in sids {
        pendings.push_reserved(pending_of(*sid, len));
    }
    Ok(pendings)
}
