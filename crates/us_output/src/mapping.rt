ghost use Rattle.std.specs.Prelude.{◌≡◌, ◌+◌, ◌*◌, ◌≤◌, ℕ, List, map, IfOk};
ghost use Rattle.std.specs.List.{AllByRecursion};
ghost use Rattle.us_flows.specs.Tables.{max_run_ticks};
ghost use Rattle.us_output.specs.Leftovers.{AreDealt, IsBuiltFor};
ghost use Rattle.us_output.specs.Outputs as spec;

use crate::channels_with_text::ChannelWithText;
use crate::dealing::Dealt;
use crate::pendings::PendingSid;
use std::alloc::Global;
use us_channel::{ChannelRound, map_of};
use us_codec::Map;
use us_flows::Config;
use us_holes::Run;
use us_slots::NoMemory;

/// The MAP of each channel of a round, with the SIDs that are pending there.
pub(crate) fn maps_of(
    alloc: Global,
    config: &Config,
    round: u32,
    built: &[ChannelWithText],
    pendings: &[PendingSid],
) -> Result<Vec<Map>, NoMemory>
    requires built { AllByRecursion (IsBuiltFor config.now) built.now }
    requires time { (round + 1) * config.now.round_ticks ≤ max_run_ticks }
    ensures value { IfOk result (λ maps. maps.items ≡ map (spec.built_map config.now round pendings.now) built.now) }
    ensures limits { IfOk result (λ _. AllByRecursion (spec.IsWithinLimits config.now round pendings.now) built.now) }
{
    let mut dealt = Dealt::new(alloc);
    dealt.deal(pendings)?;
    let mut runs = Vec::new(alloc);
    let mut maps = Vec::with_capacity(alloc, built.len())?;
    for part in built {
        let channel = part.channel_round();
        maps.push_reserved(built_map(alloc, config, round, channel, &dealt, &mut runs)?);
    }
    Ok(maps)
}

/// The MAP of one channel. What stood in the list of runs is dropped.
fn built_map(
    alloc: Global,
    config: &Config,
    round: u32,
    part: &ChannelRound,
    dealt: &Dealt,
    runs: &mut Vec<Run>,
) -> Result<Map, NoMemory>
    requires built { IsBuiltFor config.now part.now }
    requires time { (round + 1) * config.now.round_ticks ≤ max_run_ticks }
    ensures value { IfOk result (λ map. (pendings : List (ℕ × ℕ)) → AreDealt pendings dealt.now.lists.items →
        map ≡ spec.built_map config.now round pendings part.now) }
    ensures limits { IfOk result (λ _. (pendings : List (ℕ × ℕ)) → AreDealt pendings dealt.now.lists.items →
        spec.IsWithinLimits config.now round pendings part.now) }
{
    let sids = dealt.on(part.channel().id);
    let map = map_of(
        alloc,
        config,
        round,
        part.channel(),
        part.board(),
        sids,
        runs,
    )?;
    Ok(map)
}
