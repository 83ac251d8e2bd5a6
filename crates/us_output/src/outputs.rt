ghost use Rattle.std.specs.Prelude.{◌≡◌, ◌+◌, ◌*◌, ◌≤◌, IfOk, OnOk};
ghost use Rattle.std.specs.List.{AllByRecursion};
ghost use Rattle.us_flows.specs.Tables.{max_run_ticks};
ghost use Rattle.us_output.specs.Leftovers.{AreInside, IsBuiltFor, scheduled_by, told};
ghost use Rattle.us_output.specs.Outputs.{AreWithinLimits, out_of};

use crate::channels_with_text::ChannelWithText;
use crate::mapping::maps_of;
use crate::pendings::{PendingSid, pending_sids};
use crate::reporting::rows_of;
use crate::round_outs::RoundOut;
use std::alloc::Global;
use us_flows::Config;
use us_slots::NoMemory;

/// What a round gives of its channels in table order, once all claims are placed, where this is pending. The one
/// fault is want of memory.
pub fn out_by(
    alloc: Global,
    config: &Config,
    round: u32,
    channels: &[ChannelWithText],
    pendings: &[PendingSid],
) -> Result<RoundOut, NoMemory>
    requires built { AllByRecursion (IsBuiltFor config.now) channels.now }
    requires inside { AllByRecursion AreInside channels.now }
    requires time { (round + 1) * config.now.round_ticks ≤ max_run_ticks }
    ensures out { IfOk result (λ out. out ≡ out_of config.now (told round channels.now pendings.now)) }
    ensures limits { OnOk result (AreWithinLimits config.now (told round channels.now pendings.now)) }
{
    let maps = maps_of(alloc, config, round, channels, pendings)?;
    let rows = rows_of(alloc, round, channels)?;
    Ok(RoundOut::new(round, maps, rows))
}

/// What a round gives of its channels in table order, once all claims are placed: the MAP of each, and the lines. Of each
/// SID cluster so many bytes were `outstanding` before, and so many are `left`; where one has as many as before, it is
/// pending. The one fault is want of memory.
pub fn round_out(
    alloc: Global,
    config: &Config,
    round: u32,
    outstanding: &[u64],
    left: &[u64],
    built: &[ChannelWithText],
) -> Result<RoundOut, NoMemory>
    requires built { AllByRecursion (IsBuiltFor config.now) built.now }
    requires inside { AllByRecursion AreInside built.now }
    requires time { (round + 1) * config.now.round_ticks ≤ max_run_ticks }
    ensures out { IfOk result (λ out. out ≡
        out_of config.now (scheduled_by config.now round outstanding.now left.now built.now)) }
    ensures limits { OnOk result
        (AreWithinLimits config.now (scheduled_by config.now round outstanding.now left.now built.now)) }
{
    let pendings = pending_sids(alloc, config, outstanding, left)?;
    out_by(alloc, config, round, built, &pendings)
}
