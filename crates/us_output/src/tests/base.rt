ghost use Rattle.std.specs.Prelude.{◌<◌, ◌≤◌, length, IfOk, IfSome, IsTrue, OnOk};
ghost use Rattle.std.specs.List.{AllByRecursion};
ghost use Rattle.us_flows.specs.Tables.{max_run_ticks};
ghost use Rattle.us_split.specs.Claims.{IsClaimOn};
ghost use Rattle.us_calendar.specs.Calendars as calendars;
ghost use Rattle.us_output.specs.Leftovers.{AreInside, IsBuiltFor, StartsInside};

use crate::ChannelWithText;
use std::alloc::{AllocError, Global};
use us_calendar::Settled;
use us_flows::{Channel, Config, ConfigFault};
use us_samples::put_channel;
use us_slots::{NoMemory, grant_cost};
use us_split::{Claim, Claimant};

/// Two clusters of a flow without a limit, two unsolicited grants of a minislot that are ideal at minislot 70, and a
/// cluster of a flow with a limit.
const FLOWS: &str = "[[flow]]
id = 1
type = 2
channels = [1]
clusters = [[291], [292]]
priority = 0
rate = 0
burst = 3044
unit = 4
headers = true
[[flow]]
id = 2
type = 6
channels = [1]
clusters = [[513]]
start_us = 875
interval_us = 10000
jitter_us = 0
grant_bytes = 16
grants_per_interval = 2
[[flow]]
id = 3
type = 2
channels = [1]
clusters = [[293]]
priority = 0
rate = 1280000
burst = 1522
unit = 4
headers = true
";

pub(super) fn config_of(alloc: Global) -> Result<Config, ConfigFault> {
    let text = text_of(alloc)?;
    Config::read(alloc, text.as_bytes())
}

fn text_of(alloc: Global) -> Result<String, AllocError> {
    let mut text = String::new(alloc);
    put_channel(&mut text, 1)?;
    text.push_str(FLOWS)?;
    Ok(text)
}

/// The configuration's first channel in round 0, in which the first flow's clusters claim 1,000 and 2,000 bytes. The fault is
/// want of memory, or that the round may not be made.
pub(super) fn built_of(alloc: Global, config: &Config) -> Result<ChannelWithText, NoMemory>
    ensures built { IfOk result (IsBuiltFor config.now) }
    ensures inside { IfOk result AreInside }
    ensures time { OnOk result (config.now.round_ticks ≤ max_run_ticks) }
{
    let mut part = filled_of(alloc, config)?;
    if place(config, &mut part) && settled_inside(&part) && grants_inside(&part) {
        Ok(part)
    } else {
        Err(NoMemory)
    }
}

/// The channel before the claims are placed.
fn filled_of(alloc: Global, config: &Config) -> Result<ChannelWithText, NoMemory>
    ensures built { IfOk result (IsBuiltFor config.now) }
    ensures time { OnOk result (config.now.round_ticks ≤ max_run_ticks) }
{
    if config.channels().is_empty() || !config.rounds_fit(1) {
        return Err(NoMemory);
    }
    let mut part = ChannelWithText::new(alloc, config, 0)?;
    part.fill(config, 0)?;
    Ok(part)
}

/// Places the claims, if they are claims of the channel.
fn place(config: &Config, part: &mut ChannelWithText) -> bool
    requires { IsBuiltFor config.now part.old }
    ensures { IsBuiltFor config.now part.new }
{
    let channel = *part.channel_round().channel();
    let (Some(first), Some(second)) = (
        claim_of(&channel, 0, 291, 1_000),
        claim_of(&channel, 1, 292, 2_000),
    ) else {
        return false;
    };
    part.place_claims(&[first, second]);
    true
}

/// A claim of a cluster of the first flow, of so many bytes behind no header.
fn claim_of(channel: &Channel, list: u8, sid: u16, share: u32) -> Option<Claim>
    requires { sid < 512 }
    ensures { IfSome result (IsClaimOn channel.now) }
{
    if share == 0 || share > 10_000 {
        return None;
    }
    let (slots, iuc) = grant_cost(&channel.bursts, share);
    if slots == 0 {
        return None;
    }
    let claimant = Claimant {
        cluster: u16::from(list),
        place: 0,
        flow: 1,
        list,
    };
    Some(Claim {
        claimant,
        turn: u16::from(list),
        position: 0,
        sid,
        header: 0,
        share,
        slots,
        iuc,
    })
}

/// Whether all that a calendar granted on a channel starts inside its MAP.
fn settled_inside(part: &ChannelWithText) -> bool
    ensures { IsTrue result →
        AllByRecursion (calendars.StartsInside (length part.now.board.cells)) part.now.settled }
{
    let part = part.channel_round();
    let len = part.board().len();
    for settled in part.settled() {
        if let Settled::Granted { start, .. } = *settled {
            if start >= len {
                return false;
            }
        }
    }
    true
}

/// Whether all grants of requests on a channel start inside its MAP.
fn grants_inside(part: &ChannelWithText) -> bool
    ensures { IsTrue result → AllByRecursion (StartsInside (length part.now.board.cells)) part.now.grants }
{
    let part = part.channel_round();
    let len = part.board().len();
    for grant in part.grants() {
        if grant.start >= len {
            return false;
        }
    }
    true
}
