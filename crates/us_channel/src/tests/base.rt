ghost use Rattle.std.specs.Prelude.{◌≡◌, ◌+◌, ◌*◌, ◌≤◌, IfSome, OnOk};
ghost use Rattle.us_flows.specs.Lawful.{IsChannel};
ghost use Rattle.us_flows.specs.Tables.{max_run_ticks};
ghost use Rattle.us_calendar.specs.Calendars.{pace_of};
ghost use Rattle.us_split.specs.Claims.{IsClaimOn};

use crate::ChannelRound;
use std::alloc::{AllocError, Global};
use std::process::Abort;
use us_flows::{Channel, Config};
use us_samples::put_channel;
use us_slots::{NoMemory, grant_cost};
use us_split::{Claim, Claimant};

/// A call that has a grant of one minislot in each round, minislot 70.
const CALL: &str = "[[flow]]
id = 2
type = 6
channels = [1]
clusters = [[513]]
start_us = 875
interval_us = 2000
jitter_us = 0
grant_bytes = 16
grants_per_interval = 1
";

/// The one comparison of these tests.
pub(super) fn same(rt: &impl Abort, name: &str, found: &str, wanted: &str) {
    assert_eq!(rt; found, wanted, "{name}");
}

/// Two rounds of a channel, in each of which two turns claim these bytes; 0 bytes are no claims. Of the second round: how
/// many minislots are idle before the claims, where each grant starts, its minislots and the bytes that it credits, and
/// how much the calendar settled.
pub(super) fn answer_of(
    alloc: Global,
    first: [u32; 2],
    second: [u32; 2],
) -> Result<String, AllocError> {
    let mut answer = String::new(alloc);
    let mut text = String::new(alloc);
    put_channel(&mut text, 1)?;
    text.push_str(CALL)?;
    match Config::read(alloc, text.as_bytes()) {
        Ok(config) => {
            if run(alloc, &mut answer, &config, first, second).is_err() {
                answer.push_str("out of memory")?;
            }
        }
        Err(fault) => write!(answer, "{fault}")?,
    }
    Ok(answer)
}

/// Both rounds of a configuration's first channel.
fn run(
    alloc: Global,
    answer: &mut String,
    config: &Config,
    first: [u32; 2],
    second: [u32; 2],
) -> Result<(), NoMemory> {
    if config.channels().is_empty() || !config.rounds_fit(2) {
        return Ok(());
    }
    let mut channel = ChannelRound::new(alloc, config, 0)?;
    fill(config, &mut channel, 0)?;
    place(&mut channel, first);
    fill(config, &mut channel, 1)?;
    write!(answer, "{} idle", channel.idle())?;
    place(&mut channel, second);
    tell(answer, &channel)
}

/// Reserves and calendar of a round.
fn fill(config: &Config, channel: &mut ChannelRound, round: u32) -> Result<(), NoMemory>
    requires channel { IsChannel config.now channel.old.channel }
    requires pace { channel.old.calendar.pace ≡ pace_of config.now channel.old.channel }
    requires next { channel.old.calendar.next_round ≡ round }
    requires time { (round + 1) * config.now.round_ticks ≤ max_run_ticks }
    ensures channel { channel.new.channel ≡ channel.old.channel }
    ensures pace { OnOk result (channel.new.calendar.pace ≡ channel.old.calendar.pace) }
    ensures next { OnOk result (channel.new.calendar.next_round ≡ round + 1) }
{
    channel.fill(config, round)
}

/// Places two claims of these bytes, if both may be.
fn place(channel: &mut ChannelRound, shares: [u32; 2])
    ensures channel { channel.new.channel ≡ channel.old.channel }
    ensures calendar { channel.new.calendar ≡ channel.old.calendar }
{
    let on = *channel.channel();
    if let (Some(first), Some(second)) = (claim_of(&on, shares[0]), claim_of(&on, shares[1])) {
        channel.place_claims(&[first, second]);
    }
}

/// What was granted and settled.
fn tell(answer: &mut String, channel: &ChannelRound) -> Result<(), NoMemory> {
    for grant in channel.grants() {
        write!(answer, "; {} {} {}", grant.start, grant.slots, grant.credit)?;
    }
    write!(answer, "; {} settled", channel.settled().len())?;
    Ok(())
}

/// A claim of so many bytes behind no header.
fn claim_of(channel: &Channel, share: u32) -> Option<Claim>
    ensures { IfSome result (IsClaimOn channel.now) }
{
    if share == 0 || share > 10_000 {
        return None;
    }
    let (slots, iuc) = grant_cost(&channel.bursts, share);
    if slots == 0 {
        return None;
    }
    let claimant = Claimant {
        cluster: 0,
        place: 0,
        flow: 1,
        list: 0,
    };
    Some(Claim {
        claimant,
        turn: 0,
        position: 0,
        sid: 291,
        header: 0,
        share,
        slots,
        iuc,
    })
}
