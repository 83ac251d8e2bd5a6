ghost use Rattle.std.specs.Prelude.{◌≡◌, ◌==◌, ℕ, ◌^◌, ◌<◌, ◌≤◌, length, zip, filter_map, slice_get, slice_index, option_and_then, IfOk, OnOk};
ghost use Rattle.std.specs.List.{AllByRecursion};
ghost use Rattle.us_flows.specs.Turns.{in_flow, turn_at};
ghost use Rattle.us_flows.specs.Clusters.{turns_of};
ghost use Rattle.us_channel.specs.Maps.{max_pendings};
ghost use Rattle.us_output.specs.Outputs as spec;
ghost use Rattle.us_output.specs.Leftovers.{still_asking, still_asking_at};

use std::alloc::Global;
use std::marker::Model;
use us_flows::{Config, Flow, Turn};
use us_slots::NoMemory;

/// Where a turn is pending: a channel, by its id, and the SID there, of 14 bits.
#[derive(Clone, Copy)]
pub struct PendingSid {
    channel: u8,
    sid: u16,
}

impl Model for PendingSid {
    ghost Value = { ℕ × ℕ };

    ghost view = { λ pending. (pending.channel, pending.sid) };

    ghost invariant = { λ pending. pending.sid < 2 ^ 14 };

    ghost inverse = { λ pending. record { channel = pending.0; sid = pending.1 } };
}

impl PendingSid {
    /// A SID on the channel with this id.
    pub fn new(channel: u8, sid: u16) -> PendingSid
        requires { sid < 2 ^ 14 }
        ensures { result ≡ (channel, sid) }
    {
        PendingSid { channel, sid }
    }

    /// The id of the channel, as a place in a list.
    pub(crate) fn place(&self) -> usize
        ensures value { result ≡ self.now.0 }
        ensures in_range { result < 256 }
    {
        usize::from(self.channel)
    }

    /// The SID.
    pub(crate) fn sid(&self) -> u16
        ensures value { result ≡ self.now.1 }
        ensures in_range { result < 2 ^ 14 }
    {
        self.sid
    }
}

/// Who is pending after a round: in the order of turns, those with as many bytes `left` as were `outstanding` before their
/// channels placed, and with one at least.
pub fn pending_sids(
    alloc: Global,
    config: &Config,
    outstanding: &[u64],
    left: &[u64],
) -> Result<Vec<PendingSid>, NoMemory>
    ensures { IfOk result (λ pendings.
        pendings.items ≡ filter_map (still_asking outstanding.now left.now) (turns_of config.now)) }
{
    let mut pendings = Vec::new(alloc);
    let turns = config.turns();
    for turn in turns {
        if let Some(pending) = pending_sid(config, turn, outstanding, left) {
            pendings.push(pending)?;
        }
    }
    Ok(pendings)
}

/// Where a turn is pending, if it is.
fn pending_sid(
    config: &Config,
    turn: &Turn,
    outstanding: &[u64],
    left: &[u64],
) -> Option<PendingSid>
    ensures { result ≡ still_asking_at config.now outstanding.now left.now turn.now }
{
    let bytes = bytes_at(left, turn.cluster);
    if bytes == 0 || bytes != bytes_at(outstanding, turn.cluster) {
        return None;
    }
    first_sid_of(config, turn)
}

/// Where a turn is told as pending, if it is: on the first channel of its flow, by its SID there.
pub fn first_sid_of(config: &Config, turn: &Turn) -> Option<PendingSid>
    ensures { result ≡ option_and_then spec.first_sid (turn_at config.now turn.now) }
{
    match config.flows().get(turn.flow) {
        Some(flow) => first_sid(flow, turn),
        None => None,
    }
}

/// The bytes of the cluster with this number.
pub(crate) fn bytes_at(bytes: &[u64], number: usize) -> u64
    ensures { result ≡ slice_index bytes.now number }
{
    match bytes.get(number) {
        Some(bytes) => *bytes,
        None => 0,
    }
}

/// The first channel of a flow, with the SID there of the turn's cluster.
fn first_sid(flow: &Flow, turn: &Turn) -> Option<PendingSid>
    requires { AllByRecursion (λ sids. AllByRecursion (λ sid. sid < 2 ^ 14) sids) flow.now.clusters }
    ensures { result ≡ option_and_then spec.first_sid (in_flow turn.now flow.now) }
{
    match flow.clusters().get(turn.list) {
        Some(sids) => sid_of(flow.channels(), sids),
        None => None,
    }
}

/// The first of these channels, with the first of the SIDs.
#[tactic(auto, using(crate::proofs::PendingLemmas::first_pair))]
fn sid_of(channels: &[u8], sids: &[u16]) -> Option<PendingSid>
    requires { AllByRecursion (λ sid. sid < 2 ^ 14) sids.now }
    ensures { result ≡ slice_get (zip channels.now sids.now) 0 }
{
    if channels.is_empty() || sids.is_empty() {
        return None;
    }
    Some(PendingSid::new(channels[0], sids[0]))
}
