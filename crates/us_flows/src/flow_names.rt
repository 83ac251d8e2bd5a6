ghost use Rattle.std.specs.Prelude.{◌≡◌, ◌==◌, ◌++◌, nat_eq, length, map, zip, IfOk, OnOk};
ghost use Rattle.std.specs.List.{list_all, list_any};
ghost use Rattle.us_flows.specs.Tables.{has_channel, sids_of};
ghost use Rattle.us_flows.specs.Checks;
ghost use Rattle.us_slots.specs.Lists.{first_of};
ghost use Rattle.us_flows.specs.Checks.{flow_names};

use crate::faults::{ConfigFault, Place};
use crate::flows::Flow;
use crate::listed::{Channels, Flows};
use std::alloc::{AllocError, Global};

/// The SIDs of a flow, each behind its channel.
pub(crate) fn sids_of(alloc: Global, flow: &Flow) -> Result<Vec<(u8, u16)>, AllocError>
    ensures { IfOk result (λ pairs. pairs.items ≡ sids_of flow.now) }
{
    let mut pairs = Vec::new(alloc);
    for sids in flow.clusters() {
        push_pairs(&mut pairs, flow.channels(), sids)?;
    }
    Ok(pairs)
}

/// Adds the SIDs of one cluster, each behind its channel.
#[tactic(auto, using(crate::proofs::PairLemmas::all_pairs))]
fn push_pairs(pairs: &mut Vec<(u8, u16)>, channels: &[u8], sids: &[u16]) -> Result<(), AllocError>
    ensures { OnOk result (pairs.new.items ≡ pairs.old.items ++ zip channels.now sids.now) }
{
    for place in 0..channels.len().min(sids.len()) {
        pairs.push((channels[place], sids[place]))?;
    }
    Ok(())
}

/// The first fault of a flow's channels, of its id and of its SIDs, beside the channels and the flows before it.
pub(crate) fn names_fault(
    place: Place,
    channels: &Channels,
    earlier: &Flows,
    flow: &Flow,
    sids: &[(u8, u16)],
) -> Option<ConfigFault>
    requires { sids.now ≡ sids_of flow.now }
    ensures { result ≡ first_of (flow_names place channels.now earlier.now flow.now) }
{
    if !have_channels(channels, flow.channels()) {
        return Some(ConfigFault::UnknownChannel(place));
    }
    if earlier.has(flow.id()) || repeats_id(flow.channels()) {
        return Some(ConfigFault::DuplicateId(place));
    }
    if !have_length(flow.clusters(), flow.channels().len()) {
        return Some(ConfigFault::ClusterLength(place));
    }
    if are_taken(earlier, sids) || repeats_sid(sids) {
        return Some(ConfigFault::DuplicateSid(place));
    }
    None
}

/// Whether the channels have all these ids.
fn have_channels(channels: &Channels, ids: &[u8]) -> bool
    ensures { result ≡ list_all (has_channel channels.now) ids.now }
{
    ids.iter().all(|id| channels.has(*id))
}

/// Whether an earlier flow has one of these SIDs on the same channel.
fn are_taken(earlier: &Flows, sids: &[(u8, u16)]) -> bool
    ensures { result ≡ list_any (Checks.is_taken earlier.now) sids.now }
{
    sids.iter()
        .any(|(channel, sid)| earlier.has_sid(*channel, *sid))
}

/// Whether a channel is there twice.
fn repeats_id(ids: &[u8]) -> bool
    ensures { result ≡ Checks.repeats nat_eq ids.now }
{
    for place in 0..ids.len() {
        if ids[place + 1..].contains(&ids[place]) {
            return true;
        }
    }
    false
}

/// Whether a SID is there twice on one channel.
fn repeats_sid(sids: &[(u8, u16)]) -> bool
    ensures { result ≡ Checks.repeats Checks.same_sid sids.now }
{
    for place in 0..sids.len() {
        let (channel, sid) = sids[place];
        if is_among(&sids[place + 1..], channel, sid) {
            return true;
        }
    }
    false
}

/// Whether a SID is one of these, on the same channel.
fn is_among(sids: &[(u8, u16)], channel: u8, sid: u16) -> bool
    ensures { result ≡ list_any (Checks.same_sid (channel, sid)) sids.now }
{
    sids.iter()
        .any(|(other, own)| channel == *other && sid == *own)
}

/// Whether each cluster has so many SIDs.
fn have_length(clusters: &[Vec<u16>], count: usize) -> bool
    ensures { result ≡ list_all (λ sids. length sids == count) (map (λ sids. sids.items) clusters.now) }
{
    for sids in clusters {
        if sids.len() != count {
            return false;
        }
    }
    true
}
