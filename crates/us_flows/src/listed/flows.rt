ghost use Rattle.std.specs.Prelude.{◌≡◌, ◌≤◌, ◌<◌, ◌+◌, ◌*◌, ◌++◌, List, [], ◌∷◌, false};
ghost use Rattle.std.specs.Prelude.{length, map, zip, flat_map, nat_eq, OnOk, IfOk};
ghost use Rattle.std.specs.List.{AllByRecursion, list_any};
ghost use Rattle.std.specs.Map.{values_of};
ghost use Rattle.indexmap.specs.IndexMap.{insert_all, insert_entry};
ghost use Rattle.us_flows.specs.Tables.{FlowTable, sids_of};
ghost use Rattle.us_flows.specs.Ranges.{max_flows, max_clusters_of_flow};
ghost use Rattle.us_flows.specs.Clusters.{words_in, found_among};
ghost use Rattle.us_flows.specs.Checks.{has_flow, is_taken, same_sid, repeats};
ghost use Rattle.us_flows.specs.Lawful.{AreApart};
ghost use Rattle.us_flows.specs.Listed.{AreIndexed, asks, asked_of};

use crate::flows::{Flow, SchedulingType};
use crate::found::Found;
use indexmap::IndexMap;
use std::alloc::{AllocError, Global};
use std::marker::Model;

/// Service flows in table order, found by id, with an index of what their SIDs ask for.
pub(crate) struct Flows {
    map: IndexMap<u16, Flow>,
    /// What each SID asks for, by its channel and itself.
    sids: IndexMap<(u8, u16), Found>,
    /// How many words they have.
    words: u16,
}

impl Model for Flows {
    ghost Value = { List FlowTable };

    ghost view = { λ f. values_of f.map.entries };

    ghost invariant = { λ f. AreIndexed f.map.entries f.sids.entries f.words };
}

/// Gives the flows up. It is written out so that it is one step wherever they end.
impl Drop for Flows {
    fn drop(self) {
        let Flows {
            map: _,
            sids: _,
            words: _,
        } = self;
    }
}

impl Flows {
    /// No flow.
    pub(crate) fn new(alloc: Global) -> Flows
        ensures { result ≡ [] }
    {
        Flows {
            map: IndexMap::new(alloc),
            sids: IndexMap::new(alloc),
            words: 0,
        }
    }

    /// Whether a flow has this id.
    pub(crate) fn has(&self, id: u16) -> bool
        ensures { result ≡ has_flow self.now id }
    {
        self.map.contains_key(&id)
    }

    /// Whether a flow has this SID on this channel.
    pub(crate) fn has_sid(&self, channel: u8, sid: u16) -> bool
        ensures { result ≡ is_taken self.now (channel, sid) }
    {
        self.sids.contains_key(&(channel, sid))
    }

    /// How many there are.
    pub(crate) fn len(&self) -> usize
        ensures { result ≡ length self.now }
    {
        self.map.len()
    }

    /// These flows in this order, in memory of their own.
    pub(crate) fn copied(alloc: Global, flows: &[Flow]) -> Result<Flows, AllocError>
        requires ids { AreApart (map (λ flow. flow.id) flows.now) }
        requires sids { AreApart (flat_map sids_of flows.now) }
        requires few { length flows.now ≤ max_flows }
        requires clusters { AllByRecursion (λ flow. length flow.clusters ≤ max_clusters_of_flow) flows.now }
        ensures { IfOk result (λ copy. copy ≡ flows.now) }
    {
        let mut copy = Flows::new(alloc);
        for flow in flows {
            copy = copy.pushed(flow.copy(alloc)?)?;
        }
        Ok(copy)
    }

    /// All of them in table order.
    pub(crate) fn all(&self) -> &[Flow]
        ensures { result.now ≡ self.now }
    {
        self.map.values().as_slice()
    }

    /// How many words they have.
    pub(crate) fn words(&self) -> usize
        ensures value { result ≡ length (flat_map words_in self.now) }
        ensures few { result ≤ 2 * length self.now }
    {
        self.words as usize
    }

    /// What a SID asks for on a channel.
    pub(crate) fn lookup(&self, channel: u8, sid: u16) -> Option<Found>
        ensures { result ≡ found_among self.now channel sid }
    {
        self.sids.get(&(channel, sid)).copied()
    }

    /// These flows with one more behind them. Where memory is wanting they are gone: an index of a part of a flow's
    /// SIDs is of no use.
    pub(crate) fn pushed(self, flow: Flow) -> Result<Flows, AllocError>
        requires id { has_flow self flow.id ≡ false }
        requires sids { list_any (is_taken self) (sids_of flow) ≡ false }
        requires apart { repeats same_sid (sids_of flow) ≡ false }
        requires few { length self < max_flows }
        requires clusters { length flow.clusters ≤ max_clusters_of_flow }
        ensures { IfOk result (λ flows. flows ≡ self ++ flow ∷ []) }
    {
        let Flows { map, sids, words } = self;
        let more = flow.words() as u16;
        let sids = indexed(sids, &flow, words)?;
        let map = inserted(map, flow)?;
        Ok(Flows {
            map,
            sids,
            words: words + more,
        })
    }
}

/// A map of flows with one more. The map is taken and given back, so that where memory is wanting nothing is left of
/// it, and no proof has to say what it holds then.
fn inserted(mut map: IndexMap<u16, Flow>, flow: Flow) -> Result<IndexMap<u16, Flow>, AllocError>
    ensures { IfOk result (λ more. more.entries ≡ insert_entry nat_eq map.entries flow.id flow) }
{
    map.insert(flow.id, flow)?;
    Ok(map)
}

/// An index with the SIDs of one more flow, of which the first word has this number. It is taken and given back for the
/// same reason: what holds part of a flow's SIDs is of no use.
fn indexed(
    mut sids: IndexMap<(u8, u16), Found>,
    flow: &Flow,
    number: u16,
) -> Result<IndexMap<(u8, u16), Found>, AllocError>
    requires { number + length flow.now.clusters ≤ 65535 }
    ensures { IfOk result (λ more. more.entries ≡ insert_all same_sid sids.entries (asked_of number flow.now)) }
{
    index_flow(&mut sids, flow, number)?;
    Ok(sids)
}

/// Puts the SIDs of a flow into the index, of which the first word has this number.
fn index_flow(
    sids: &mut IndexMap<(u8, u16), Found>,
    flow: &Flow,
    number: u16,
) -> Result<(), AllocError>
    requires { number + length flow.now.clusters ≤ 65535 }
    ensures { OnOk result (sids.new.entries ≡ insert_all same_sid sids.old.entries (asked_of number flow.now)) }
{
    let mut list = 0;
    for cluster in &flow.clusters {
        index_cluster(
            sids,
            &flow.channels,
            cluster,
            found_by(flow.kind, number, number + list),
        )?;
        list += 1;
    }
    Ok(())
}

/// Puts the SIDs of a cluster into the index, each on its channel.
fn index_cluster(
    sids: &mut IndexMap<(u8, u16), Found>,
    channels: &[u8],
    cluster: &[u16],
    found: Found,
) -> Result<(), AllocError>
    ensures { OnOk result (sids.new.entries ≡ insert_all same_sid sids.old.entries
        (map (λ sid. (sid, found)) (zip channels.now cluster.now))) }
{
    for (channel, sid) in channels.iter().zip(cluster) {
        sids.insert((*channel, *sid), found)?;
    }
    Ok(())
}

/// What the SIDs of a cluster ask for, by the number of the flow's first word, and that of the cluster's if it makes
/// requests.
fn found_by(kind: SchedulingType, first: u16, number: u16) -> Found
    ensures { result ≡ asks kind first number }
{
    match kind {
        SchedulingType::BestEffort
        | SchedulingType::NonRealTimePolling
        | SchedulingType::RealTimePolling => Found::Cluster(number),
        SchedulingType::ActivityDetection => Found::Activity(first),
        SchedulingType::UnsolicitedGrant => Found::Unsolicited,
    }
}
