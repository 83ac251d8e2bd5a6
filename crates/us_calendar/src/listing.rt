ghost use Rattle.std.specs.Prelude.{◌≡◌, ◌≢◌, ◌≤◌, ◌<◌, ◌++◌, filter_map, IfOk, OnOk, None, length};
ghost use Rattle.std.specs.List.{AllByRecursion};
ghost use Rattle.std.specs.Option.{ForSome, option_to_list};
ghost use Rattle.us_slots.specs.UsageCodes as codes;
ghost use Rattle.us_flows.specs.Ranges.{max_flows};
ghost use Rattle.us_flows.specs.Tables.{Tables};
ghost use Rattle.us_flows.specs.Lawful.{IsFlow, IsStation, IsChannel, IsSchedule};
ghost use Rattle.us_calendar.specs.Entries as spec;

use crate::entries::Entry;
use crate::kinds::Kind;
use crate::silences::Silence;
use std::alloc::Global;
use us_flows::{Channel, Config, Flow, SchedulingType, Station};
use us_holes::Owner;
use us_slots::{Iuc, NoMemory, cost};

/// Quarter microseconds of a microsecond.
const QUARTERS_PER_US: u32 = 4;

/// The entries of a channel, in order: at most 1,280.
pub fn entries_of(alloc: Global, config: &Config, channel: &Channel) -> Result<Vec<Entry>, NoMemory>
    requires { IsChannel config.now channel.now }
    ensures value { IfOk result (λ entries. entries.items ≡ spec.entries config.now channel.now) }
    ensures few { IfOk result (λ entries. length entries.items ≤ 1280) }
{
    let mut entries = Vec::new(alloc);
    push_flows(&mut entries, channel, config.flows())?;
    push_stations(&mut entries, channel, config.stations())?;
    entries.sort_unstable_by_key(|entry| rank(entry));
    Ok(entries)
}

/// What entries are sorted by: the kind's turn, then the id.
fn rank(entry: &Entry) -> (u8, u16)
    ensures { result ≡ (spec.rank_of entry.now.kind, entry.now.id) }
{
    let turn = match entry.kind {
        Kind::Unsolicited => 0,
        Kind::Activity => 1,
        Kind::RealTimePoll => 2,
        Kind::NonRealTimePoll => 3,
        Kind::Station => 4,
    };
    (turn, entry.id)
}

/// Puts the entries of flows behind those before them. The words of flows are numbered from 0 on.
fn push_flows(entries: &mut Vec<Entry>, channel: &Channel, flows: &[Flow]) -> Result<(), NoMemory>
    requires some { 1 ≤ channel.now.request_minislots }
    requires flows { (t : Tables) × AllByRecursion (IsFlow t) flows.now }
    requires few { length flows.now ≤ max_flows }
    ensures { OnOk result (entries.new.items ≡ entries.old.items ++
        filter_map (spec.entry_of_flow channel.now) (spec.with_words 0 flows.now)) }
{
    let mut word = 0;
    for flow in flows {
        push_some(entries, flow_entry(channel, flow, word))?;
        word += flow.words() as u16;
    }
    Ok(())
}

/// Puts the entries of stations behind those before them.
fn push_stations(
    entries: &mut Vec<Entry>,
    channel: &Channel,
    stations: &[Station],
) -> Result<(), NoMemory>
    requires some { 1 ≤ channel.now.station_minislots }
    requires stations { (t : Tables) × AllByRecursion (IsStation t) stations.now }
    ensures { OnOk result
        (entries.new.items ≡ entries.old.items ++ filter_map (spec.entry_of_station channel.now) stations.now) }
{
    for station in stations {
        push_some(entries, station_entry(channel, station))?;
    }
    Ok(())
}

/// Puts an entry behind those before it, if there is one.
fn push_some(entries: &mut Vec<Entry>, entry: Option<Entry>) -> Result<(), NoMemory>
    ensures { OnOk result (entries.new.items ≡ entries.old.items ++ option_to_list entry) }
{
    if let Some(entry) = entry {
        entries.push(entry)?;
    }
    Ok(())
}

/// The entry of a flow, whose first word has this number, if it has one on this channel.
fn flow_entry(channel: &Channel, flow: &Flow, word: u16) -> Option<Entry>
    requires some { 1 ≤ channel.now.request_minislots }
    requires flow { (t : Tables) × IsFlow t flow.now }
    ensures { result ≡ spec.entry_of_flow channel.now (record { word = word; flow = flow.now }) }
{
    if flow.channels()[0] != channel.id {
        return None;
    }
    let poll = u32::from(channel.request_minislots);
    match flow.kind() {
        SchedulingType::BestEffort => None,
        SchedulingType::NonRealTimePolling => {
            Some(poll_entry(flow, Kind::NonRealTimePoll, poll))
        }
        SchedulingType::RealTimePolling => Some(poll_entry(flow, Kind::RealTimePoll, poll)),
        SchedulingType::ActivityDetection => {
            let silence = Silence { word, slots: poll };
            Some(grant_entry(channel, flow, Kind::Activity, Some(silence)))
        }
        SchedulingType::UnsolicitedGrant => {
            Some(grant_entry(channel, flow, Kind::Unsolicited, None))
        }
    }
}

/// The entry of a flow with a poll of so many minislots in each interval.
fn poll_entry(flow: &Flow, kind: Kind, slots: u32) -> Entry
    requires flow { (t : Tables) × IsFlow t flow.now }
    requires schedule { IsSchedule flow.now.start_us flow.now.interval_us flow.now.jitter_us }
    requires slots { 1 ≤ slots }
    ensures { result ≡ spec.flow_entry flow.now kind codes.request slots 1 None }
{
    entry_with(flow, kind, Iuc::request(), slots, 1, None)
}

/// The entry of a flow with its unsolicited grants.
fn grant_entry(channel: &Channel, flow: &Flow, kind: Kind, silence: Option<Silence>) -> Entry
    requires flow { (t : Tables) × IsFlow t flow.now }
    requires schedule { IsSchedule flow.now.start_us flow.now.interval_us flow.now.jitter_us }
    requires bytes { 1 ≤ flow.now.grant_bytes }
    requires grants { 1 ≤ flow.now.grants_per_interval }
    requires silence { ForSome silence (λ s. 1 ≤ s.slots) }
    ensures { result ≡ spec.flow_entry flow.now kind codes.unsolicited_grant (spec.grant_cost channel.now flow.now)
        flow.now.grants_per_interval silence }
{
    let bursts = channel.bursts;
    let slots = cost(
        bursts.time(),
        bursts.unsolicited(),
        u32::from(flow.grant_bytes()),
    );
    let grants = flow.grants_per_interval();
    entry_with(flow, kind, Iuc::unsolicited_grant(), slots, grants, silence)
}

/// The entry of a flow with so many grants, of so many minislots, in each interval.
fn entry_with(
    flow: &Flow,
    kind: Kind,
    iuc: Iuc,
    slots: u32,
    grants: u8,
    silence: Option<Silence>,
) -> Entry
    requires flow { (t : Tables) × IsFlow t flow.now }
    requires schedule { IsSchedule flow.now.start_us flow.now.interval_us flow.now.jitter_us }
    requires iuc { iuc ≢ 7 }
    requires slots { 1 ≤ slots }
    requires grants { 1 ≤ grants }
    requires few { grants ≤ 127 }
    requires silence { ForSome silence (λ s. 1 ≤ s.slots) }
    ensures { result ≡ spec.flow_entry flow.now kind iuc slots grants silence }
{
    Entry {
        kind,
        id: flow.id(),
        owner: Owner::new(first_sid(flow), iuc),
        slots,
        start: QUARTERS_PER_US * flow.start_us(),
        interval: QUARTERS_PER_US * flow.interval_us(),
        jitter: QUARTERS_PER_US * flow.jitter_us(),
        grants,
        silence,
    }
}

/// The SID of a flow on its first channel, in its first cluster.
fn first_sid(flow: &Flow) -> u16
    requires { (t : Tables) × IsFlow t flow.now }
    ensures value { result ≡ spec.first_sid flow.now }
    ensures sid { result ≤ 15871 }
{
    flow.clusters()[0][0]
}

/// The entry of a station, if it is on this channel.
fn station_entry(channel: &Channel, station: &Station) -> Option<Entry>
    requires some { 1 ≤ channel.now.station_minislots }
    requires station { (t : Tables) × IsStation t station.now }
    ensures { result ≡ spec.entry_of_station channel.now station.now }
{
    if station.channel != channel.id {
        return None;
    }
    Some(Entry {
        kind: Kind::Station,
        id: station.id,
        owner: Owner::new(station.sid, Iuc::station_maintenance()),
        slots: u32::from(channel.station_minislots),
        start: QUARTERS_PER_US * station.start_us,
        interval: QUARTERS_PER_US * station.interval_us,
        jitter: QUARTERS_PER_US * station.jitter_us,
        grants: 1,
        silence: None,
    })
}
