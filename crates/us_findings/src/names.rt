use crate::documents::{
    items_before, items_of, number_at, number_of, place_in, values_at, values_of,
};
use crate::drafts::Why;
use crate::rules::Case;
use crate::sentences::Sentence;
use crate::spots::KeyPath;
use toml::{Table, Value};
use us_flows::{Place, TableName};

/// No channel has an id that the table names.
pub(crate) fn unknown_channel<'d>(case: &Case<'d>) -> Why<'d> {
    let (key, id) = match unknown_id(case) {
        Some(id) => ("channels", id),
        None => ("channel", case.number("channel")),
    };
    Why {
        key,
        sentence: Sentence::of("no channel has the id #", id),
        other: None,
    }
}

/// The first id of a flow's channels that no channel has.
fn unknown_id(case: &Case<'_>) -> Option<u64> {
    for value in values_at(case.table, "channels") {
        let id = number_of(value);
        if channel_with(case.document, id).is_none() {
            return Some(id);
        }
    }
    None
}

/// The channel with an id.
pub(crate) fn channel_with(document: &Table, id: u64) -> Option<(Place, &Table)> {
    let list = TableName::Channel;
    table_with(items_of(document, list), list, id)
}

/// The first table of a list that has this id.
fn table_with(items: &[Value], list: TableName, id: u64) -> Option<(Place, &Table)> {
    for (index, item) in items.iter().enumerate() {
        if let Some(table) = item.as_table() {
            if number_at(table, "id") == id {
                return Some((place_in(list, index), table));
            }
        }
    }
    None
}

/// An earlier table of the list has the id, or the flow has a channel twice.
pub(crate) fn duplicate_id<'d>(case: &Case<'d>) -> Why<'d> {
    let (list, id) = (case.place.table, case.number("id"));
    match table_with(items_before(case.document, case.place), list, id) {
        Some((earlier, _)) => Why {
            key: "id",
            sentence: Sentence(has_id(list), [u64::from(earlier.index), id, 0, 0]),
            other: Some(KeyPath::of(earlier, Some("id"))),
        },
        None => Why {
            key: "channels",
            sentence: Sentence::of(
                "channel # is there twice",
                repeated(values_at(case.table, "channels")),
            ),
            other: None,
        },
    }
}

/// That a table of a list has an id too.
fn has_id(list: TableName) -> &'static str {
    match list {
        TableName::Top => "",
        TableName::Channel => "channel # has the id # too",
        TableName::Flow => "flow # has the id # too",
        TableName::Station => "station # has the id # too",
    }
}

/// The first number of a list that stands there again; 0 where none does.
fn repeated(values: &[Value]) -> u64 {
    for value in values {
        let number = number_of(value);
        if count_of(values, number) > 1 {
            return number;
        }
    }
    0
}

/// How often a number stands in a list.
fn count_of(values: &[Value], number: u64) -> usize {
    let mut count = 0usize;
    for value in values {
        count = count.saturating_add(usize::from(number_of(value) == number));
    }
    count
}

/// A cluster hasn't a SID for each channel.
pub(crate) fn cluster_length<'d>(case: &Case<'d>) -> Why<'d> {
    let wanted = values_at(case.table, "channels").len() as u64;
    let (number, count) = other_length(case.table, wanted);
    Why {
        key: "clusters",
        sentence: Sentence(
            "each list needs as many SIDs as there are channels, #, and list # has #",
            [wanted, number, count, 0],
        ),
        other: None,
    }
}

/// The first cluster that has not so many SIDs, counted from 1, and how many it has.
fn other_length(flow: &Table, wanted: u64) -> (u64, u64) {
    for (place, cluster) in values_at(flow, "clusters").iter().enumerate() {
        let count = values_of(cluster).len() as u64;
        if count != wanted {
            return (place.saturating_add(1) as u64, count);
        }
    }
    (0, 0)
}

/// Another cluster has a SID on the same channel.
pub(crate) fn duplicate_sid<'d>(case: &Case<'d>) -> Why<'d> {
    let earlier = items_before(case.document, case.place);
    for (index, item) in earlier.iter().enumerate() {
        if let Some(flow) = item.as_table() {
            if let Some((channel, sid)) = shared_sid(case.table, flow, 1) {
                let place = place_in(TableName::Flow, index);
                return Why {
                    key: "clusters",
                    sentence: Sentence(
                        "flow # has SID # on channel # too",
                        [u64::from(place.index), sid, channel, 0],
                    ),
                    other: Some(KeyPath::of(place, Some("clusters"))),
                };
            }
        }
    }
    twice(case)
}

/// The flow has a SID in two clusters, on the same channel.
fn twice<'d>(case: &Case<'d>) -> Why<'d> {
    let (channel, sid) = shared_sid(case.table, case.table, 2).unwrap_or((0, 0));
    Why {
        key: "clusters",
        sentence: Sentence(
            "SID # is there twice on channel #, in two lists",
            [sid, channel, 0, 0],
        ),
        other: None,
    }
}

/// The first SID of a flow that another has so many times on the same channel, behind that channel's id.
fn shared_sid(flow: &Table, other: &Table, many: usize) -> Option<(u64, u64)> {
    for place in 0..sids_of(flow) {
        if let Some(sid) = sid_at(flow, place) {
            if times(other, sid) >= many {
                return Some(sid);
            }
        }
    }
    None
}

/// How many times a flow has a SID on a channel.
fn times(flow: &Table, sid: (u64, u64)) -> usize {
    let mut times = 0usize;
    for place in 0..sids_of(flow) {
        times = times.saturating_add(usize::from(sid_at(flow, place) == Some(sid)));
    }
    times
}

/// How many SIDs a flow has, with one for each channel in each cluster.
fn sids_of(flow: &Table) -> usize {
    let clusters = values_at(flow, "clusters").len();
    clusters.saturating_mul(values_at(flow, "channels").len())
}

/// The SID at a place among them, cluster by cluster, behind the id of its channel. None where the cluster lacks it.
fn sid_at(flow: &Table, place: usize) -> Option<(u64, u64)> {
    let (channels, clusters) = (values_at(flow, "channels"), values_at(flow, "clusters"));
    let width = channels.len().max(1);
    let sids: &[Value] = clusters.get(place / width).map_or(&[], values_of);
    let channel = channels.get(place % width).map(number_of);
    channel.zip(sids.get(place % width).map(number_of))
}
