use crate::documents::{number_at, number_of, values_at};
use crate::drafts::Why;
use crate::names::channel_with;
use crate::rules::{Case, map_len};
use crate::sentences::Sentence;
use crate::spots::KeyPath;
use toml::Table;
use us_flows::{Place, SchedulingType, TableName, kind_at};

/// The channel of a flow's grants and polls, or of a station.
#[derive(Clone, Copy)]
struct Host<'d> {
    place: Place,
    table: &'d Table,
    /// The minislots of its MAPs.
    len: u64,
}

/// A grant, a poll or a station's maintenance is longer than a MAP.
pub(crate) fn long_grant<'d>(case: &Case<'d>) -> Why<'d> {
    let host = host_of(case);
    if case.place.table == TableName::Station {
        return long_key(
            host,
            "channel",
            "station_minislots",
            "channel # has # minislots in a MAP, and its station_minislots is #",
        );
    }
    let has_polls = kind_at(case.table) != SchedulingType::UnsolicitedGrant;
    if has_polls & (host.len < number_at(host.table, "request_minislots")) {
        return long_key(
            host,
            "channels",
            "request_minislots",
            "channel # has # minislots in a MAP, and its request_minislots, for a poll, is #",
        );
    }
    let (bytes, id) = (case.number("grant_bytes"), number_at(host.table, "id"));
    Why {
        key: "grant_bytes",
        sentence: Sentence(
            "a grant of # bytes is too long for a MAP of channel #, which has # minislots",
            [bytes, id, host.len, 0],
        ),
        other: None,
    }
}

/// The first channel of the flow, or the channel of the station.
fn host_of<'d>(case: &Case<'d>) -> Host<'d> {
    let first = values_at(case.table, "channels").first();
    let id = first.map_or(case.number("channel"), number_of);
    let (place, table) = channel_with(case.document, id).unwrap_or((case.place, case.table));
    Host {
        place,
        table,
        len: map_len(case.document, table),
    }
}

/// What a key of the channel says is longer than its MAPs.
fn long_key<'d>(
    host: Host<'d>,
    key: &'static str,
    long: &'static str,
    words: &'static str,
) -> Why<'d> {
    let (id, slots) = (number_at(host.table, "id"), number_at(host.table, long));
    Why {
        key,
        sentence: Sentence(words, [id, host.len, slots, 0]),
        other: Some(KeyPath::of(host.place, Some(long))),
    }
}
