use crate::documents::{LISTS, TOP, items_of, place_in, title_of};
use crate::drafts::{Draft, Why};
use crate::keys::Keys;
use crate::lists::Drafts;
use crate::sentences::Sentence;
use crate::shapes::Shape;
use crate::titles::Title;
use toml::{Table, Value};
use us_flows::{
    ConfigFault, Key, MAX_CODEWORD, Place, Rule, TableName, channel_keys, keeps, kind_at,
    profile_keys, short_keys, station_keys, top_keys,
};

/// Adds what is wrong with the shapes of all tables of a document. An item that is no table is told of with its list.
pub(crate) fn add_shapes<'d>(drafts: &mut Drafts<'d>, document: &'d Table) {
    listed(document, TOP, top_keys()).add_to(drafts);
    for list in &LISTS {
        add_list(drafts, *list, items_of(document, *list));
    }
}

/// Those of the tables of a list.
fn add_list<'d>(drafts: &mut Drafts<'d>, list: TableName, items: &'d [Value]) {
    for (index, item) in items.iter().enumerate() {
        if let Some(table) = item.as_table() {
            add_table(drafts, place_in(list, index), table);
        }
    }
}

/// Those of a channel, a flow or a station.
fn add_table<'d>(drafts: &mut Drafts<'d>, place: Place, table: &'d Table) {
    match place.table {
        TableName::Top => {}
        TableName::Channel => add_channel(drafts, place, table),
        TableName::Flow => add_flow(drafts, place, table),
        TableName::Station => listed(table, place, station_keys()).add_to(drafts),
    }
}

/// A table with these keys.
fn listed<'d>(table: &'d Table, place: Place, keys: &'static [Key]) -> Shape<'d> {
    Shape {
        keys: Keys::Listed(keys),
        table,
        title: title_of(table, place),
    }
}

/// Those of a flow. Where its type is wrong or missing, that is all: the type says which keys it may have.
fn add_flow<'d>(drafts: &mut Drafts<'d>, place: Place, table: &'d Table) {
    let title = title_of(table, place);
    match table.get("type") {
        None => drafts.push(Draft::missing(title, "type", Rule::Type)),
        Some(kind) if !keeps(Rule::Type, kind) => {
            drafts.push(Draft::wrong(title, "type", Rule::Type, kind));
        }
        Some(_) => {
            let keys = Keys::OfFlows(kind_at(table));
            Shape { keys, table, title }.add_to(drafts);
        }
    }
}

/// Those of a channel and of its profiles. A profile that is no table breaks the rule of its key, and that is all.
fn add_channel<'d>(drafts: &mut Drafts<'d>, place: Place, channel: &'d Table) {
    listed(channel, place, channel_keys()).add_to(drafts);
    add_profile(drafts, place, channel, "long", profile_keys());
    add_profile(drafts, place, channel, "short", short_keys());
    add_profile(drafts, place, channel, "unsolicited", profile_keys());
}

/// Those of one profile.
fn add_profile<'d>(
    drafts: &mut Drafts<'d>,
    place: Place,
    channel: &'d Table,
    key: &'static str,
    keys: &'static [Key],
) {
    let Some(Value::Table(table)) = channel.get(key) else {
        return;
    };
    let title = Title {
        profile: Some(key),
        ..title_of(channel, place)
    };
    let keys = Keys::Listed(keys);
    let shape = Shape { keys, table, title };
    shape.add_to(drafts);
    if let Some(why) = long_codeword(&shape) {
        drafts.push(Draft::several(title, ConfigFault::Range(place), why));
    }
}

/// That the codewords of a profile are too long, though both numbers keep their rules. One of them alone is short enough.
fn long_codeword<'a>(profile: &Shape<'_>) -> Option<Why<'a>> {
    let (data, most) = (profile.number("fec_k"), profile.number("fec_t"));
    let bytes = data.saturating_add(most.saturating_mul(2));
    if bytes <= MAX_CODEWORD {
        return None;
    }
    Some(Why {
        key: "fec_k",
        sentence: Sentence(
            "# and twice fec_t, #, are # bytes together, at most # are wanted",
            [data, most, bytes, MAX_CODEWORD],
        ),
        other: None,
    })
}
