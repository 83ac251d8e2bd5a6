use crate::titles::Title;
use toml::{Table, Value};
use us_flows::{Place, TableName};

/// The top level.
pub(crate) const TOP: Place = Place {
    table: TableName::Top,
    index: 0,
};

/// The kinds of tables that stand in lists.
pub(crate) static LISTS: [TableName; 3] = [TableName::Channel, TableName::Flow, TableName::Station];

/// The key of the top level that has the tables of a kind.
pub(crate) fn key_of(list: TableName) -> &'static str {
    match list {
        TableName::Top => "",
        TableName::Channel => "channel",
        TableName::Flow => "flow",
        TableName::Station => "station",
    }
}

/// The kind of tables that a key of the top level has, behind its place among the lists.
pub(crate) fn list_at(key: &str) -> Option<(usize, TableName)> {
    for (place, list) in LISTS.iter().enumerate() {
        if key_of(*list) == key {
            return Some((place, *list));
        }
    }
    None
}

/// The tables of a document of one kind, and what else stands in their list.
pub(crate) fn items_of(document: &Table, list: TableName) -> &[Value] {
    values_at(document, key_of(list))
}

/// The place of an item of a list.
pub(crate) fn place_in(list: TableName, index: usize) -> Place {
    Place {
        table: list,
        index: u32::try_from(index).unwrap_or(u32::MAX),
    }
}

/// The items of a list that stand before a place of it.
pub(crate) fn items_before(document: &Table, place: Place) -> &[Value] {
    let items = items_of(document, place.table);
    items.get(..place.index as usize).unwrap_or(items)
}

/// The table at a place.
pub(crate) fn table_at(document: &Table, place: Place) -> Option<&Table> {
    match place.table {
        TableName::Top => Some(document),
        list => {
            let item = items_of(document, list).get(place.index as usize);
            item.and_then(Value::as_table)
        }
    }
}

/// What a finding calls a table that stands at a place.
pub(crate) fn title_of(table: &Table, place: Place) -> Title {
    let id = table.get("id").and_then(Value::as_integer).unwrap_or(-1);
    Title {
        place,
        id: u64::try_from(id).ok(),
        profile: None,
    }
}

/// A whole number from 0 on; 0 for all other values.
pub(crate) fn number_of(value: &Value) -> u64 {
    u64::try_from(value.as_integer().unwrap_or(0)).unwrap_or(0)
}

/// The number of a key.
pub(crate) fn number_at(table: &Table, key: &str) -> u64 {
    table.get(key).map_or(0, number_of)
}

/// The values of a list; none for all other values.
pub(crate) fn values_of(value: &Value) -> &[Value] {
    value.as_array().map_or(&[], Vec::as_slice)
}

/// The values of the list of a key.
pub(crate) fn values_at<'a>(table: &'a Table, key: &str) -> &'a [Value] {
    table.get(key).map_or(&[], values_of)
}
