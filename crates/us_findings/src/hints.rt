use crate::keys::Keys;
use toml::Table;
use us_flows::{
    Key, Types, all_flow_keys, channel_keys, profile_keys, short_keys, station_keys, top_keys,
};

/// What helps with a key that a table can't have.
#[derive(Clone, Copy)]
pub(crate) struct Hint {
    /// Which tables have it, or words before the key that is meant.
    pub(crate) words: &'static str,
    /// The key that is meant, where one is known.
    pub(crate) key: &'static str,
}

/// What helps with a key of a table that isn't one of these.
pub(crate) fn hint_of(keys: Keys, table: &Table, key: &str) -> Hint {
    if let Keys::OfFlows(_) = keys {
        if let Some(types) = types_of(key) {
            return Hint {
                words: flows_of(types),
                key: "",
            };
        }
    }
    match near_key(keys, table, key) {
        Some(key) => Hint {
            words: ", perhaps for ",
            key,
        },
        None => Hint {
            words: tables_with(key),
            key: "",
        },
    }
}

/// The types whose flows have a key, by its first rule.
fn types_of(key: &str) -> Option<Types> {
    for (name, types, _) in all_flow_keys() {
        if *name == key {
            return Some(*types);
        }
    }
    None
}

/// That flows of these types have a key.
fn flows_of(types: Types) -> &'static str {
    match types {
        Types::All => ", flows have it",
        Types::Requesting => ", flows of types 2, 3 and 4 have it",
        Types::AtIntervals => ", flows of types 3, 4, 5 and 6 have it",
        Types::Unsolicited => ", flows of types 5 and 6 have it",
    }
}

/// The first of these keys that is spelled like another: but for capital letters, or nearly, where the table lacks it.
fn near_key(keys: Keys, table: &Table, key: &str) -> Option<&'static str> {
    for place in 0..keys.places() {
        if let Some((name, _)) = keys.at(place) {
            let is_near = are_near(name.as_bytes(), key.as_bytes()) && table.get(name).is_none();
            if is_near | name.eq_ignore_ascii_case(key) {
                return Some(name);
            }
        }
    }
    None
}

/// Whether one letter is another one, is missing or is too many, or two that stand side by side are swapped.
fn are_near(one: &[u8], other: &[u8]) -> bool {
    let same = same_start(one, other);
    let (one, other) = (behind(one, same), behind(other, same));
    let (one_rest, other_rest) = (behind(one, 1), behind(other, 1));
    (one_rest == other_rest) | (one_rest == other) | (one == other_rest) | are_swapped(one, other)
}

/// What stands behind so many letters.
fn behind(text: &[u8], count: usize) -> &[u8] {
    text.get(count..).unwrap_or(&[])
}

/// How many letters both have at their start.
fn same_start(one: &[u8], other: &[u8]) -> usize {
    for (place, letter) in one.iter().enumerate() {
        if other.get(place) != Some(letter) {
            return place;
        }
    }
    one.len()
}

/// Whether the first two letters are swapped, and all others the same.
fn are_swapped(one: &[u8], other: &[u8]) -> bool {
    let both = (one.first() == other.get(1)) & (other.first() == one.get(1));
    both & (behind(one, 2) == behind(other, 2))
}

/// Which tables have a key.
fn tables_with(key: &str) -> &'static str {
    if has(top_keys(), key) {
        return ", the top level has it, above the first header";
    }
    if has(channel_keys(), key) {
        return ", channels have it";
    }
    if has(profile_keys(), key) {
        return ", profiles have it";
    }
    if has(short_keys(), key) {
        return ", the profile short has it";
    }
    if types_of(key).is_some() {
        return ", flows have it";
    }
    if has(station_keys(), key) {
        return ", stations have it";
    }
    ""
}

/// Whether a key is one of these.
fn has(keys: &[Key], key: &str) -> bool {
    for (name, _) in keys {
        if *name == key {
            return true;
        }
    }
    false
}
