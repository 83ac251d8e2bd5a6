ghost use Rattle.std.specs.Prelude.{◌≡◌, ◌≤◌, option_map, IfSome, IfNone};
ghost use Rattle.toml.specs.Data.{get_member, no_members};
ghost use Rattle.toml.specs.View.{view, table_view, items_view};
ghost use Rattle.us_flows.specs.Documents;

use toml::{Table, Value};

/// The value of a key.
pub(crate) fn value_at<'a>(table: &'a Table, key: &str) -> Option<&'a Value>
    ensures { option_map (λ value. view value.now) result ≡ get_member key.now (table_view table.now) }
{
    table.get(key)
}

/// A whole number from 0 on; 0 for all other values.
pub(crate) fn number_of(value: &Value) -> u64
    ensures { result ≡ Documents.number_of (view value.now) }
{
    match value.as_integer() {
        Some(number) => u64::try_from(number).unwrap_or(0),
        None => 0,
    }
}

/// A whole number, known to fit.
pub(crate) fn u8_of(value: &Value) -> u8
    requires { Documents.number_of (view value.now) ≤ 255 }
    ensures { result ≡ Documents.number_of (view value.now) }
{
    number_of(value) as u8
}

/// A whole number, known to fit.
pub(crate) fn u16_of(value: &Value) -> u16
    requires { Documents.number_of (view value.now) ≤ 65535 }
    ensures { result ≡ Documents.number_of (view value.now) }
{
    number_of(value) as u16
}

/// The items of a list; none for all other values.
pub(crate) fn items_of(value: &Value) -> &[Value]
    ensures { items_view result.now ≡ Documents.items_of (view value.now) }
{
    match value.as_array() {
        Some(items) => items,
        None => &[],
    }
}

/// The number of a key.
pub(crate) fn number_at(table: &Table, key: &str) -> u64
    ensures { result ≡ Documents.number_at key.now (table_view table.now) }
{
    match value_at(table, key) {
        Some(value) => number_of(value),
        None => 0,
    }
}

/// The number of a key, known to fit.
pub(crate) fn u8_at(table: &Table, key: &str) -> u8
    requires { Documents.number_at key.now (table_view table.now) ≤ 255 }
    ensures { result ≡ Documents.number_at key.now (table_view table.now) }
{
    number_at(table, key) as u8
}

/// The number of a key, known to fit.
pub(crate) fn u16_at(table: &Table, key: &str) -> u16
    requires { Documents.number_at key.now (table_view table.now) ≤ 65535 }
    ensures { result ≡ Documents.number_at key.now (table_view table.now) }
{
    number_at(table, key) as u16
}

/// The number of a key, known to fit.
pub(crate) fn u32_at(table: &Table, key: &str) -> u32
    requires { Documents.number_at key.now (table_view table.now) ≤ 4294967295 }
    ensures { result ≡ Documents.number_at key.now (table_view table.now) }
{
    number_at(table, key) as u32
}

/// True or false; false for all other values.
pub(crate) fn flag_of(value: &Value) -> bool
    ensures { result ≡ Documents.flag_of (view value.now) }
{
    value.as_bool().unwrap_or(false)
}

/// The truth of a key.
pub(crate) fn flag_at(table: &Table, key: &str) -> bool
    ensures { result ≡ Documents.flag_at key.now (table_view table.now) }
{
    match value_at(table, key) {
        Some(value) => flag_of(value),
        None => false,
    }
}

/// The items of a key's list.
pub(crate) fn items_at<'a>(table: &'a Table, key: &str) -> &'a [Value]
    ensures { items_view result.now ≡ Documents.items_at key.now (table_view table.now) }
{
    match value_at(table, key) {
        Some(value) => items_of(value),
        None => &[],
    }
}

/// The table of a key.
pub(crate) fn table_at<'a>(table: &'a Table, key: &str) -> Option<&'a Table>
    ensures some { IfSome result (λ inner. table_view inner.now ≡ Documents.table_at key.now (table_view table.now)) }
    ensures none { IfNone result (Documents.table_at key.now (table_view table.now) ≡ no_members) }
{
    match value_at(table, key) {
        Some(value) => value.as_table(),
        None => None,
    }
}

/// The number at a place of a list; 0 where there is none.
#[tactic(auto, using(crate::proofs::DocumentLemmas::number_within, crate::proofs::DocumentLemmas::number_past))]
pub(crate) fn number_in(items: &[Value], index: usize) -> u64
    ensures { result ≡ Documents.number_in index (items_view items.now) }
{
    if index < items.len() {
        number_of(&items[index])
    } else {
        0
    }
}
