ghost use Rattle.std.specs.Prelude.{◌≡◌};
ghost use Rattle.std.specs.Int.{is_in_range};
ghost use Rattle.toml.specs.View.{view, table_view, items_view};
ghost use Rattle.us_flows.specs.Keys.{keys_of, flow_keys};
ghost use Rattle.us_flows.specs.Shapes;

use crate::documents::value_at;
use crate::flows::SchedulingType;
use crate::keys::{Key, Rule, all_flow_keys};
use toml::{Table, Value};

/// Whether a table lacks a key that it has to have.
pub(crate) fn lacks(keys: &[Key], table: &Table) -> bool
    ensures { result ≡ Shapes.lacks (keys_of keys.now) (table_view table.now) }
{
    for (name, rule) in keys {
        if value_at(table, name).is_none() && !is_optional(*rule) {
            return true;
        }
    }
    false
}

/// Whether a table has a key that isn't listed, or one whose value breaks its rule.
pub(crate) fn strays(keys: &[Key], table: &Table) -> bool
    ensures { result ≡ Shapes.strays (keys_of keys.now) (table_view table.now) }
{
    for (name, value) in table {
        if !allows(keys, name, value) {
            return true;
        }
    }
    false
}

/// Whether a key is listed, and its value keeps its rule.
fn allows(keys: &[Key], name: &str, value: &Value) -> bool
    ensures { result ≡ Shapes.allows (keys_of keys.now) name.now (view value.now) }
{
    for (listed, rule) in keys {
        if *listed == name {
            return keeps(*rule, value);
        }
    }
    false
}

/// Whether a flow of this type has a key, and the value keeps its rule.
pub(crate) fn flow_allows(kind: SchedulingType, name: &str, value: &Value) -> bool
    ensures { result ≡ Shapes.allows (flow_keys kind) name.now (view value.now) }
{
    for (listed, types, rule) in all_flow_keys() {
        if *listed == name && types.have(kind) {
            return keeps(*rule, value);
        }
    }
    false
}

/// Whether a key of this rule may be left out.
pub fn is_optional(rule: Rule) -> bool
    ensures { result ≡ Shapes.is_optional rule }
{
    match rule {
        Rule::OptionalNumber(..) => true,
        Rule::Tables(fewest, _) => fewest == 0,
        _ => false,
    }
}

/// Whether a value keeps a rule.
pub fn keeps(rule: Rule, value: &Value) -> bool
    ensures { result ≡ Shapes.keeps rule (view value.now) }
{
    match rule {
        Rule::Number(least, most) | Rule::OptionalNumber(least, most) => {
            is_number(value, least, most)
        }
        Rule::Type => is_type(value),
        Rule::Unit => is_unit(value),
        Rule::Flag => value.as_bool().is_some(),
        Rule::Numbers(fewest, many, least, most) => match value.as_array() {
            Some(items) => are_so_many(items, fewest, many) && are_numbers(items, least, most),
            None => false,
        },
        Rule::Lists(fewest, many, least, most) => match value.as_array() {
            Some(items) => are_so_many(items, fewest, many) && are_lists(items, least, most),
            None => false,
        },
        Rule::Table => value.as_table().is_some(),
        Rule::Tables(fewest, many) => match value.as_array() {
            Some(items) => are_so_many(items, fewest, many) && are_tables(items),
            None => false,
        },
    }
}

/// Whether a value is a whole number in the range.
fn is_number(value: &Value, least: u32, most: u32) -> bool
    ensures { result ≡ Shapes.is_number least most (view value.now) }
{
    match value.as_integer() {
        Some(number) => i64::from(least) <= number && number <= i64::from(most),
        None => false,
    }
}

/// Whether a value is a scheduling type: 2, 3, 4, 5 or 6.
pub(crate) fn is_type(value: &Value) -> bool
    ensures { result ≡ Shapes.is_type (view value.now) }
{
    match value.as_integer() {
        Some(number) => matches!(number, 2 | 3 | 4 | 5 | 6),
        None => false,
    }
}

/// Whether a value is 1, 2, 4, 8 or 16.
fn is_unit(value: &Value) -> bool
    ensures { result ≡ Shapes.is_unit (view value.now) }
{
    match value.as_integer() {
        Some(number) => matches!(number, 1 | 2 | 4 | 8 | 16),
        None => false,
    }
}

/// Whether there are from `fewest` to `most` items.
#[tactic(auto, using(crate::proofs::DocumentLemmas::count_view))]
fn are_so_many(items: &[Value], fewest: u32, most: u32) -> bool
    ensures { result ≡ is_in_range fewest most (Shapes.count (items_view items.now)) }
{
    fewest as usize <= items.len() && items.len() <= most as usize
}

/// Whether each item is a whole number in the range.
fn are_numbers(items: &[Value], least: u32, most: u32) -> bool
    ensures { result ≡ Shapes.all_items (Shapes.is_number least most) (items_view items.now) }
{
    for value in items {
        if !is_number(value, least, most) {
            return false;
        }
    }
    true
}

/// Whether a value is a list of whole numbers in the range.
fn is_number_list(value: &Value, least: u32, most: u32) -> bool
    ensures { result ≡ Shapes.is_number_list least most (view value.now) }
{
    match value.as_array() {
        Some(items) => are_numbers(items, least, most),
        None => false,
    }
}

/// Whether each item is a list of whole numbers in the range.
fn are_lists(items: &[Value], least: u32, most: u32) -> bool
    ensures { result ≡ Shapes.all_items (Shapes.is_number_list least most) (items_view items.now) }
{
    for value in items {
        if !is_number_list(value, least, most) {
            return false;
        }
    }
    true
}

/// Whether each item is a table.
fn are_tables(items: &[Value]) -> bool
    ensures { result ≡ Shapes.all_items Shapes.is_table (items_view items.now) }
{
    for value in items {
        if value.as_table().is_none() {
            return false;
        }
    }
    true
}
