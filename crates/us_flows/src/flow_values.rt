ghost use Rattle.std.specs.Prelude.{◌≡◌, ◌≤◌, ◌<◌, length, is_none, option_map, Some, IfSome};
ghost use Rattle.toml.specs.Data.{get_member};
ghost use Rattle.toml.specs.View.{view, table_view, items_view};
ghost use Rattle.us_flows.specs.Keys.{flow_keys};
ghost use Rattle.us_flows.specs.Documents;
ghost use Rattle.us_flows.specs.Shapes;
ghost use Rattle.us_flows.specs.Reading;
ghost use Rattle.us_flows.specs.KeyValues.{place_of, name_at, AreFound};

use crate::documents::{flag_of, items_of, number_at, number_of, value_at};
use crate::flows::SchedulingType;
use crate::keys::{FLOW_KEY_COUNT, all_flow_keys};
use crate::shapes::{flow_allows, is_optional, keeps};
use std::marker::Model;
use toml::{Table, Value};

/// The table of a flow, with the values of its keys by their places: what a walk over the table finds, so that no key has
/// to be looked for.
#[derive(Drop)]
pub(crate) struct FlowValues<'a> {
    table: &'a Table,
    kind: SchedulingType,
    values: [Option<&'a Value>; FLOW_KEY_COUNT],
    /// Whether it has a key that isn't listed, or one whose value breaks its rule.
    strays: bool,
}

impl<'a> Model for FlowValues<'a> {
    ghost use Rattle.std.specs.Prelude.{String};
    ghost use Rattle.std.specs.declared.alloc.Global.{Global};
    ghost use Rattle.std.specs.BTreeMap.{BTreeMap};
    ghost use Rattle.toml.specs.Rows.{table_row};
    ghost use Rattle.toml.specs.View.{table_view};
    ghost use Rattle.toml.specs.declared.value.Value.{Value as Item};
    ghost use Rattle.us_flows.specs.KeyValues.{AreValuesOf};

    ghost Value = { BTreeMap (String Global) Item };

    ghost coded = { table_row.coded };

    ghost view = { λ f. f.table.now };

    ghost invariant = { λ f. AreValuesOf f.kind f.values f.strays (table_view f.table.now) };
}

impl<'a> FlowValues<'a> {
    /// Those of a flow's table.
    pub(crate) fn new(table: &'a Table) -> FlowValues<'a>
        ensures { result ≡ table.entry.now }
    {
        let kind = kind_at(table);
        let mut values = [None; FLOW_KEY_COUNT];
        let mut strays = false;
        for (name, value) in table {
            match place_of(name) {
                Some(place) => {
                    if values[place].is_none() {
                        values[place] = Some(value);
                    }
                    strays = strays || !allows_at(kind, place, name, value);
                }
                None => strays = true,
            }
        }
        FlowValues {
            table,
            kind,
            values,
            strays,
        }
    }

    /// The scheduling type of the flow.
    pub(crate) fn kind(&self) -> SchedulingType
        ensures { result ≡ Reading.kind_at (table_view self.now) }
    {
        self.kind
    }

    /// Whether the table lacks a key that a flow of its type has to have.
    pub(crate) fn lacks(&self) -> bool
        ensures { result ≡ Shapes.lacks (flow_keys (Reading.kind_at (table_view self.now))) (table_view self.now) }
    {
        for (place, (name, types, rule)) in all_flow_keys().iter().enumerate() {
            if types.have(self.kind) && self.lacks_at(place, name) && !is_optional(*rule) {
                return true;
            }
        }
        false
    }

    /// Whether the table lacks the key at a place, which has this name.
    fn lacks_at(&self, place: usize, name: &str) -> bool
        requires within { place < 17 }
        requires named { name_at place ≡ name.now }
        ensures { result ≡ is_none (get_member name.now (table_view self.now)) }
    {
        // Of two keys with one name the second's place is always free.
        self.found()[place].is_none() && value_at(self.table, name).is_none()
    }

    /// Whether the table has a key that no flow of its type has, or one whose value breaks its rule.
    pub(crate) fn strays(&self) -> bool
        ensures { result ≡ Shapes.strays (flow_keys (Reading.kind_at (table_view self.now))) (table_view self.now) }
    {
        self.strays
    }

    /// The value of the key at a place.
    pub(crate) fn value(&self, place: usize) -> Option<&'a Value>
        requires within { place < 17 }
        requires first { place_of (name_at place) ≡ Some place }
        ensures { option_map (λ value. view value.now) result ≡ get_member (name_at place) (table_view self.now) }
    {
        self.found()[place]
    }

    /// What was found, as a slice.
    fn found(&self) -> &[Option<&'a Value>]
        ensures found { AreFound result.now (table_view self.now) }
        ensures count { length result.now ≡ 17 }
    {
        &self.values[..]
    }

    /// The number of the key at a place.
    fn number(&self, place: usize) -> u64
        requires within { place < 17 }
        requires first { place_of (name_at place) ≡ Some place }
        ensures { result ≡ Documents.number_at (name_at place) (table_view self.now) }
    {
        match self.value(place) {
            Some(value) => number_of(value),
            None => 0,
        }
    }

    /// The number of the key at a place, known to fit.
    pub(crate) fn u8(&self, place: usize) -> u8
        requires within { place < 17 }
        requires first { place_of (name_at place) ≡ Some place }
        requires fits { Documents.number_at (name_at place) (table_view self.now) ≤ 255 }
        ensures { result ≡ Documents.number_at (name_at place) (table_view self.now) }
    {
        self.number(place) as u8
    }

    /// The number of the key at a place, known to fit.
    pub(crate) fn u16(&self, place: usize) -> u16
        requires within { place < 17 }
        requires first { place_of (name_at place) ≡ Some place }
        requires fits { Documents.number_at (name_at place) (table_view self.now) ≤ 65535 }
        ensures { result ≡ Documents.number_at (name_at place) (table_view self.now) }
    {
        self.number(place) as u16
    }

    /// The number of the key at a place, known to fit.
    pub(crate) fn u32(&self, place: usize) -> u32
        requires within { place < 17 }
        requires first { place_of (name_at place) ≡ Some place }
        requires fits { Documents.number_at (name_at place) (table_view self.now) ≤ 4294967295 }
        ensures { result ≡ Documents.number_at (name_at place) (table_view self.now) }
    {
        self.number(place) as u32
    }

    /// The truth of the key at a place.
    pub(crate) fn flag(&self, place: usize) -> bool
        requires within { place < 17 }
        requires first { place_of (name_at place) ≡ Some place }
        ensures { result ≡ Documents.flag_at (name_at place) (table_view self.now) }
    {
        match self.value(place) {
            Some(value) => flag_of(value),
            None => false,
        }
    }

    /// The items of the list of the key at a place.
    pub(crate) fn items(&self, place: usize) -> &'a [Value]
        requires within { place < 17 }
        requires first { place_of (name_at place) ≡ Some place }
        ensures { items_view result.now ≡ Documents.items_at (name_at place) (table_view self.now) }
    {
        match self.value(place) {
            Some(value) => items_of(value),
            None => &[],
        }
    }
}

/// The scheduling type of a flow's table; that of best effort where the table tells none.
pub fn kind_at(table: &Table) -> SchedulingType
    ensures { result ≡ Reading.kind_at (table_view table.now) }
{
    match number_at(table, "type") {
        3 => SchedulingType::NonRealTimePolling,
        4 => SchedulingType::RealTimePolling,
        5 => SchedulingType::ActivityDetection,
        6 => SchedulingType::UnsolicitedGrant,
        _ => SchedulingType::BestEffort,
    }
}

/// The place of a name among the keys of all flows.
fn place_of(name: &str) -> Option<usize>
    ensures value { result ≡ place_of name.now }
    ensures within { IfSome result (λ place. place < 17) }
{
    for (place, (listed, _, _)) in all_flow_keys().iter().enumerate() {
        if *listed == name {
            return Some(place);
        }
    }
    None
}

/// Whether a flow of this type has the key of this name, which is first at a place, and the value keeps its rule.
fn allows_at(kind: SchedulingType, place: usize, name: &str, value: &Value) -> bool
    requires within { place < 17 }
    requires named { place_of name.now ≡ Some place }
    ensures { result ≡ Shapes.allows (flow_keys kind) name.now (view value.now) }
{
    let (_, types, rule) = all_flow_keys()[place];
    if types.have(kind) {
        return keeps(rule, value);
    }
    flow_allows(kind, name, value)
}
