ghost use Rattle.std.specs.Prelude.{◌≡◌, ◌<◌, ◌≤◌, ◌++◌, ◌^◌, length, map, Err, None, IfOk, IfSome, true, false};
ghost use Rattle.toml.specs.Data.{item, no_items};
ghost use Rattle.toml.specs.View.{view, table_view, items_view};
ghost use Rattle.us_flows.specs.Ranges.{max_flows, max_channel_id, max_unicast_sid};
ghost use Rattle.us_flows.specs.Keys.{flow_keys};
ghost use Rattle.us_flows.specs.Documents;
ghost use Rattle.us_flows.specs.Shapes;
ghost use Rattle.us_flows.specs.Checks;
ghost use Rattle.us_slots.specs.Lists.{first_of};
ghost use Rattle.us_flows.specs.Checks.{flow_shape, flow_names, flow_fault, flows_fault, in_turn};
ghost use Rattle.us_flows.specs.Reading;
ghost use Rattle.us_flows.specs.Reading.{kind_at};
ghost use Rattle.us_flows.specs.Answers.{Judged};

use crate::documents::{items_of, u8_of, u16_of};
use crate::faults::{ConfigFault, Place, TOP, TableName};
use crate::flow_grants::grants_fault;
use crate::flow_names::{names_fault, sids_of};
use crate::flow_values::FlowValues;
use crate::flows::Flow;
use crate::key_places::{
    BURST, CHANNELS, CLUSTERS, GRANT_BYTES, GRANTS_PER_INTERVAL, HEADERS, ID, INTERVAL_US,
    JITTER_US, MIN_RATE, PRIORITY, RATE, START_US, TYPE, UNIT,
};
use crate::listed::{Channels, Flows};
use crate::shapes::is_type;
use std::alloc::{AllocError, Global};
use toml::Value;

/// The flows of a list, or their first fault.
pub(crate) fn flows_of(
    alloc: Global,
    round_ticks: u32,
    channels: &Channels,
    items: &[Value],
) -> Result<Flows, ConfigFault>
    requires { length items.now ≤ max_flows }
    ensures { Judged result (flows_fault round_ticks channels.now (items_view items.now))
        (λ flows. flows ≡ Reading.all_of Reading.flow_of (items_view items.now)) }
{
    let mut flows = Flows::new(alloc);
    for value in items {
        flows = pushed_flow(alloc, round_ticks, channels, flows, value)?;
    }
    Ok(flows)
}

/// These flows with that of a value behind them, or its first fault.
fn pushed_flow(
    alloc: Global,
    round_ticks: u32,
    channels: &Channels,
    flows: Flows,
    value: &Value,
) -> Result<Flows, ConfigFault>
    requires { length flows < max_flows }
    ensures { Judged result (in_turn Reading.flow_of (flow_fault round_ticks channels.now) flows
        (item (view value.now) no_items))
        (λ more. more ≡ flows ++ Reading.all_of Reading.flow_of (item (view value.now) no_items)) }
{
    match value.as_table() {
        Some(table) => {
            let values = FlowValues::new(table);
            let flow = flow_in(alloc, round_ticks, channels, &flows, &values)?;
            Ok(flows.pushed(flow)?)
        }
        None => Err(ConfigFault::Range(TOP)),
    }
}

/// The flow of a table that stands behind these others, or its first fault.
#[tactic(auto, unfolding(crate::specs::Checks::flow_fault))]
fn flow_in(
    alloc: Global,
    round_ticks: u32,
    channels: &Channels,
    earlier: &Flows,
    values: &FlowValues<'_>,
) -> Result<Flow, ConfigFault>
    requires { length earlier.now < 2 ^ 32 }
    ensures judged { Judged result (flow_fault round_ticks channels.now earlier.now (table_view values.now))
        (λ flow. flow ≡ Reading.flow_of (table_view values.now)) }
    // The shape is judged before memory is taken.
    ensures early { IfSome (first_of (flow_shape (Checks.flow_place earlier.now) (table_view values.now)))
        (λ fault. result ≡ Err fault) }
    // Its names are apart from those of the flows before it, and it has few clusters.
    ensures names { IfOk result (λ flow.
        first_of (flow_names (Checks.flow_place earlier.now) channels.now earlier.now flow) ≡ None) }
    ensures few { IfOk result (λ flow. length flow.clusters ≤ 2) }
{
    let place = Place {
        table: TableName::Flow,
        index: earlier.len() as u32,
    };
    if let Some(fault) = shape_fault(place, values) {
        return Err(fault);
    }
    let flow = flow_of(alloc, values)?;
    let sids = sids_of(alloc, &flow)?;
    if let Some(fault) = names_fault(place, channels, earlier, &flow, &sids) {
        return Err(fault);
    }
    match grants_fault(place, round_ticks, channels, &flow) {
        Some(fault) => Err(fault),
        None => Ok(flow),
    }
}

/// The first fault in the shape of a flow's table, of which the type is looked at first.
#[tactic(auto, unfolding(crate::specs::Keys::all_flow_keys))]
fn shape_fault(place: Place, values: &FlowValues<'_>) -> Option<ConfigFault>
    ensures { result ≡ first_of (flow_shape place (table_view values.now)) }
{
    match values.value(TYPE) {
        Some(kind) => {
            if !is_type(kind) {
                return Some(ConfigFault::Range(place));
            }
        }
        None => return Some(ConfigFault::Missing(place)),
    }
    if values.lacks() {
        return Some(ConfigFault::Missing(place));
    }
    if values.strays() {
        return Some(ConfigFault::Range(place));
    }
    None
}

/// The flow of a table whose shape has no fault.
#[tactic(auto, unfolding(crate::specs::Keys::all_flow_keys))]
fn flow_of(alloc: Global, values: &FlowValues<'_>) -> Result<Flow, AllocError>
    requires whole { Shapes.lacks (flow_keys (kind_at (table_view values.now))) (table_view values.now) ≡ false }
    requires ranged { Shapes.strays (flow_keys (kind_at (table_view values.now))) (table_view values.now) ≡ false }
    ensures { IfOk result (λ flow. flow ≡ Reading.flow_of (table_view values.now)) }
{
    let channels = ids_of(alloc, values.items(CHANNELS))?;
    let clusters = clusters_of(alloc, values.items(CLUSTERS))?;
    Ok(Flow {
        id: values.u16(ID),
        kind: values.kind(),
        channels,
        clusters,
        priority: values.u8(PRIORITY),
        rate: values.u32(RATE),
        burst: values.u32(BURST),
        min_rate: values.u32(MIN_RATE),
        unit: values.u8(UNIT),
        headers: values.flag(HEADERS),
        start_us: values.u32(START_US),
        interval_us: values.u32(INTERVAL_US),
        jitter_us: values.u32(JITTER_US),
        grant_bytes: values.u16(GRANT_BYTES),
        grants_per_interval: values.u8(GRANTS_PER_INTERVAL),
    })
}

/// The channel ids of a list.
fn ids_of(alloc: Global, items: &[Value]) -> Result<Vec<u8>, AllocError>
    requires { Shapes.all_items (Shapes.is_number 1 max_channel_id) (items_view items.now) ≡ true }
    ensures { IfOk result (λ ids. ids.items ≡ Documents.numbers_of (items_view items.now)) }
{
    let mut ids = Vec::new(alloc);
    for value in items {
        ids.push(u8_of(value))?;
    }
    Ok(ids)
}

/// The SIDs of one cluster.
fn cluster_of(alloc: Global, items: &[Value]) -> Result<Vec<u16>, AllocError>
    requires { Shapes.all_items (Shapes.is_number 1 max_unicast_sid) (items_view items.now) ≡ true }
    ensures { IfOk result (λ sids. sids.items ≡ Documents.numbers_of (items_view items.now)) }
{
    let mut sids = Vec::new(alloc);
    for value in items {
        sids.push(u16_of(value))?;
    }
    Ok(sids)
}

/// The clusters of a list of lists.
fn clusters_of(alloc: Global, items: &[Value]) -> Result<Vec<Vec<u16>>, AllocError>
    requires { Shapes.all_items (Shapes.is_number_list 1 max_unicast_sid) (items_view items.now) ≡ true }
    ensures { IfOk result (λ clusters.
        map (λ sids. sids.items) clusters.items ≡ Documents.lists_of (items_view items.now)) }
{
    let mut clusters = Vec::new(alloc);
    for value in items {
        clusters.push(cluster_of(alloc, items_of(value))?)?;
    }
    Ok(clusters)
}
