ghost use Rattle.std.specs.Prelude.{◌≡◌, ◌<◌, ◌++◌, ◌^◌, length, Some, IfOk, IfErr, IfNone, false};
ghost use Rattle.toml.specs.Data.{item, no_items};
ghost use Rattle.toml.specs.View.{view, table_view, items_view};
ghost use Rattle.us_flows.specs.Keys;
ghost use Rattle.us_flows.specs.Shapes;
ghost use Rattle.us_slots.specs.Lists.{first_of};
ghost use Rattle.us_flows.specs.Checks.{has_station, station_shape, station_rules, station_fault, stations_fault, in_turn};
ghost use Rattle.us_flows.specs.Reading;
ghost use Rattle.us_flows.specs.Answers.{Judged};

use crate::documents::{u8_at, u16_at, u32_at};
use crate::faults::{ConfigFault, Place, TOP, TableName};
use crate::keys::station_keys;
use crate::limits::is_too_long;
use crate::listed::{Channels, Stations};
use crate::shapes::{lacks, strays};
use crate::stations::Station;
use std::alloc::Global;
use toml::{Table, Value};

/// The stations of a list, or their first fault.
pub(crate) fn stations_of(
    alloc: Global,
    round_ticks: u32,
    channels: &Channels,
    items: &[Value],
) -> Result<Stations, ConfigFault>
    requires { length items.now < 2 ^ 32 }
    ensures { Judged result (stations_fault round_ticks channels.now (items_view items.now))
        (λ stations. stations ≡ Reading.all_of Reading.station_of (items_view items.now)) }
{
    let mut stations = Stations::new(alloc);
    for value in items {
        push_station(round_ticks, channels, &mut stations, value)?;
    }
    Ok(stations)
}

/// Puts the station of a value behind these others, or answers its first fault.
fn push_station(
    round_ticks: u32,
    channels: &Channels,
    stations: &mut Stations,
    value: &Value,
) -> Result<(), ConfigFault>
    requires { length stations.old < 2 ^ 32 }
    ensures { Judged result (in_turn Reading.station_of (station_fault round_ticks channels.now) stations.old
        (item (view value.now) no_items))
        (λ _. stations.new ≡ stations.old ++ Reading.all_of Reading.station_of (item (view value.now) no_items)) }
{
    match value.as_table() {
        Some(table) => {
            let station = station_in(round_ticks, channels, stations, table)?;
            Ok(stations.push(station)?)
        }
        None => Err(ConfigFault::Range(TOP)),
    }
}

/// The station of a table that stands behind these others, or its first fault.
#[tactic(auto, unfolding(crate::specs::Checks::station_fault))]
fn station_in(
    round_ticks: u32,
    channels: &Channels,
    earlier: &Stations,
    table: &Table,
) -> Result<Station, ConfigFault>
    requires { length earlier.now < 2 ^ 32 }
    ensures judged { Judged result (station_fault round_ticks channels.now earlier.now (table_view table.now))
        (λ station. station ≡ Reading.station_of (table_view table.now)) }
    // No memory is taken here.
    ensures fault { IfErr result (λ fault.
        station_fault round_ticks channels.now earlier.now (table_view table.now) ≡ Some fault) }
    ensures other_id { IfOk result (λ station. has_station earlier.now station.id ≡ false) }
{
    let place = Place {
        table: TableName::Station,
        index: earlier.len() as u32,
    };
    if let Some(fault) = shape_fault(place, table) {
        return Err(fault);
    }
    let station = station_of(table);
    match rules_fault(place, round_ticks, channels, earlier, &station) {
        Some(fault) => Err(fault),
        None => Ok(station),
    }
}

/// The first fault in the shape of a station's table.
fn shape_fault(place: Place, table: &Table) -> Option<ConfigFault>
    ensures { result ≡ first_of (station_shape place (table_view table.now)) }
{
    if lacks(station_keys(), table) {
        return Some(ConfigFault::Missing(place));
    }
    if strays(station_keys(), table) {
        return Some(ConfigFault::Range(place));
    }
    None
}

/// The station of a table whose shape has no fault.
fn station_of(table: &Table) -> Station
    requires whole { Shapes.lacks Keys.station_keys (table_view table.now) ≡ false }
    requires ranged { Shapes.strays Keys.station_keys (table_view table.now) ≡ false }
    ensures { result ≡ Reading.station_of (table_view table.now) }
{
    Station {
        id: u16_at(table, "id"),
        channel: u8_at(table, "channel"),
        sid: u16_at(table, "sid"),
        start_us: u32_at(table, "start_us"),
        interval_us: u32_at(table, "interval_us"),
        jitter_us: u32_at(table, "jitter_us"),
    }
}

/// The first fault of a station's values beside the channels and the stations before it.
fn rules_fault(
    place: Place,
    round_ticks: u32,
    channels: &Channels,
    earlier: &Stations,
    station: &Station,
) -> Option<ConfigFault>
    ensures value { result ≡ first_of (station_rules place round_ticks channels.now earlier.now station.now) }
    ensures other_id { IfNone result (has_station earlier.now station.now.id ≡ false) }
{
    if !channels.has(station.channel) {
        return Some(ConfigFault::UnknownChannel(place));
    }
    if earlier.has(station.id) {
        return Some(ConfigFault::DuplicateId(place));
    }
    if station.interval_us <= station.jitter_us {
        return Some(ConfigFault::Jitter(place));
    }
    if let Some(channel) = channels.get(station.channel) {
        if is_too_long(round_ticks, channel, u32::from(channel.station_minislots)) {
            return Some(ConfigFault::GrantLongerThanMap(place));
        }
    }
    None
}
