ghost use Rattle.std.specs.Prelude.{◌≡◌, ◌<◌, codes, length, None, Err, IfSome};
ghost use Rattle.std.specs.Option.{option_or};
ghost use Rattle.us_flows.specs.declared.faults.ConfigFault.TheVariants as fault;
ghost use Rattle.us_flows.specs.Ranges.{max_config_bytes};
ghost use Rattle.us_flows.specs.Documents;
ghost use Rattle.us_slots.specs.Lists.{first_of};
ghost use Rattle.us_flows.specs.Checks.{top_checks, channels_fault, flows_fault, stations_fault, first_fault};
ghost use Rattle.us_flows.specs.Reading;
ghost use Rattle.us_flows.specs.Answers.{Answers, Judged};
ghost use Rattle.toml.specs.View.{table_view};
ghost use Rattle.toml.specs.Errors.{IsMemory};

use crate::channel_tables::channels_of;
use crate::config::Config;
use crate::documents::{items_at, u32_at};
use crate::faults::{ConfigFault, TOP};
use crate::flow_tables::flows_of;
use crate::keys::top_keys;
use crate::listed::{Channels, Flows, Stations};
use crate::shapes::{lacks, strays};
use crate::station_tables::stations_of;
use std::alloc::Global;
use toml::Table;

/// The most bytes of a configuration (ours).
pub const MAX_CONFIG_BYTES: usize = 4_194_304;

impl Config {
    /// Reads the configuration that a text writes. The answer is its first fault, or the tables.
    ///
    /// A text that is too long is C1 whatever memory there is; before anything else is answered, memory may be wanting.
    pub fn read(alloc: Global, text: &[u8]) -> Result<Config, ConfigFault>
        ensures answer { Answers text.now result }
        ensures too_long { max_config_bytes < length text.now → result ≡ Err fault.Text }

        // The limit that this crate's refusals name.
        ensures limits { MAX_CONFIG_BYTES ≡ max_config_bytes }
    {
        if text.len() > MAX_CONFIG_BYTES {
            return Err(ConfigFault::Text);
        }
        match toml::table_from_slice(alloc, text) {
            Ok(document) => Config::of_document(alloc, &document),
            Err(error) => Err(fault_of(&error)),
        }
    }

    /// The configuration of a document, for those who have it: as [`Config::read`] of its text, however long that is. The
    /// answer is its first fault, or the tables. A fault of the top level is answered before memory is taken.
    pub fn of_document(alloc: Global, document: &Table) -> Result<Config, ConfigFault>
        ensures judged { Judged result (first_fault (table_view document.now))
            (λ config. config ≡ Reading.tables_of (table_view document.now)) }
        ensures early { IfSome (first_of (top_checks (table_view document.now))) (λ fault. result ≡ Err fault) }
    {
        if let Some(fault) = top_fault(document) {
            return Err(fault);
        }
        let round_ticks = u32_at(document, "round_ticks");
        let channels = channels_of(alloc, round_ticks, items_at(document, "channel"))?;
        config_on(alloc, document, round_ticks, channels)
    }
}

/// The fault of a text that isn't read as a document.
fn fault_of(error: &toml::de::Error) -> ConfigFault
    ensures memory { IsMemory error.now → result ≡ fault.NoMemory }
    ensures text { ¬ IsMemory error.now → result ≡ fault.Text }
{
    if error.is_memory() {
        ConfigFault::NoMemory
    } else {
        ConfigFault::Text
    }
}

/// The configuration on channels that have no fault, or its first fault.
fn config_on(
    alloc: Global,
    document: &Table,
    round_ticks: u32,
    channels: Channels,
) -> Result<Config, ConfigFault>
    requires top { first_of (top_checks (table_view document.now)) ≡ None }
    requires round { round_ticks ≡ Reading.round_ticks_of (table_view document.now) }
    requires judged { channels_fault round_ticks (Documents.items_at (codes "channel") (table_view document.now)) ≡ None }
    requires channels { channels ≡ Reading.channels_of (table_view document.now) }
    ensures { Judged result (first_fault (table_view document.now))
        (λ config. config ≡ Reading.tables_of (table_view document.now)) }
{
    let lead_ticks = u32_at(document, "lead_ticks");
    let (flows, stations) = flows_and_stations(alloc, document, round_ticks, &channels)?;
    Ok(Config::new(alloc, round_ticks, lead_ticks, channels, flows, stations)?)
}

/// The flows and the stations on these channels, or their first fault.
fn flows_and_stations(
    alloc: Global,
    document: &Table,
    round_ticks: u32,
    channels: &Channels,
) -> Result<(Flows, Stations), ConfigFault>
    requires { first_of (top_checks (table_view document.now)) ≡ None }
    ensures { Judged result (option_or
        (flows_fault round_ticks channels.now (Documents.items_at (codes "flow") (table_view document.now)))
        (stations_fault round_ticks channels.now (Documents.items_at (codes "station") (table_view document.now))))
        (λ both. (both.0 ≡ Reading.flows_of (table_view document.now)) ×
        (both.1 ≡ Reading.stations_of (table_view document.now))) }
{
    let flows = flows_of(alloc, round_ticks, channels, items_at(document, "flow"))?;
    let stations = stations_of(alloc, round_ticks, channels, items_at(document, "station"))?;
    Ok((flows, stations))
}

/// The first fault of the top level.
fn top_fault(document: &Table) -> Option<ConfigFault>
    ensures { result ≡ first_of (top_checks (table_view document.now)) }
{
    if lacks(top_keys(), document) {
        return Some(ConfigFault::Missing(TOP));
    }
    if strays(top_keys(), document) {
        return Some(ConfigFault::Range(TOP));
    }
    None
}
