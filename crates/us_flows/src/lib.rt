//! The configuration: the upstream channels, the service flows and the stations, read from a TOML text without a fault.
//!
//! ```
//! let config = Config::read(alloc, text)?; // or the first fault, as C8 of channel 0
//! let channel = config.channels().first()?;
//! config.lookup(channel.id, 291) // Some(Found::Cluster(0)): SID 291 asks for the first SID cluster
//! ```
//!
//! Whoever holds a [`Config`] holds tables in their ranges, which fit one another. What that means, and every fault in
//! order, stands in `specs/`, in the order of its `Lib.antt`.
// An attribute of a function's own says what its proof needs beside: `unfolding` opens the definitions that it computes,
// which are closed elsewhere, and `using` names lemmas.
#![tactic(auto)]

// Every refusal of this crate, and the table that it names.
mod faults;

// The channels of the table.
mod channels;

// The service flows of the table.
mod flows;

// The stations of the table.
mod stations;

// What a SID asks for.
mod found;

// Whose turn it is in a round.
mod turns;

// Tables in their order, found by id.
mod listed;

// The configuration as a whole.
mod config;

// The configuration of a text, or its first fault.
mod reading;

// The least and the greatest of what a configuration may say.
mod ranges;

// The keys of each table, and the rules of their values.
mod keys;

// Values of a document, by their keys.
mod documents;

// The shape of one table: its keys and their values.
mod shapes;

// What has room in a MAP.
mod limits;

// Channels, read and judged.
mod channel_tables;

// Where the keys of flows stand among all of them.
mod key_places;

// The values of a flow's keys, found in one walk.
mod flow_values;

// Flows, read and judged: their tables,
mod flow_tables;

// their channels, ids and SIDs,
mod flow_names;

// and their grants and rates.
mod flow_grants;

// Stations, read and judged.
mod station_tables;

// Laws of the definitions.
mod laws;

pub use channels::Channel;
pub use config::Config;
pub use faults::{ConfigFault, Place, TableName};
pub use flow_values::kind_at;
pub use flows::{Flow, SchedulingType};
pub use found::Found;
pub use keys::{
    FlowKey, Key, Rule, Types, all_flow_keys, channel_keys, profile_keys, short_keys, station_keys,
    top_keys,
};
pub use laws::{activity_has_words, found_has_words, one_turn, turns_are_of_clusters};
pub use ranges::MAX_CODEWORD;
pub use reading::MAX_CONFIG_BYTES;
pub use shapes::{is_optional, keeps};
pub use stations::Station;
pub use turns::Turn;
