//! Time and burst cost on the upstream channels of a CMTS, and the devices that the crates above read and write.
//!
//! ```
//! let time = ChannelTime::new(1, 5)?; // minislots of 2 ticks at 5,120 ksym/s: 64 symbols each
//! let long = Profile::new(4, 24, 8, 0, 200, false)?; // 16QAM without a code
//! cost(&time, &long, 1_008) // 32 minislots, of 24 + 8 + 2,016 symbols
//! ```
//!
//! What these words mean stands in `specs/`, in the order of its `Lib.antt`.
#![tactic(auto)]

// Ticks, minislots and symbols.
mod channel_times;

// The minislots that a grant may start in.
mod windows;

// Modulation, preamble, guard time and code of a burst.
mod profiles;

// What the minislots of a MAP element are for.
mod usage_codes;

// All that the cost of a channel's bursts depends on.
mod burst_sets;

// What a burst costs.
mod costs;

// What some minislots carry.
mod capacities;

// Laws of cost and capacity.
mod laws;

// Readers and writers.
mod devices;

// Want of memory.
mod memory;

pub use burst_sets::BurstSet;
pub use capacities::{MAX_MAP_TICKS, capacity};
pub use channel_times::{ChannelTime, QUARTERS_PER_TICK};
pub use costs::{MAX_BURST_BYTES, coded_len, cost, grant_cost};
pub use devices::{Failed, FromRead, FromWrite, ReadFault, Sink, Source, read_all, write_all};
pub use laws::{bytes_cost_minislots, carried_bytes_fit};
pub use memory::NoMemory;
pub use profiles::Profile;
pub use usage_codes::Iuc;
pub use windows::window;

#[cfg(test)]
mod tests;
