//! What no clause says: texts of each kind, printed faults, memory; and the promises at worked values.

mod activity;
// Configurations, and the driver of tables of changed ones.
mod base;
// One of each fault; `crates/mapsim/cases/config_*.toml` have all limits, keys and orders.
mod faults;
mod lookups;
mod memory;
mod min_rates;
mod sizes;
mod texts;
mod turns;
