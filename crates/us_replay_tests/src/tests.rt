//! What no clause says: replays over devices of every kind, to the byte, how much is written at once, workers that are at
//! work at the same time, and the texts of faults.

mod alone;
mod base;
mod batches;
mod devices;
mod entries;
mod faults;
mod gates;
mod long;
mod marks;
mod memory;
mod replays;
mod workers;
