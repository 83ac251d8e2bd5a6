//! What no clause says: worked traces, the limits, devices in pieces and with faults, and filing beside a plain loop.

mod base;
mod limits;
mod memory;
mod plain_filing;
mod states;
mod traces;
