//! What no clause says: that the definitions of the rules are those of a run, at its edges and at fields at their
//! limits, and memory that is refused.

mod activities;
mod base;
mod counts;
mod finals;
mod lines;
mod memory;
mod rates;
mod sums;
