//! What no clause says: what is answered of small runs whose lines are told by hand.

mod activity;
mod base;
mod closings;
mod memory;
mod told;
