//! What no clause says: worked rounds, marks of activity, that workers enter the gate and are at work at the same time,
//! a state that goes to another thread, and each allocation refused in turn.

mod activity;
mod base;
mod calendars;
mod entering;
mod memory;
mod memory_of_workers;
mod rounds;
mod sending;
mod workers;
