//! What no clause says: divisions beside a plain program, plans of real configurations, each beside that of a planner that is
//! kept, and who asks round after round.

mod asking;
mod base;
mod divisions;
mod memory;
mod plans;
