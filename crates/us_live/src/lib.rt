//! The scheduler fed by callers' threads: while they submit requests to an intake, each round cuts it, and schedules
//! what it found.
//!
//! ```
//! let (mut live, intake, seat) = Live::open(alloc, config, 2, 10_000)?; // 2 rounds, 10,000 bytes in all
//! let (mut seat, mut other) = intake.split(alloc, seat, 4_000)?;
//! intake.submit(&mut other, 0, 1_000)?; // by another thread
//! let out = live.next_round(threads, alloc, &intake, &mut seat, 2, &OpenGate)?; // round 0, made by two workers
//! let log = live.cut_log(); // [[1_000]], if the submit came before the cut
//! let seat = intake.join(seat, other); // whole again
//! let closed = intake.close(alloc, seat)?; // what is left, with the entries of the log, is all that was submitted
//! ```
//!
//! What these words mean stands in `specs/`, in the order of its `Lib.antt`.
#![tactic(auto)]

// Every refusal of this crate.
mod faults;

// One round of what an intake has.
mod rounds;

// The scheduler.
mod lives;

// What holds of a log and of the seats of an intake.
pub mod laws;

pub use faults::LiveFault;
pub use lives::Live;

#[cfg(test)]
mod tests;
