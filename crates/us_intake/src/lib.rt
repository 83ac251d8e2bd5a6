//! The intake: threads hand in requested bytes while rounds are cut, without a lock, and no byte is lost or counted
//! twice.
//!
//! ```
//! let (intake, first) = Intake::open(alloc, 1, 10_000)?; // one SID cluster, 10,000 bytes in all
//! let (mut first, mut second) = intake.split(alloc, first, 4_000)?;
//! intake.submit(&mut first, 0, 500)?; // by one thread
//! intake.submit(&mut second, 0, 700)?; // by another one
//! intake.cut(&mut first, &mut cuts); // cuts is [1_200], if both came before it
//! let seat = intake.join(first, second); // whole again
//! let closing = intake.close(alloc, seat)?; // of each cluster, left and taken are submitted
//! ```
//!
//! What these words mean stands in `specs/`, in the order of its `Lib.antt`.
#![tactic(auto)]

// Every refusal of this crate.
mod faults;

// What one seat has in the account, and the rule of the table.
mod accounts;

// Numbers of bytes by cluster.
mod tallies;

// The right to submit.
mod seats;

// What an intake comes to.
mod closing;

// The intake.
mod intakes;

// What holds of the account, whatever threads do.
pub mod laws;

pub use closing::Closing;
pub use faults::IntakeFault;
pub use intakes::{Intake, MAX_CLUSTERS};
pub use seats::Seat;

#[cfg(test)]
mod tests;
