//! Who is active in which round of a trace, of the flows that tell their activity.
//!
//! ```
//! let activities = Activities::of(alloc, &config, &trace)?;
//! activities.is_active(silence.word, round) // whether an interval that begins in that round has its grants, or a poll
//! ```
//!
//! What these words mean stands in `specs/`, in the order of its `Lib.antt`.
#![tactic(auto)]

// The words that mark a flow as silent.
mod silent_words;

// When a flow says that it is silent, or active.
mod marks;

// Marks in order, by flow and round.
mod orders;

// Who is active when.
mod activities;

pub use activities::Activities;

#[cfg(test)]
mod tests;
