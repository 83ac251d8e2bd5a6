//! A round, step by step: what workers do to its words and channels, in an order that a list tells. Whatever the order is,
//! a complete list makes the round of the cut that stands in it.
//!
//! ```
//! // two rows are added, their word is taken, and the one channel is given to a worker and built
//! let add = |row| Step::Add { row, seat: 0 };
//! let steps = [add(1), add(0), Step::Take { word: 0, seat: 0 }, Step::Open { channel: 0 }, Step::Built { channel: 0 }];
//! // None if something were missing, or done twice; else the state that the next round starts from, what is left in the
//! // words, and what the round gives
//! let played = play(alloc, state, &words, &rows, &steps)?;
//! ```
//!
//! What these words mean stands in `specs/`, in the order of its `Lib.antt`.
#![tactic(auto)]

// The steps that a round is made of.
mod steps;

// What the code keeps of the machine: what stands after each step.
mod tallies;

// The round that a list of steps makes.
mod plays;

// Laws of steps and of rounds made by them.
mod laws;

pub use laws::{
    each_channel_is_filled, machine_makes_rounds, machine_runs_are_schedules, nothing_is_lost,
    plays_are_rounds, replays_are_complete, seats_change_nothing, taking_nothing,
};
pub use plays::play;
pub use steps::Step;

#[cfg(test)]
mod tests;
