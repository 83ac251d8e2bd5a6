//! The plan of a round: how many bytes each turn may send on each of its flow's channels, and so what each channel is to
//! grant.
//!
//! ```
//! let mut shares = [0; 3];
//! divide(501, &[300, 600, 100], &mut shares); // 151, 300 and 50 bytes
//! ```
//!
//! What these words mean stands in `specs/`, in the order of its `Lib.antt`.
#![tactic(auto)]

// Bytes over channels, by their weights.
mod divisions;

// What a turn may send on a channel.
mod claims;

// What a grant on a channel costs.
mod known_costs;

// What is planned on a channel.
mod channel_plans;

// Bytes for each channel of a flow.
mod shares;

// Who asks in a round.
mod asking;

// Turns by the places of their channels,
mod turn_rows;

// channels by their places,
mod by_places;

// the turns of a round by these,
mod row_plans;

// and the planner that keeps them from round to round.
mod planner;

// The plan of a round by itself, and how it is made.
mod planning;
mod plans;

// Laws of plans, of claims and of those who ask.
mod laws;

pub use asking::Askers;
pub use claims::{Claim, Claimant};
pub use divisions::{MAX_CHANNELS_OF_FLOW, divide};
pub use laws::{
    askers_claim, claims_are_of_turns, clusters_claim_once, cuts_are_of_clusters,
    full_give_nothing, one_pass_does, turns_pass,
};
pub use planner::Planner;
pub use planning::plan;
pub use plans::Plan;
