//! One channel in a round: its reserves, what its calendar settles, the claims of the plan that are placed on it, and the
//! MAP that its board comes to.
//!
//! ```
//! let mut channel = ChannelRound::new(alloc, &config, 0)?; // the first channel, before round 0
//! channel.fill(&config, 0)?; // reserves and calendar have their minislots
//! let idle = channel.idle(); // what the plan has to give there
//! channel.place_claims(plan.claims(0)); // and its claims are placed
//! let grants = channel.grants(); // in the order of turns
//! let mut runs = Vec::new(alloc); // for the runs of its board
//! let map = map_of(alloc, &config, 0, channel.channel(), channel.board(), &[291], &mut runs)?; // a SID is pending there
//! ```
//!
//! What these are stands in `specs/`, in the order of its `Lib.antt`. No function here reads another channel, so that each
//! channel may be done by a worker of its own.
#![tactic(auto)]

// The reserves of a round's board.
mod reserving;

// Who is granted what: minislots that are assigned where they fit,
mod assigning;

// where a claim is placed,
mod placing;

// and all claims of a channel.
mod granting;

// A channel from round to round.
mod channel_rounds;

// From a board to a MAP.
mod mapping;

// Laws of the definitions.
mod laws;

pub use channel_rounds::ChannelRound;
pub use laws::{
    boards_are_built, grants_are_of_claims, grants_fit, placed_have_minislots, reserves_fit,
};
pub use mapping::{element_of, gap_of, head_of, map_of, pending_of};
pub use placing::PlacedClaim;

#[cfg(test)]
mod tests;
