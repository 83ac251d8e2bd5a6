//! The round of a bonding group: what every cluster asks for goes in, and the MAPs of all channels and their lines come
//! out, with the state that the next round starts from.
//!
//! ```
//! let state = State::new(alloc, config)?; // nothing is outstanding, and every bucket is full
//! // the first cluster asks for 1,000 bytes, and two workers make the channels
//! let (state, out) = round(threads, alloc, state, &[1_000], 2, &OpenGate)?;
//! let maps = out.maps(); // a MAP for each channel, in table order
//! let finals = state.finals(alloc)?; // what is outstanding, and the units of the buckets
//! ```
//!
//! What these are stands in `specs/`, in the order of its `Lib.antt`; MAPs and lines stand in `us_output`.
#![tactic(auto)]

// Every refusal.
mod faults;

// The order in which claims are placed.
mod placing_laws;

// Who does the channels of a round.
mod hands;

// Claims that go to a worker with their channel.
mod placing;

// Where the workers of a crew find channels.
mod round_mail;

// Who does them by the workers of a crew.
mod crewed;

// What a round starts from: the buckets,
mod buckets;

// all but the channels,
mod cores;

// both parts,
mod parts;

// which flows are active,
mod activities;

// the state, and what a round leaves of it.
mod done;
mod states;

// The round,
mod rounds;

// by a crew,
mod one_round;

// and a round that no worker has a part in.
mod alone;

// Laws of all rounds of a schedule.
mod schedule_laws;

pub use alone::{Alone, round_alone};
pub use crewed::{Crewed, answers};
pub use done::RoundDone;
pub use faults::RoundFault;
pub use hands::{Answered, Building, Filling, Hands};
pub use placing_laws::turns_are_placed_in_order;
pub use round_mail::{BuildMail, FillMail, RoundMail};
pub use rounds::{round, step};
pub use schedule_laws::{
    bytes_are_kept, calendars_run, maps_are_lawful, minimum_rates_are_kept, one_pass_does,
    rounds_are_sound, rounds_follow_on,
};
pub use states::State;
pub use us_output::{
    EntryWord, FinalActivity, FinalState, Grant, LineTally, MissedOccurrence, RoundOut, Row,
    TextBuffers, TraceCounts, lines_are_of_grants, lines_bear_round,
};

#[cfg(test)]
mod tests;
