//! The calendar of a channel: unsolicited grants, polls and station maintenance, which nobody asks for.
//!
//! ```
//! let mut calendar = Calendar::new(alloc, &config, 0)?; // of the first channel
//! let settled = calendar.run(alloc, 0, &cuts, &mut board)?; // what round 0 grants and misses
//! ```
//!
//! What these words mean stands in `specs/`, in the order of its `Lib.antt`.
#![tactic(auto)]

// What an entry is.
mod kinds;

// What it has while its flow is silent.
mod silences;

// What a round settled.
mod settled;

// The time of a channel.
mod paces;

// A round of it.
mod spans;

// An entry.
mod entries;

// An occurrence of it.
mod occurrences;

// Which flows are silent.
mod hearing;

// What is kept of that for an entry's intervals.
mod interval_kinds;

// Where an occurrence is granted.
mod placing;

// The occurrences of an entry in a round.
mod settling;

// An entry, with what of it is settled.
mod entry_states;

// The entries of a channel.
mod listing;

// Which entries are noted for the next rounds.
mod near_rounds;

// And which for later ones.
mod far_rounds;

// For which round each entry is noted.
mod agendas;

// The entries that are due in a round.
mod turns;

// The entries that hear whether their flows are silent.
mod heard_entries;

// The calendar.
mod calendars;

// Laws of the definitions.
mod laws;

pub use calendars::Calendar;
pub use entries::Entry;
pub use kinds::Kind;
pub use laws::{
    all_are_occurrences, entries_are_apart, entries_are_lawful, entries_have_words, first_ones,
    grants_fit, kinds_as_heard, rows_stand_first, settled_once, settles_by_cuts,
};
pub use listing::entries_of;
pub use settled::Settled;
pub use silences::Silence;
