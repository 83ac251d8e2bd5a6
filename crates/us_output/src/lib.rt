//! What a round of a bonding group gives: the MAP of each channel, with who is pending there, and the lines.
//!
//! ```
//! // of all channels, once their claims are placed: what was outstanding of each SID cluster before, and what is left
//! let out = round_out(alloc, &config, round, &outstanding, &left, &built)?;
//! let maps = out.maps(); // a MAP for each channel, in table order
//! let rows = out.rows(); // the lines of grants, and of what was missed
//! let finals = final_rows(alloc, &config, &left, &buckets)?; // the F lines, behind the last round
//! let activity = activity_rows(alloc, &config, &active)?; // the A lines, behind these
//!
//! // the same as bytes, straight from the channels, behind what the texts have
//! push_records(&mut maps, &mut buffers, &config, round, &built, &pendings)?;
//! push_lines(&mut report, &mut buffers, &mut tally, round, &built)?;
//! push_rows(&mut report, &mut buffers, &finals)?;
//! push_rows(&mut report, &mut buffers, &activity)?;
//! ```
//!
//! What these are stands in `specs/`, in the order of its `Lib.antt`. How a round comes to its channels is for `us_round`.
#![tactic(auto)]

// The lines of a round,
mod rows;

// and their text.
mod digits;
mod lines;
mod puts;

// Who is pending, and on which channel.
mod dealing;
mod pendings;

// From grants to lines, by where they start: put in one after another, or noted by minislot.
mod notes;
mod orders;

// Whom lines are told, rows or text; each line of a channel is told once.
mod line_texts;
mod sinks;
mod telling;

// The text of a channel's lines, and what texts keep.
mod buffers;
mod channel_lines;

// What of them is written ahead, and a channel that has it.
mod ahead;
mod channels_with_text;

// The MAPs of a round, as values,
mod mapping;

// and its lines.
mod reporting;

// The same as bytes: records,
mod records;

// and lines, which are counted.
mod tallies;
mod texts;

// What a round gives,
mod round_outs;

// and how it is made.
mod outputs;

// Laws of what a round gives.
mod output_laws;

pub use buffers::TextBuffers;
pub use channels_with_text::ChannelWithText;
pub use output_laws::{lines_are_of_grants, lines_bear_round};
pub use outputs::{out_by, round_out};
pub use pendings::{PendingSid, first_sid_of, pending_sids};
pub use records::push_records;
pub use reporting::{activity_rows, final_rows};
pub use round_outs::RoundOut;
pub use rows::{EntryWord, FinalActivity, FinalState, Grant, MissedOccurrence, Row, TraceCounts};
pub use tallies::LineTally;
pub use texts::{push_lines, push_rows};

#[cfg(test)]
mod tests;
