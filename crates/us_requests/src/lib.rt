//! Traces: which requests are asks, in which round, and what is outstanding of a SID cluster.
//!
//! ```
//! let trace = Trace::read(alloc, &mut source, &config, 2)?;
//! let mut state = ClusterState::new();
//! for ask in trace.asks(1) {
//!     state.add(u64::from(ask.bytes)); // by the word number `ask.cluster`, a cluster's as a rule
//! }
//! ```
//!
//! What a trace says stands in `specs/`, in the order of its `Lib.antt`.
// An attribute of a function's own says what its proof needs beside: `unfolding` opens the definitions that it computes,
// which are closed elsewhere, and `using` names lemmas.
#![tactic(auto)]

// What is outstanding of a cluster.
mod cluster_states;

// What is asked for, and the counts of the requests that are no asks.
mod asks;

// Every refusal of this crate, in order.
mod faults;

// Requests as values.
mod requests;

// The records of a text.
mod readers;

// From the fields of a record to a request.
mod fields;

// From a text to all requests, or the first fault.
mod texts;

// An ask in its round.
mod placed;

// What SIDs ask for, kept.
mod known_sids;

// What becomes of a request.
mod outcomes;

// Requests, filed as asks and counts.
mod filing;

// Asks that are nearly in the order of their rounds.
mod settling;

// The asks in the order of their rounds, and where those of a round stand.
mod by_round;

// A trace: from a source's bytes to the asks of each round.
mod traces;

// What holds of the definitions, whatever the trace.
pub mod laws;

pub use asks::{Ask, Counts};
pub use cluster_states::ClusterState;
pub use faults::TraceFault;
pub use fields::{
    MAX_CHANNEL, MAX_DIGITS, MAX_KIND, MAX_SID, MAX_TICK, MAX_UNITS, is_header, number_in,
    request_in,
};
pub use requests::{Kind, Request};
pub use texts::MAX_RECORDS;
pub use traces::{MAX_TRACE_BYTES, Trace};
