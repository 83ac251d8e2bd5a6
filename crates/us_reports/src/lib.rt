//! Reports: reading one back; the rules of the checker, and the places of a run in their order, by which each is answered.
//!
//! ```
//! let rows = report_rows(alloc, b"U,0,0,0\n")?; // one row: all requests of the trace were asks
//! let first = earlier(config.channels(), of_lines, of_occurrences); // the place that goes before the other
//! ```
//!
//! What these words mean stands in `specs/`, in the order of its `Lib.antt`. A rule's crate shows by the laws of
//! `proofs/BreachLemmas.antt` that an answer is right, from those of the rule's parts.
#![tactic(auto)]

// Why a report is refused.
mod report_faults;

// Pieces of its lines, what lines begin with, its lines,
mod report_fields;
mod report_fronts;
mod report_lines;

// and all of it.
mod report_reading;

// Laws of reports.
mod laws;

// Where a rule is looked at, and the order of places.
mod order;
mod place;

// The rules, and where one is broken.
mod rules;

pub use laws::one_reading;
pub use order::{earlier, goes_before};
pub use place::Place;
pub use report_faults::ReportFault;
pub use report_reading::{LineReader, line_at, lines_end, report_rows};
pub use rules::{Breach, Rule};
