//! What a lint prints: the lines of what is found in a configuration, a trace and a run's output, in the order in which they
//! are told, and the worst of it.
//!
//! ```
//! let listing = listing_of(rt, alloc, &order, &Checker)?;
//! print!(rt; "{}", listing.text); // config.toml:12:1: warning: ..
//! ```
//!
//! What the worst is stands in `specs/`; lines and their order are tested.
#![tactic(auto)]

// The worst that is found.
mod worst;

// Tables that are accepted, and the rounds of a run.
mod tables;

// A line for each finding.
mod lines;

// All lines.
mod listings;

// Who judges what a run wrote.
mod judges;

// Why nothing is listed.
mod faults;

// From files to lines.
mod linting;

pub use faults::LintFault;
pub use judges::Judges;
pub use linting::listing_of;
pub use listings::Listing;
pub use tables::Tables;
pub use worst::Worst;
