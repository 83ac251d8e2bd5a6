//! The rules of credits: how fast flows may be credited, what lines of requests credit, and what a report ends with.
//!
//! ```
//! let mut lines = CreditLines::new(alloc, &config, &trace)?;
//! lines.take(&config, &trace, &line); // each line that `is_due`
//! let first = credits_breach(&config, &lines); // the first line or sum that isn't right
//! ```
//!
//! What they answer stands in `us_lawful`, and what they compute in `specs/`, in the order of its `Lib.antt`.
// An attribute of a function's own says what its proof needs beside: `unfolding` opens the definitions that it
// computes, which are closed elsewhere, and `using` names lemmas.
#![tactic(auto)]

// The clusters that lines name.
mod seats;

// Line by line, what clusters ask for and are credited,
mod ledgers;

// and what is left in the buckets of flows.
mod buckets;

// What bursts cost, of whatever bytes,
mod costs;

// and which line of a request isn't right.
mod repeats;

// All this, of lines of requests.
mod requests;

// Places behind the last round,
mod ends;

// and what lines tell there.
mod told;

// What A lines tell, and what they should.
mod talkers;

// What is kept of lines, told one after another.
mod credit_lines;

// Where a flow is credited more than its bucket has,
mod rates;

// and lines of requests that aren't right, or credit more than is outstanding.
mod credits;

// F lines,
mod finals;

// A lines,
mod activities;

// and the U line.
mod counts;

pub use activities::activities_breach;
pub use counts::counts_breach;
pub use credit_lines::CreditLines;
pub use credits::credits_breach;
pub use finals::finals_breach;
pub use rates::rates_breach;
