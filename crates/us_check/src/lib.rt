//! The checker: judges a maps file and a report, whoever made them, against the tables and the requests of a run.
//!
//! ```
//! match check(alloc, &config, &trace, maps, report)? {
//!     Verdict::Holds => (),
//!     broken => println!(rt; "{broken}"), // broken P3 1 1 150
//! }
//! ```
//!
//! What a verdict says stands in `specs/`, in the order of its `Lib.antt`. Each rule is a state that is told one line after
//! another: those of MAPs and calendars stand in `us_map_rules`, those of credits in `us_credit_rules`.
#![tactic(auto)]

// What is answered of two texts.
mod verdicts;

// Why nothing is answered.
mod faults;

// The rules that judge lines,
mod judges;

// told the lines of a report.
mod judging;

// The checker.
mod checking;

// Laws of verdicts.
mod laws;

pub use checking::check;
pub use faults::CheckFault;
pub use laws::{
    lawful_texts_hold, long_credits_fail, long_grants_pass_maps, one_answer,
    verdicts_name_the_first,
};
pub use us_reports::Rule;
pub use verdicts::Verdict;

#[cfg(test)]
mod tests;
