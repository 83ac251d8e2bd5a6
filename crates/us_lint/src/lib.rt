//! What a lint says beside the errors of a file: what looks wrong in a configuration and a trace that are accepted, each
//! finding with its line; and a broken rule of the checker in words: where in the maps file or in the report, and what is
//! wanted there.
//!
//! ```
//! let mut warnings = Warnings::new(alloc);
//! warnings.add_tables(&config, rounds);
//! let mut seen = SeenRows::new(alloc, &config, rounds); // `lint_trace` shows it the requests of a trace
//! seen.warn(&mut warnings);
//! let findings = warnings.located(config_text)?;
//!
//! let finding = verdict_finding(alloc, &config, &trace, maps, report, breach)?;
//! println!(rt; "{finding}"); // P6: round 1, channel 1, id 1: slots of the credit: 29 is wanted, 32 is there
//! ```
//!
//! The words of a broken rule are told which it is and where, by a verdict. They look again at that place alone, and name what
//! they find there. What these words mean stands in `specs/`, in the order of its `Lib.antt`.
#![tactic(auto)]

// What warnings call flows, stations and channels.
mod names;

// Words of warnings, and what stands among them.
mod parts;

// Warnings whose lines aren't looked up yet.
mod warnings;

// Lines of warnings.
mod located;

// How long a run is.
mod runs;

// MAPs that have their reserves alone.
mod empty_maps;

// The windows of an entry that no schedule could grant,
mod hopeless_windows;

// and warnings of them.
mod window_warnings;

// What a calendar asks for.
mod loads;

// What looks wrong in the tables.
mod tables;

// Rows that are alike.
mod alike;

// The SIDs that rows name.
mod named_sids;

// Whose a SID is.
mod sid_owners;

// Warnings of SIDs.
mod sid_warnings;

// Rows that are late.
mod late_rows;

// Rows that go back far.
mod backward_rows;

// Warnings of ticks.
mod tick_warnings;

// What looks wrong in a trace.
mod traces;

// What is answered of one.
mod findings;

// Lines of a report, and what each tells.
mod lines;
mod told;

// Words with numbers among them.
mod phrases;

// What is found: the place, and what is wanted there.
mod said;

// The run that is judged, in the numbers of a verdict.
mod lengths;

// Records of a maps file, and what each says of itself.
mod headings;
mod records;

// Minislots of a MAP.
mod minislots;

// Entries of calendars, and their occurrences.
mod calendars;
mod occurrences;

// What is credited,
mod credit_lines;
mod credits;
mod levels;

// and what the last lines tell.
mod last_lines;

// All words of a broken rule.
mod verdicts;

pub use empty_maps::EmptyMaps;
pub use findings::{VerdictFile, VerdictFinding};
pub use traces::SeenRows;
pub use verdicts::{report_finding, verdict_finding};
pub use warnings::Warnings;
