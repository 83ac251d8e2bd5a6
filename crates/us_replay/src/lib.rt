//! Replays the requests of a trace: a configuration and a trace go in, a maps file and a report come out.
//!
//! ```
//! let config = Config::read(alloc, text)?;
//! let mut trace = FromRead::new(trace_file);
//! let mut maps = FromWrite::new(maps_file);
//! let mut report = FromWrite::new(report_file);
//! // 2 rounds by 4 workers
//! let summary = replay(threads, alloc, &config, &mut trace, 2, 4, &OpenGate, &mut maps, &mut report)?;
//! ```
//!
//! What these bytes are stands in `specs/`, in the order of its `Lib.antt`.
#![tactic(auto)]

// The requests of a round, as they are collected.
mod collecting;

// Who collects them, and does the channels.
mod doers;

// Every refusal, in order.
mod faults;

// What a replay did.
mod summaries;

// The replay, round after round.
mod replays;

pub use faults::RunFault;
pub use replays::{check_run, replay, replay_alone};
pub use summaries::Summary;
pub use us_reports::{ReportFault, report_rows};
pub use us_round::{EntryWord, FinalState, Grant, MissedOccurrence, Row, TraceCounts};
