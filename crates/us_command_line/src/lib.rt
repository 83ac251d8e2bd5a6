//! The words of the program's command line: which order they are, or why they are refused. `clap` reads them, by the
//! subcommands and options that are listed here. What `--help` says after the options is handed in.
//!
//! ```
//! let order = order_of(alloc, &["mapsim", "dump", "--maps", "run.maps"], &helps)?; // the MAPs of a maps file as lines
//! ```
//!
//! `docs/FORMATS.md` has the words.
#![tactic(auto)]

// What the words ask for.
mod orders;

// Why they are refused.
mod faults;

// What `--help` says after the options.
mod helps;

// The words that there are.
mod commands;

// The words that are given.
mod words;

pub use faults::WordsFault;
pub use helps::{HelpTexts, Helps};
pub use orders::{FileCheck, FileLint, FileReplay, Order};
pub use words::order_of;
