//! The program's files: opening and making them, reading them whole, and whether two paths name one file.
//!
//! ```
//! let mut report = create(rt, "report", Stream::Report)?;
//! match read_at_most(rt, alloc, "plant.toml", Stream::Config, MAX_CONFIG_BYTES)? {
//!     Some(text) => println!(rt; "{} bytes", text.len()),
//!     None => println!(rt; "too many"),
//! }
//! ```
//!
//! What its words mean stands in `specs/`. What files hold is tested: std says nothing of what a path names.
#![tactic(auto)]

// What the program reads and writes.
mod streams;

// Why it can't.
mod faults;

// Files at paths.
mod opening;

// A maps file and a report in memory.
mod texts;

// Files that are read whole.
mod reading;

// Whether paths name one file.
mod same_files;

pub use faults::StreamFault;
pub use opening::{create, open};
pub use reading::{read_at_most, read_bytes, read_output};
pub use same_files::is_same_file;
pub use streams::Stream;
pub use texts::Texts;
