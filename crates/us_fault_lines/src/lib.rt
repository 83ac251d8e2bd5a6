//! The line that the fault of a configuration, a trace or a replay is told by: `fault`, a word, and what the fault names.
//!
//! ```
//! let line = config_line(fault);
//! println!(rt; "{line}"); // fault C8 channel 0
//! ```
//!
//! What these lines are stands in `specs/`, in the order of its `Lib.antt`. `mapsim` adds those of faults that it alone has.
#![tactic(auto)]

// A line, and what it names.
mod lines;

// The lines of faults.
mod fault_lines;

pub use fault_lines::{config_line, run_line};
pub use lines::{Line, MEMORY, Named};
