//! A replay from text to text, as a page in a browser asks for it: a configuration and a trace go in, and the maps file and
//! the report come out, or the line of the fault.
//!
//! ```
//! match Run::of(alloc, config, trace, 12) { // 12 rounds, by the calling thread
//!     Ok(run) => show(run.maps(), run.report()),
//!     Err(fault) => tell(fault), // as text: fault C8 channel 0
//! }
//! ```
//!
//! A caller that isn't Rattle keeps a run in a `Hand`, 16 bytes that are 0 at first, and calls `run`, `lint`, `copy_maps`,
//! `copy_report`, `copy_fault` and `close`. What these words mean stands in `specs/`, in the order of its `Lib.antt`.
#![tactic(auto)]

// What refuses a run.
mod faults;

// A run: what a replay wrote, or why it was refused.
mod runs;

// What keeps a run for a caller that isn't Rattle.
mod hands;
mod loose;

// What such a caller asks for.
mod calls;

// What is wrong in two texts.
mod lints;

pub use calls::{Status, close, copy_fault, copy_maps, copy_report, run};
pub use faults::PageFault;
pub use hands::Hand;
pub use lints::lint;
pub use runs::Run;
