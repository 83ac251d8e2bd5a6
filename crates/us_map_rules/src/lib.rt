//! The rules of MAPs and of calendars' lines: which bytes are the MAPs of a maps file, what each MAP says of itself, which
//! rounds and channels lines are of, who has each minislot of a MAP, and which lines each occurrence of a calendar has.
//!
//! ```
//! let first = headings_breach(&config, &trace, &file)?; // the first MAP that isn't that of the run, or is missing
//! let mut regions = MapRegions::new(alloc);
//! let mut lines = CalendarLines::new(alloc, &config, &trace)?;
//! regions.take(&config, &trace, &file, &row)?; // each line, in the order of MAPs
//! lines.take(&row)?; // and each line, in any order
//! let minislot = regions.breach(&config, &trace, &file)?; // the first minislot that isn't what it must be
//! let occurrence = lines.breach(); // None: each occurrence that closes in the run has just one line
//! ```
//!
//! Neither keeps lines. `MapRegions` keeps the minislots of one MAP's lines. `CalendarLines` judges a line by itself as it
//! comes. Lines mostly name the occurrences of an entry one behind another, so it keeps up to which all are named, and the
//! numbers that other lines name. At the end it walks through these in order, up to the first occurrence that comes and isn't
//! named once. An occurrence that is still open as the run ends may be left out; of its lines the places are kept, to find two
//! of one.
//!
//! What they answer stands in `specs/`, in the order of its `Lib.antt`.
// An attribute of a function's own says what its proof needs beside: `unfolding` opens the definitions that it computes,
// which are closed elsewhere, and `using` names lemmas.
#![tactic(auto)]

// Why a maps file is refused.
mod maps_faults;

// The elements of a MAP, read where they stand,
mod elements;

// its body,
mod bodies;

// and the MAPs of a maps file.
mod maps_reading;

// What each MAP says of itself.
mod headings;

// The minislots of MAPs: side by side with one owner,
mod regions;

// the elements of a MAP as minislots,
mod pieces;

// the first minislot of a MAP that isn't what it must be,
mod minislots;

// the rounds, channels and MAPs that lines are of,
mod region_lines;

// what must be in a MAP,
mod map_regions;

// and the rule, told one line after another.
mod gathered;

// The entries of calendars, of all channels,
mod listed;

// the run that is judged,
mod runs;

// an occurrence: when it may start, and when its window closes,
mod windows;

// what a line names,
mod naming;

// occurrences that aren't named once,
mod closings;

// what lines tell of an entry,
mod told;

// and the rule of calendars' lines.
mod calendar_lines;

// Laws of maps files.
mod laws;

pub use calendar_lines::CalendarLines;
pub use gathered::{MapRegions, Taken};
pub use headings::headings_breach;
pub use laws::one_reading_of_maps;
pub use maps_faults::MapsFault;
pub use region_lines::map_of;
