//! Readers and writers as the crates above see them: by their bytes, where they tell them, and whether they failed.

ghost use Rattle.std.specs.Prelude.{Some, codes};

mod reading;
mod sink;
mod source;
mod writing;

pub use reading::{ReadFault, read_all};
pub use sink::{FromWrite, Sink};
pub use source::{FromRead, Source};
use std::error::Error;
use std::fmt;
pub use writing::write_all;

/// A read, write or flush that the device refused.
#[derive(Clone, Copy, Debug, PartialEq, Eq, Hash)]
pub struct Failed;

impl fmt::Display for Failed {
    ghost output = { λ _. Some (codes "the device failed") };

    fn fmt<W: fmt::Write>(&self, f: &mut fmt::Formatter<W>) -> fmt::Result {
        f.write_str("the device failed")
    }
}

impl Error for Failed {}
