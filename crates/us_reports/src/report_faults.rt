use std::alloc::{AllocError, AllocFailed};
use std::error::Error;
use std::fmt;

/// Why the rows of a report aren't answered.
#[derive(Clone, Copy, Debug, PartialEq, Eq, Hash)]
pub enum ReportFault {
    /// This line, counted from 1, is the first that is of no row.
    Line(u64),
    /// Want of memory.
    NoMemory,
}

/// Writes the text of a fault.
impl fmt::Display for ReportFault {
    ghost use Rattle.std.specs.Prelude.{Some};
    ghost use Rattle.us_reports.specs.Reports.{fault_text};

    ghost output = { λ fault. Some (fault_text fault) };

    fn fmt<W: fmt::Write>(&self, f: &mut fmt::Formatter<W>) -> fmt::Result {
        match *self {
            ReportFault::Line(number) => write!(f, "line {number} is none of a report"),
            ReportFault::NoMemory => f.write_str("out of memory"),
        }
    }
}

impl Error for ReportFault {}

impl From<AllocError> for ReportFault {
    ghost use Rattle.std.specs.Prelude.{◌≡◌};
    ghost use Rattle.us_reports.specs.declared.report_faults.ReportFault.TheVariants as fault;

    ghost from_gives = { λ _ given. given ≡ fault.NoMemory };

    fn from(_refused: AllocError) -> ReportFault {
        ReportFault::NoMemory
    }
}

impl<T: Drop> From<AllocFailed<T>> for ReportFault {
    ghost use Rattle.std.specs.Prelude.{◌≡◌};
    ghost use Rattle.us_reports.specs.declared.report_faults.ReportFault.TheVariants as fault;

    ghost from_gives = { λ _ given. given ≡ fault.NoMemory };

    fn from(_refused: AllocFailed<T>) -> ReportFault {
        ReportFault::NoMemory
    }
}
