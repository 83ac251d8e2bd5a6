ghost use Rattle.std.specs.Prelude.{◌≡◌};
ghost use Rattle.us_check.specs.Faults as spec;

use std::alloc::AllocFailed;
use std::fmt;
use thiserror::Error;
use us_reports::ReportFault;
use us_slots::NoMemory;

/// Why there is no verdict.
#[derive(Clone, Copy, Debug, PartialEq, Eq, Hash, Error)]
pub enum CheckFault {
    /// CK1: this line of the report, counted from 1, is the first that is none of a report. It is looked for before all
    /// rules.
    Report(u64),
    /// CK2: want of memory.
    NoMemory,
}

impl CheckFault {
    /// Its code, CK1 or CK2: its text begins with it.
    pub fn code(self) -> &'static str
        ensures { result.now ≡ spec.code_of self }
    {
        match self {
            CheckFault::Report(_) => "CK1",
            CheckFault::NoMemory => "CK2",
        }
    }
}

/// Writes the text of a fault, behind its code.
impl fmt::Display for CheckFault {
    ghost use Rattle.std.specs.Prelude.{Some};
    ghost use Rattle.us_check.specs.Faults.{fault_text};

    ghost output = { λ fault. Some (fault_text fault) };

    fn fmt<W: fmt::Write>(&self, f: &mut fmt::Formatter<W>) -> fmt::Result {
        match *self {
            CheckFault::Report(line) => write!(f, "CK1: line {line} is none of a report"),
            CheckFault::NoMemory => f.write_str("CK2: out of memory"),
        }
    }
}

impl From<ReportFault> for CheckFault {
    ghost use Rattle.std.specs.Prelude.{◌≡◌};
    ghost use Rattle.us_check.specs.Faults.{of_report_fault};

    ghost from_gives = { λ reason fault. fault ≡ of_report_fault reason };

    fn from(reason: ReportFault) -> CheckFault {
        match reason {
            ReportFault::Line(line) => CheckFault::Report(line),
            ReportFault::NoMemory => CheckFault::NoMemory,
        }
    }
}

impl From<NoMemory> for CheckFault {
    ghost use Rattle.std.specs.Prelude.{◌≡◌};
    ghost use Rattle.us_check.specs.declared.faults.CheckFault.TheVariants as fault;

    ghost from_gives = { λ _ given. given ≡ fault.NoMemory };

    fn from(_refused: NoMemory) -> CheckFault {
        CheckFault::NoMemory
    }
}

impl<T: Drop> From<AllocFailed<T>> for CheckFault {
    ghost use Rattle.std.specs.Prelude.{◌≡◌};
    ghost use Rattle.us_check.specs.declared.faults.CheckFault.TheVariants as fault;

    ghost from_gives = { λ _ given. given ≡ fault.NoMemory };

    fn from(_refused: AllocFailed<T>) -> CheckFault {
        CheckFault::NoMemory
    }
}
