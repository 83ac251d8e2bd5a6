use std::alloc::{AllocError, AllocFailed};
use std::fmt;
use thiserror::Error;
use us_slots::ReadFault;

/// Why a trace is refused. The trace is read whole first: then TR4 by its bytes or TR5 is answered, whichever is met
/// first. Then the records are looked at in turn, and the first fault is answered; within a record the order is TR4,
/// TR1, TR2, TR3. TR6 stands last, but memory may be wanting before a later check is made.
#[derive(Clone, Copy, Debug, PartialEq, Eq, Hash, Error)]
pub enum TraceFault {
    /// TR1: the first record isn't the header, or there is none.
    Header,
    /// TR2: this record hasn't as many fields as the header. Records are counted from 1, with the header.
    Fields(u32),
    /// TR3: a field of this record isn't of 1 to 10 digits, or is over its greatest value; or it is a mark with units.
    Number(u32),
    /// TR4: a byte past 33,554,432, or record 1,000,002.
    TooLarge,
    /// TR5: the source failed.
    Read,
    /// TR6: want of memory.
    NoMemory,
}

impl TraceFault {
    ghost use Rattle.std.specs.Prelude.{◌≡◌};
    ghost use Rattle.us_requests.specs.Codes.{code_of, record_of, sentence_of};

    /// Its code, TR1 to TR6.
    pub fn code(self) -> &'static str
        ensures { result.now ≡ code_of self }
    {
        match self {
            TraceFault::Header => "TR1",
            TraceFault::Fields(_) => "TR2",
            TraceFault::Number(_) => "TR3",
            TraceFault::TooLarge => "TR4",
            TraceFault::Read => "TR5",
            TraceFault::NoMemory => "TR6",
        }
    }

    /// The record that it names, counted from 1, with the header.
    pub fn record(self) -> Option<u32>
        ensures { result ≡ record_of self }
    {
        match self {
            TraceFault::Fields(record) | TraceFault::Number(record) => Some(record),
            TraceFault::Header | TraceFault::TooLarge | TraceFault::Read | TraceFault::NoMemory =>
                None,
        }
    }

    /// What it says, behind its code and the record that it names.
    pub fn sentence(self) -> &'static str
        ensures { result.now ≡ sentence_of self }
    {
        match self {
            TraceFault::Header => "the first record is not the header",
            TraceFault::Fields(_) => "doesn't have as many fields as the header",
            TraceFault::Number(_) =>
                "has a field that isn't a number in its range, or is a mark with units",
            TraceFault::TooLarge => "the trace is too large",
            TraceFault::Read => "the source failed",
            TraceFault::NoMemory => "out of memory",
        }
    }
}

/// Writes a fault as its code and a sentence.
impl fmt::Display for TraceFault {
    ghost use Rattle.std.specs.Prelude.{Some};
    ghost use Rattle.us_requests.specs.Codes.{fault_text};

    ghost output = { λ fault. Some (fault_text fault) };

    fn fmt<W: fmt::Write>(&self, f: &mut fmt::Formatter<W>) -> fmt::Result {
        let (code, sentence) = (self.code(), self.sentence());
        match self.record() {
            Some(record) => write!(f, "{code}: record {record} {sentence}"),
            None => write!(f, "{code}: {sentence}"),
        }
    }
}

impl From<ReadFault> for TraceFault {
    ghost use Rattle.std.specs.Prelude.{◌≡◌};
    ghost use Rattle.us_requests.specs.Readings.{of_read_fault};

    ghost from_gives = { λ fault given. given ≡ of_read_fault fault };

    fn from(fault: ReadFault) -> TraceFault {
        match fault {
            ReadFault::TooLarge => TraceFault::TooLarge,
            ReadFault::Failed => TraceFault::Read,
            ReadFault::NoMemory => TraceFault::NoMemory,
        }
    }
}

impl From<AllocError> for TraceFault {
    ghost use Rattle.std.specs.Prelude.{◌≡◌};
    ghost use Rattle.us_requests.specs.declared.faults.TraceFault.TheVariants.{NoMemory};

    ghost from_gives = { λ _ fault. fault ≡ NoMemory };

    fn from(_refused: AllocError) -> TraceFault {
        TraceFault::NoMemory
    }
}

impl<T: Drop> From<AllocFailed<T>> for TraceFault {
    ghost use Rattle.std.specs.Prelude.{◌≡◌};
    ghost use Rattle.us_requests.specs.declared.faults.TraceFault.TheVariants.{NoMemory};

    ghost from_gives = { λ _ fault. fault ≡ NoMemory };

    fn from(_refused: AllocFailed<T>) -> TraceFault {
        TraceFault::NoMemory
    }
}
