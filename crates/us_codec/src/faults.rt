use std::alloc::{AllocError, AllocFailed};
use std::fmt;
use thiserror::Error;

/// Why bytes are no MAP body, why parts make none, or why bytes are no maps file. Of several, the first in this order
/// is answered, and M10 last; but memory may be wanting before a later check is made.
#[derive(Clone, Copy, Debug, PartialEq, Eq, Hash, Error)]
pub enum MapFault {
    /// M1: under 16 bytes.
    Short,
    /// M2: the body hasn't 16 bytes and 4 more for each element that it counts.
    LengthMismatch,
    /// M3: the Reserved byte isn't 0.
    Reserved,
    /// M4: over 240 elements, with the Null and the pendings.
    TooManyElements,
    /// M5: read, no element has IUC 7, or the first that has it has another SID than 0; built, an element before the
    /// Null has IUC 7.
    NoNull,
    /// M6: the offsets up to the Null's don't rise strictly.
    Order,
    /// M7: an element behind the Null has IUC 7 or another offset than the Null's.
    AfterNull,
    /// M8: a backoff is over 15.
    Backoff,
    /// M9: the first offset isn't 0, be it the Null's.
    FirstOffset,
    /// M10: want of memory.
    NoMemory,
    /// M11: a maps file ends inside a record.
    RecordCut,
}

impl MapFault {
    ghost use Rattle.std.specs.Prelude.{◌≡◌};
    ghost use Rattle.us_codec.specs.Codes.{code_of, sentence_of};

    /// Its code, M1 to M11.
    pub fn code(self) -> &'static str
        ensures { result.now ≡ code_of self }
    {
        match self {
            MapFault::Short => "M1",
            MapFault::LengthMismatch => "M2",
            MapFault::Reserved => "M3",
            MapFault::TooManyElements => "M4",
            MapFault::NoNull => "M5",
            MapFault::Order => "M6",
            MapFault::AfterNull => "M7",
            MapFault::Backoff => "M8",
            MapFault::FirstOffset => "M9",
            MapFault::NoMemory => "M10",
            MapFault::RecordCut => "M11",
        }
    }

    /// What it says, behind its code.
    fn sentence(self) -> &'static str
        ensures { result.now ≡ sentence_of self }
    {
        match self {
            MapFault::Short => "the body has under 16 bytes",
            MapFault::LengthMismatch => "the length is not that of the counted elements",
            MapFault::Reserved => "Reserved is not 0",
            MapFault::TooManyElements => "over 240 elements",
            MapFault::NoNull => "no Null, or one out of place",
            MapFault::Order => "offsets do not rise up to the Null",
            MapFault::AfterNull => "an element after the Null has its IUC or another offset",
            MapFault::Backoff => "a backoff is over 15",
            MapFault::FirstOffset => "the first offset is not 0",
            MapFault::NoMemory => "out of memory",
            MapFault::RecordCut => "the file ends inside a record",
        }
    }
}

/// Writes a fault as its code and what it says.
impl fmt::Display for MapFault {
    ghost use Rattle.std.specs.Prelude.{Some};
    ghost use Rattle.us_codec.specs.Codes.{fault_text};

    ghost output = { λ fault. Some (fault_text fault) };

    fn fmt<W: fmt::Write>(&self, f: &mut fmt::Formatter<W>) -> fmt::Result {
        write!(f, "{}: {}", self.code(), self.sentence())
    }
}

impl From<AllocError> for MapFault {
    ghost use Rattle.std.specs.Prelude.{◌≡◌};
    ghost use Rattle.us_codec.specs.declared.faults.MapFault.TheVariants.{NoMemory};

    ghost from_gives = { λ _ fault. fault ≡ NoMemory };

    fn from(_refused: AllocError) -> MapFault {
        MapFault::NoMemory
    }
}

impl<T: Drop> From<AllocFailed<T>> for MapFault {
    ghost use Rattle.std.specs.Prelude.{◌≡◌};
    ghost use Rattle.us_codec.specs.declared.faults.MapFault.TheVariants.{NoMemory};

    ghost from_gives = { λ _ fault. fault ≡ NoMemory };

    fn from(_refused: AllocFailed<T>) -> MapFault {
        MapFault::NoMemory
    }
}
