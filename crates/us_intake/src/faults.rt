use std::alloc::AllocError;
use std::fmt;
use thiserror::Error;

/// Why an intake was not opened or closed, a seat not split, or bytes not submitted.
#[derive(Clone, Copy, Debug, PartialEq, Eq, Error)]
pub enum IntakeFault {
    /// I1: the bytes are more than the seat's quota leaves.
    QuotaSpent,
    /// I2: an intake's quota is 0, or 2^62 or more; or a split is of no bytes, of the seat's whole quota, or of more
    /// than it leaves.
    BadQuota,
    /// I3: want of memory.
    NoMemory,
}

impl IntakeFault {
    ghost use Rattle.std.specs.Prelude.{◌≡◌};
    ghost use Rattle.us_intake.specs.Codes.{code_of, sentence_of};

    /// Its code, I1 to I3.
    pub fn code(self) -> &'static str
        ensures { result.now ≡ code_of self }
    {
        match self {
            IntakeFault::QuotaSpent => "I1",
            IntakeFault::BadQuota => "I2",
            IntakeFault::NoMemory => "I3",
        }
    }

    /// What it says, behind its code.
    fn sentence(self) -> &'static str
        ensures { result.now ≡ sentence_of self }
    {
        match self {
            IntakeFault::QuotaSpent => "the bytes are over what the seat's quota leaves",
            IntakeFault::BadQuota => "the quota is none that can be given",
            IntakeFault::NoMemory => "out of memory",
        }
    }
}

/// Writes a fault as its code and what it says.
impl fmt::Display for IntakeFault {
    ghost use Rattle.std.specs.Prelude.{Some};
    ghost use Rattle.us_intake.specs.Codes.{fault_text};

    ghost output = { λ fault. Some (fault_text fault) };

    fn fmt<W: fmt::Write>(&self, f: &mut fmt::Formatter<W>) -> fmt::Result {
        write!(f, "{}: {}", self.code(), self.sentence())
    }
}

impl From<AllocError> for IntakeFault {
    ghost use Rattle.std.specs.Prelude.{◌≡◌};
    ghost use Rattle.us_intake.specs.declared.faults.IntakeFault.TheVariants as fault;

    ghost from_gives = { λ _ given. given ≡ fault.NoMemory };

    fn from(_refused: AllocError) -> IntakeFault {
        IntakeFault::NoMemory
    }
}
