use std::fmt;
use thiserror::Error;
use us_slots::NoMemory;

/// Why a round was not made. The state was given up.
#[derive(Clone, Copy, Debug, PartialEq, Eq, Error)]
pub enum RoundFault {
    /// RO1: no worker, or over 64. It is looked for before all else.
    Workers,
    /// RO2: want of memory.
    NoMemory,
}

/// Writes the text of a fault.
impl fmt::Display for RoundFault {
    ghost use Rattle.std.specs.Prelude.{Some};
    ghost use Rattle.us_round.specs.Faults.{fault_text};

    ghost output = { λ fault. Some (fault_text fault) };

    fn fmt<W: fmt::Write>(&self, f: &mut fmt::Formatter<W>) -> fmt::Result {
        f.write_str(match self {
            RoundFault::Workers => "RO1: the workers are not 1 to 64",
            RoundFault::NoMemory => "RO2: out of memory",
        })
    }
}

impl From<NoMemory> for RoundFault {
    ghost use Rattle.std.specs.Prelude.{◌≡◌};
    ghost use Rattle.us_round.specs.declared.faults.RoundFault.TheVariants as fault;

    ghost from_gives = { λ want given. given ≡ fault.NoMemory };

    fn from(_: NoMemory) -> RoundFault {
        RoundFault::NoMemory
    }
}
