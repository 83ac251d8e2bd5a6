ghost use Rattle.std.specs.Prelude.{◌≡◌};
ghost use Rattle.us_replay.specs.Faults as spec;

use std::fmt;
use thiserror::Error;
use us_requests::TraceFault;

/// Why a replay ended early: the first fault that was met.
#[derive(Clone, Copy, Debug, PartialEq, Eq, Hash, Error)]
pub enum RunFault {
    /// RU1: no rounds, or together over 67,108,864 ticks. Nothing was read or written.
    Rounds,
    /// RU2: no worker, or over 64. Nothing was read or written.
    Workers,
    /// RU3: the trace has a fault. Nothing was written.
    Trace(TraceFault),
    /// RU4: a write or flush of the maps file failed, after so many rounds. These are done: their records and their
    /// lines were all taken, and there is no greater number of which that holds.
    WriteMaps(u32),
    /// RU5: a write or flush of the report failed, after so many rounds were done as in RU4.
    WriteReport(u32),
    /// RU6: want of memory, after so many rounds were done as in RU4.
    NoMemory(u32),
}

impl RunFault {
    /// Its code, RU1 to RU6: its text begins with it.
    pub fn code(self) -> &'static str
        ensures { result.now ≡ spec.code_of self }
    {
        match self {
            RunFault::Rounds => "RU1",
            RunFault::Workers => "RU2",
            RunFault::Trace(_) => "RU3",
            RunFault::WriteMaps(_) => "RU4",
            RunFault::WriteReport(_) => "RU5",
            RunFault::NoMemory(_) => "RU6",
        }
    }
}

/// Writes the text of a fault, behind its code.
impl fmt::Display for RunFault {
    ghost use Rattle.std.specs.Prelude.{Some};
    ghost use Rattle.us_replay.specs.Faults.{fault_text};

    ghost output = { λ fault. Some (fault_text fault) };

    fn fmt<W: fmt::Write>(&self, f: &mut fmt::Formatter<W>) -> fmt::Result {
        let (said, rounds) = match *self {
            RunFault::Rounds => ("no rounds, or more than a run has ticks for", None),
            RunFault::Workers => ("the workers are not 1 to 64", None),
            RunFault::Trace(_) => ("the trace is refused", None),
            RunFault::WriteMaps(done) => ("the maps file failed", Some(done)),
            RunFault::WriteReport(done) => ("the report failed", Some(done)),
            RunFault::NoMemory(done) => ("out of memory", Some(done)),
        };
        let code = self.code();
        match rounds {
            Some(done) => write!(f, "{code}: {said} after {done} rounds"),
            None => write!(f, "{code}: {said}"),
        }
    }
}

impl From<TraceFault> for RunFault {
    ghost use Rattle.std.specs.Prelude.{◌≡◌};
    ghost use Rattle.us_replay.specs.declared.faults.RunFault.TheVariants.{Trace};

    ghost from_gives = { λ reason fault. fault ≡ Trace reason };

    fn from(reason: TraceFault) -> RunFault {
        RunFault::Trace(reason)
    }
}
