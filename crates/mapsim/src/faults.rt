ghost use Rattle.std.specs.Prelude.{◌≡◌};

use crate::fault_lines::{check_line, map_line, stream_line};
use crate::statuses::Status;
use std::alloc::AllocError;
use std::fmt;
use us_check::CheckFault;
use us_codec::MapFault;
use us_command_line::WordsFault;
use us_fault_lines::{config_line, run_line};
use us_files::{Stream, StreamFault};
use us_flows::ConfigFault;
use us_listing::LintFault;
use us_replay::RunFault;
use us_requests::TraceFault;
use us_slots::NoMemory;

/// What ends the program early.
#[derive(Drop)]
pub enum Fault {
    /// The words are refused, for the reason that this text gives to the user. It has all its line feeds.
    Usage(String),
    /// The input of `pipe` has no mark, or too many bytes.
    Pipe,
    /// The configuration has a fault.
    Config(ConfigFault),
    /// A replay ended early.
    Run(RunFault),
    /// The MAP in the record with this index, counted from 0, has a fault.
    Map(MapFault, usize),
    /// A check has no verdict.
    Check(CheckFault),
    /// A file or stream failed.
    Device(Stream),
    /// Want of memory.
    NoMemory,
}

impl Fault {
    ghost use Rattle.mapsim.specs.Statuses.{status_of};

    /// The status with which the program ends.
    pub fn status(&self) -> Status
        ensures { result ≡ status_of self.now }
    {
        match self {
            Fault::Usage(_) => Status::Usage,
            Fault::Device(_)
            | Fault::Run(
                RunFault::Trace(TraceFault::Read)
                | RunFault::WriteMaps(_)
                | RunFault::WriteReport(_),
            ) => Status::DeviceFailed,
            Fault::NoMemory
            | Fault::Config(ConfigFault::NoMemory)
            | Fault::Run(RunFault::NoMemory(_) | RunFault::Trace(TraceFault::NoMemory))
            | Fault::Map(MapFault::NoMemory, _)
            | Fault::Check(CheckFault::NoMemory) => Status::NoMemory,
            Fault::Pipe | Fault::Config(_) | Fault::Run(_) | Fault::Map(..) | Fault::Check(_) => {
                Status::Refused
            }
        }
    }
}

/// A line without its line feed, but for a usage fault.
impl fmt::Display for Fault {
    ghost use Rattle.std.specs.Prelude.{Some};
    ghost use Rattle.mapsim.specs.Lines.{fault_line};

    ghost output = { λ fault. Some (fault_line fault) };

    fn fmt<W: fmt::Write>(&self, f: &mut fmt::Formatter<W>) -> fmt::Result {
        match self {
            Fault::Usage(text) => f.write_str(text.as_str()),
            Fault::Pipe => f.write_str("fault pipe"),
            Fault::Config(fault) => write!(f, "{}", config_line(*fault)),
            Fault::Run(fault) => write!(f, "{}", run_line(*fault)),
            Fault::Map(fault, record) => write!(f, "{}", map_line(*fault, *record)),
            Fault::Check(fault) => write!(f, "{}", check_line(*fault)),
            Fault::Device(stream) => write!(f, "{}", stream_line(*stream)),
            Fault::NoMemory => f.write_str("fault memory"),
        }
    }
}

impl From<AllocError> for Fault {
    ghost use Rattle.mapsim.specs.declared.faults.Fault.TheVariants.{NoMemory};

    ghost from_gives = { λ _ fault. fault ≡ NoMemory };

    fn from(_refused: AllocError) -> Fault {
        Fault::NoMemory
    }
}

impl From<NoMemory> for Fault {
    ghost use Rattle.mapsim.specs.declared.faults.Fault.TheVariants as fault;

    ghost from_gives = { λ _ given. given ≡ fault.NoMemory };

    fn from(_refused: NoMemory) -> Fault {
        Fault::NoMemory
    }
}

impl From<WordsFault> for Fault {
    fn from(fault: WordsFault) -> Fault {
        match fault {
            WordsFault::Usage(text) => Fault::Usage(text),
            WordsFault::NoMemory => Fault::NoMemory,
        }
    }
}

impl From<ConfigFault> for Fault {
    ghost use Rattle.mapsim.specs.declared.faults.Fault.TheVariants.{Config};

    ghost from_gives = { λ config fault. fault ≡ Config config };

    fn from(fault: ConfigFault) -> Fault {
        Fault::Config(fault)
    }
}

impl From<RunFault> for Fault {
    ghost use Rattle.mapsim.specs.declared.faults.Fault.TheVariants.{Run};

    ghost from_gives = { λ run fault. fault ≡ Run run };

    fn from(fault: RunFault) -> Fault {
        Fault::Run(fault)
    }
}

impl From<TraceFault> for Fault {
    ghost use Rattle.us_replay.specs.declared.faults.RunFault.TheVariants.{Trace};
    ghost use Rattle.mapsim.specs.declared.faults.Fault.TheVariants.{Run};

    ghost from_gives = { λ trace fault. fault ≡ Run (Trace trace) };

    fn from(fault: TraceFault) -> Fault {
        Fault::Run(RunFault::Trace(fault))
    }
}

impl From<CheckFault> for Fault {
    ghost use Rattle.mapsim.specs.declared.faults.Fault.TheVariants.{Check};

    ghost from_gives = { λ check fault. fault ≡ Check check };

    fn from(fault: CheckFault) -> Fault {
        Fault::Check(fault)
    }
}

impl From<StreamFault> for Fault {
    ghost use Rattle.mapsim.specs.Lines.{fault_of_stream};

    ghost from_gives = { λ fault given. given ≡ fault_of_stream fault };

    fn from(fault: StreamFault) -> Fault {
        match fault {
            StreamFault::Failed(stream) => Fault::Device(stream),
            StreamFault::NoMemory => Fault::NoMemory,
        }
    }
}

impl From<LintFault> for Fault {
    ghost use Rattle.mapsim.specs.Lines.{fault_of_lint};

    ghost from_gives = { λ fault given. given ≡ fault_of_lint fault };

    fn from(fault: LintFault) -> Fault {
        match fault {
            LintFault::Rounds => Fault::Run(RunFault::Rounds),
            LintFault::Failed(stream) => Fault::Device(stream),
            LintFault::NoMemory => Fault::NoMemory,
        }
    }
}
