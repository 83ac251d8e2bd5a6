use std::fmt;
use thiserror::Error;
use us_fault_lines::{MEMORY, config_line, run_line};
use us_flows::ConfigFault;
use us_replay::RunFault;
use us_requests::TraceFault;

/// Why a run is refused.
#[derive(Clone, Copy, Debug, PartialEq, Eq, Error)]
pub enum PageFault {
    /// Want of memory, wherever it was met.
    NoMemory,
    /// The configuration has a fault.
    Config(ConfigFault),
    /// The number of rounds has a fault, or the trace.
    Replay(RunFault),
}

/// The line that `mapsim` prints of the fault, without a line feed.
impl fmt::Display for PageFault {
    ghost use Rattle.std.specs.Prelude.{Some};
    ghost use Rattle.us_page.specs.Runs.{page_line};

    ghost output = { λ fault. Some (page_line fault) };

    fn fmt<W: fmt::Write>(&self, f: &mut fmt::Formatter<W>) -> fmt::Result {
        match self {
            PageFault::NoMemory => write!(f, "{MEMORY}"),
            PageFault::Config(fault) => write!(f, "{}", config_line(*fault)),
            PageFault::Replay(fault) => write!(f, "{}", run_line(*fault)),
        }
    }
}

impl From<ConfigFault> for PageFault {
    ghost use Rattle.std.specs.Prelude.{◌≡◌};
    ghost use Rattle.us_page.specs.Runs.{of_config};

    ghost from_gives = { λ given fault. fault ≡ of_config given };

    fn from(given: ConfigFault) -> PageFault {
        match given {
            ConfigFault::NoMemory => PageFault::NoMemory,
            other => PageFault::Config(other),
        }
    }
}

/// Readers and writers in memory fail only where memory is wanting.
impl From<RunFault> for PageFault {
    ghost use Rattle.std.specs.Prelude.{◌≡◌};
    ghost use Rattle.us_page.specs.Runs.{of_run};

    ghost from_gives = { λ given fault. fault ≡ of_run given };

    fn from(given: RunFault) -> PageFault {
        match given {
            RunFault::NoMemory(_)
            | RunFault::Trace(TraceFault::NoMemory | TraceFault::Read)
            | RunFault::WriteMaps(_)
            | RunFault::WriteReport(_) => PageFault::NoMemory,
            other => PageFault::Replay(other),
        }
    }
}
