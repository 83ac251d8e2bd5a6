ghost use Rattle.std.specs.Prelude.{◌≡◌};
ghost use Rattle.us_fault_lines.specs.Lines;
ghost use Rattle.us_fault_lines.specs.Lines.{line_text};

use crate::lines::{Line, MEMORY, Named};
use us_flows::ConfigFault;
use us_replay::RunFault;
use us_requests::TraceFault;

/// The line of a fault of the configuration.
pub fn config_line(fault: ConfigFault) -> Line
    ensures { line_text result ≡ Lines.config_line fault }
{
    match fault {
        ConfigFault::NoMemory => MEMORY,
        _ => Line {
            word: fault.code(),
            named: match fault.place() {
                Some(place) => Named::Place(place),
                None => Named::Nothing,
            },
        },
    }
}

/// The line of a fault of the trace.
fn trace_line(fault: TraceFault) -> Line
    ensures { line_text result ≡ Lines.trace_line fault }
{
    match fault {
        TraceFault::NoMemory => MEMORY,
        TraceFault::Read => Line {
            word: "io",
            named: Named::Stream("trace"),
        },
        _ => Line {
            word: fault.code(),
            named: match fault.record() {
                Some(record) => Named::Number(record as usize),
                None => Named::Nothing,
            },
        },
    }
}

/// The line of a fault of a replay.
pub fn run_line(fault: RunFault) -> Line
    ensures { line_text result ≡ Lines.run_line fault }
{
    match fault {
        RunFault::NoMemory(_) => MEMORY,
        RunFault::Trace(reason) => trace_line(reason),
        RunFault::WriteMaps(rounds) | RunFault::WriteReport(rounds) => Line {
            word: fault.code(),
            named: Named::Number(rounds as usize),
        },
        RunFault::Rounds | RunFault::Workers => Line {
            word: fault.code(),
            named: Named::Nothing,
        },
    }
}
