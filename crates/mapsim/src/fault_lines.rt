ghost use Rattle.std.specs.Prelude.{◌≡◌};
ghost use Rattle.mapsim.specs.Lines;
ghost use Rattle.us_fault_lines.specs.Lines.{line_text};

use us_check::CheckFault;
use us_codec::MapFault;
use us_fault_lines::{Line, MEMORY, Named};
use us_files::Stream;

/// The line of a fault of the MAP in the record with an index.
pub fn map_line(fault: MapFault, index: usize) -> Line
    ensures { line_text result ≡ Lines.map_line fault index }
{
    match fault {
        MapFault::NoMemory => MEMORY,
        MapFault::RecordCut => Line {
            word: fault.code(),
            named: Named::Nothing,
        },
        _ => Line {
            word: fault.code(),
            named: Named::Number(index),
        },
    }
}

/// The line of a fault of a check.
pub fn check_line(fault: CheckFault) -> Line
    ensures { line_text result ≡ Lines.check_line fault }
{
    match fault {
        CheckFault::NoMemory => MEMORY,
        CheckFault::Report(line) => Line {
            word: fault.code(),
            named: Named::Number(line as usize),
        },
    }
}

/// The line of a stream that failed.
pub fn stream_line(stream: Stream) -> Line
    ensures { line_text result ≡ Lines.stream_line stream }
{
    Line {
        word: "io",
        named: Named::Stream(stream.word()),
    }
}
