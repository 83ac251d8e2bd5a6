use us_files::{Stream, StreamFault};
use us_slots::NoMemory;

/// Why nothing is listed.
#[derive(Clone, Copy)]
pub enum LintFault {
    /// The rounds don't fit (RU1).
    Rounds,
    /// A file failed.
    Failed(Stream),
    /// Want of memory.
    NoMemory,
}

impl From<NoMemory> for LintFault {
    fn from(_refused: NoMemory) -> LintFault {
        LintFault::NoMemory
    }
}

impl From<StreamFault> for LintFault {
    fn from(fault: StreamFault) -> LintFault {
        match fault {
            StreamFault::Failed(stream) => LintFault::Failed(stream),
            StreamFault::NoMemory => LintFault::NoMemory,
        }
    }
}
