use crate::streams::Stream;

/// Why a file can't be read or made.
#[derive(Clone, Copy)]
pub enum StreamFault {
    /// It failed.
    Failed(Stream),
    /// Want of memory.
    NoMemory,
}
