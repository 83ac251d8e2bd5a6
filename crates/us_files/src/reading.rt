ghost use Rattle.std.specs.Prelude.{IfErr};
ghost use Rattle.us_files.specs.Streams.{IsFaultOf};

use crate::faults::StreamFault;
use crate::opening::open;
use crate::streams::Stream;
use crate::texts::Texts;
use std::alloc::Global;
use std::rt::Files;
use us_slots::{ReadFault, read_all};

/// All bytes of the program's file of this kind, at a path, if it has at most so many; none of one that has more.
pub fn read_at_most<R: Files>(
    rt: &R,
    alloc: Global,
    path: &str,
    stream: Stream,
    most: usize,
) -> Result<Option<Vec<u8>>, StreamFault>
    ensures { IfErr result (IsFaultOf stream) }
{
    match read_all(alloc, &mut open(rt, path, stream)?, most) {
        Ok(bytes) => Ok(Some(bytes)),
        Err(ReadFault::TooLarge) => Ok(None),
        Err(ReadFault::Failed) => Err(StreamFault::Failed(stream)),
        Err(ReadFault::NoMemory) => Err(StreamFault::NoMemory),
    }
}

/// The same of a file of any length. What memory can't hold is want of it.
pub fn read_bytes<R: Files>(
    rt: &R,
    alloc: Global,
    path: &str,
    stream: Stream,
) -> Result<Vec<u8>, StreamFault>
    ensures { IfErr result (IsFaultOf stream) }
{
    match read_at_most(rt, alloc, path, stream, usize::MAX)? {
        Some(bytes) => Ok(bytes),
        None => Err(StreamFault::NoMemory),
    }
}

/// The maps file and the report at these paths.
pub fn read_output<R: Files>(
    rt: &R,
    alloc: Global,
    maps: &str,
    report: &str,
) -> Result<Texts, StreamFault> {
    Ok(Texts {
        maps: read_bytes(rt, alloc, maps, Stream::Maps)?,
        report: read_bytes(rt, alloc, report, Stream::Report)?,
    })
}
