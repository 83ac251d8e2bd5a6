ghost use Rattle.std.specs.Prelude.{◌≡◌, false, IfErr, IfOk};
ghost use Rattle.us_files.specs.Streams.{IsFaultOf};

use crate::faults::StreamFault;
use crate::streams::Stream;
use std::fs;
use std::io::{self, ErrorKind};
use std::rt::Files;
use us_slots::{FromRead, FromWrite};

/// Opens the program's file of this kind, to be read.
pub fn open<R: Files>(rt: &R, path: &str, stream: Stream) -> Result<FromRead<R::File>, StreamFault>
    ensures ready { IfOk result (λ device. device.failed ≡ false) }
    ensures fault { IfErr result (IsFaultOf stream) }
{
    Ok(FromRead::new(opened(fs::open(rt, path), stream)?))
}

/// Makes the program's file of this kind, to be written.
pub fn create<R: Files>(
    rt: &R,
    path: &str,
    stream: Stream,
) -> Result<FromWrite<R::File>, StreamFault>
    ensures ready { IfOk result (λ device. device.failed ≡ false) }
    ensures fault { IfErr result (IsFaultOf stream) }
{
    Ok(FromWrite::new(opened(fs::create(rt, path), stream)?))
}

/// A file that was opened or made, or the fault that says why not.
fn opened<F>(answer: io::Result<F>, stream: Stream) -> Result<F, StreamFault>
    ensures { IfErr result (IsFaultOf stream) }
{
    match answer {
        Ok(file) => Ok(file),
        Err(error) if error.kind() == ErrorKind::OutOfMemory => Err(StreamFault::NoMemory),
        Err(_) => Err(StreamFault::Failed(stream)),
    }
}
