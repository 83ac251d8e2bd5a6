ghost use Rattle.std.specs.Prelude.{◌≡◌, false, OnOk, is_err};
ghost use Rattle.std.specs.Io.KnownBytes.{Appends};

use crate::faults::Fault;
use us_files::Stream;
use us_slots::{Sink, write_all};

/// Writes all of `text` to standard output.
pub fn print<O: Sink>(output: &mut O, text: &[u8]) -> Result<(), Fault>
    requires { O.failed output.old ≡ false }
    ensures ok { OnOk result (Appends (O.contents output.old) (O.contents output.new) text.now) }
    ensures failed { O.failed output.new ≡ is_err result }
{
    match write_all(output, text) {
        Ok(()) => Ok(()),
        Err(_) => Err(Fault::Device(Stream::Output)),
    }
}
