ghost use Rattle.std.specs.Prelude.{◌≡◌, false, OnOk};

use crate::dumps::print_maps;
use crate::faults::Fault;
use std::alloc::Global;
use std::rt::Files;
use us_files::{Stream, read_bytes};
use us_slots::Sink;

/// Prints the lines of each MAP of the maps file at a path.
pub fn dump_file<R: Files, O: Sink>(
    rt: &R,
    alloc: Global,
    path: &str,
    output: &mut O,
) -> Result<(), Fault>
    requires { O.failed output.old ≡ false }
    ensures ready { OnOk result (O.failed output.new ≡ false) }
{
    let file = read_bytes(rt, alloc, path, Stream::Maps)?;
    print_maps(alloc, &file, output)
}
