ghost use Rattle.std.specs.Prelude.{◌≡◌, ◌≤◌, ℕ, List, length, slice_range, false, OnOk};
ghost use Rattle.std.specs.Io.KnownBytes.{Appends};
ghost use Rattle.us_codec.specs.Bodies.{MapBody, SpellsMap};
ghost use Rattle.mapsim.specs.MapLines.{lines_of};
ghost use Rattle.mapsim.specs.Dumps.{IsDump};

use crate::faults::Fault;
use crate::map_lines::map_lines;
use crate::printing::print;
use std::alloc::Global;
use us_codec::{MapFault, Record, decode, records};
use us_slots::Sink;

/// Prints the lines of each MAP of a maps file. The whole file is looked at for its records (M11) before the first line; a
/// body that has a fault (M1 to M9, with the index of its record) is met behind the lines of the MAPs before it. Want of
/// memory is none of a MAP.
pub fn print_maps<O: Sink>(alloc: Global, file: &[u8], output: &mut O) -> Result<(), Fault>
    requires { O.failed output.old ≡ false }
    ensures printed { OnOk result ((dump : List ℕ) × IsDump file.now dump ×
        Appends (O.contents output.old) (O.contents output.new) dump) }
    ensures ready { OnOk result (O.failed output.new ≡ false) }
{
    let records = match records(alloc, file) {
        Ok(records) => records,
        Err(MapFault::NoMemory) => return Err(Fault::NoMemory),
        Err(fault) => return Err(Fault::Map(fault, 0)),
    };
    for (index, record) in records.iter().enumerate() {
        print_record(alloc, file, index, *record, output)?;
    }
    Ok(())
}

/// Prints the lines of the MAP in a record of a maps file: the record with this index, by its place.
fn print_record<O: Sink>(
    alloc: Global,
    file: &[u8],
    index: usize,
    place: Record,
    output: &mut O,
) -> Result<(), Fault>
    requires ready { O.failed output.old ≡ false }
    requires within { (place.from ≤ place.to) × (place.to ≤ length file.now) }
    ensures printed { OnOk result ((map : MapBody) × SpellsMap (slice_range file.now place.from place.to) map ×
        Appends (O.contents output.old) (O.contents output.new)
        (lines_of place.round map.head.channel map.elements)) }
    ensures ready { OnOk result (O.failed output.new ≡ false) }
{
    match decode(alloc, &file[place.from..place.to]) {
        Ok(map) => {
            let lines = map_lines(alloc, place.round, &map)?;
            print(output, lines.as_str().as_bytes())
        }
        Err(MapFault::NoMemory) => Err(Fault::NoMemory),
        Err(fault) => Err(Fault::Map(fault, index)),
    }
}
