use std::error::Error;
use std::fmt;

/// Why the MAPs of a maps file aren't answered: one of its records is none.
#[derive(Clone, Copy, Debug, PartialEq, Eq)]
pub struct MapsFault {
    /// The first such record, counted from 0: it is cut, or its body isn't in the grammar.
    pub record: u64,
}

/// Writes the text of a fault.
impl fmt::Display for MapsFault {
    ghost use Rattle.std.specs.Prelude.{Some};
    ghost use Rattle.us_map_rules.specs.MapsReading.{fault_text};

    ghost output = { λ fault. Some (fault_text fault) };

    fn fmt<W: fmt::Write>(&self, f: &mut fmt::Formatter<W>) -> fmt::Result {
        let record = self.record;
        write!(f, "record {record} is none of a maps file")
    }
}

impl Error for MapsFault {}
