use std::alloc::{AllocError, AllocFailed};
use std::fmt;
use thiserror::Error;

/// A kind of table of the configuration.
#[derive(Clone, Copy, PartialEq, Eq)]
pub enum TableName {
    /// The top level.
    Top,
    /// An item of `channel`.
    Channel,
    /// An item of `flow`.
    Flow,
    /// An item of `station`.
    Station,
}

/// Writes the word of a table in lower case.
impl fmt::Display for TableName {
    ghost use Rattle.std.specs.Prelude.{Some};
    ghost use Rattle.us_flows.specs.Places.{table_word};

    ghost output = { λ table. Some (table_word table) };

    fn fmt<W: fmt::Write>(&self, f: &mut fmt::Formatter<W>) -> fmt::Result {
        f.write_str(match self {
            TableName::Top => "top",
            TableName::Channel => "channel",
            TableName::Flow => "flow",
            TableName::Station => "station",
        })
    }
}

/// Writes the same word.
impl fmt::Debug for TableName {
    fn fmt<W: fmt::Write>(&self, f: &mut fmt::Formatter<W>) -> fmt::Result {
        fmt::Display::fmt(self, f)
    }
}

/// A table of the configuration.
#[derive(Clone, Copy, PartialEq, Eq)]
pub struct Place {
    /// The kind of table.
    pub table: TableName,
    /// Which of its kind, counted from 0; 0 for the top level.
    pub index: u32,
}

/// The top level.
pub(crate) const TOP: Place = Place {
    table: TableName::Top,
    index: 0,
};

/// Writes a place as `channel 0`.
impl fmt::Display for Place {
    ghost use Rattle.std.specs.Prelude.{Some};
    ghost use Rattle.us_flows.specs.Places.{place_text};

    ghost output = { λ place. Some (place_text place) };

    fn fmt<W: fmt::Write>(&self, f: &mut fmt::Formatter<W>) -> fmt::Result {
        write!(f, "{} {}", self.table, self.index)
    }
}

/// Writes the same.
impl fmt::Debug for Place {
    fn fmt<W: fmt::Write>(&self, f: &mut fmt::Formatter<W>) -> fmt::Result {
        fmt::Display::fmt(self, f)
    }
}

/// Why a text is no configuration. Of several faults the first is answered: C1; those of the top level, of each
/// channel, of each flow and of each station, in this order of tables and each table's by number, but a flow's type is
/// looked at first, C7 before C6 and C14 behind C12; C13 last, but memory may be wanting before a later check is made.
#[derive(Clone, Copy, PartialEq, Eq, Error)]
pub enum ConfigFault {
    /// C1: over 4,194,304 bytes, or no TOML document.
    Text,
    /// C2: a key is missing; a key of a profile counts at its channel.
    Missing(Place),
    /// C3: a value of another kind or out of its range, a list of a wrong length, or a key that isn't listed.
    Range(Place),
    /// C4: a channel id that no channel has.
    UnknownChannel(Place),
    /// C5: an id that an earlier table of the same list has; in a flow also a channel that is there twice.
    DuplicateId(Place),
    /// C6: a SID that an earlier flow, or an earlier cluster of this flow, has on the same channel.
    DuplicateSid(Place),
    /// C7: a cluster whose length isn't that of the flow's channels.
    ClusterLength(Place),
    /// C8: the round isn't a multiple of the channel's minislot.
    RoundNotMultiple(Place),
    /// C9: both reserves of the channel together pass the length of its MAPs.
    ReservesTooLong(Place),
    /// C10: the jitter isn't below the interval.
    Jitter(Place),
    /// C11: an unsolicited grant, a poll or a station's maintenance that passes the length of the channel's MAPs.
    GrantLongerThanMap(Place),
    /// C12: no segment headers, but more than one channel.
    Headers(Place),
    /// C14: a minimum rate above the maximum one, where that is a limit.
    MinRate(Place),
    /// C13: want of memory.
    NoMemory,
}

impl ConfigFault {
    ghost use Rattle.std.specs.Prelude.{◌≡◌};
    ghost use Rattle.us_flows.specs.Codes.{code_of};
    ghost use Rattle.us_flows.specs.Places.{place_of};
    ghost use Rattle.us_flows.specs.Texts.{sentence_of};

    /// Its code, C1 to C14.
    pub fn code(self) -> &'static str
        ensures { result.now ≡ code_of self }
    {
        match self {
            ConfigFault::Text => "C1",
            ConfigFault::Missing(_) => "C2",
            ConfigFault::Range(_) => "C3",
            ConfigFault::UnknownChannel(_) => "C4",
            ConfigFault::DuplicateId(_) => "C5",
            ConfigFault::DuplicateSid(_) => "C6",
            ConfigFault::ClusterLength(_) => "C7",
            ConfigFault::RoundNotMultiple(_) => "C8",
            ConfigFault::ReservesTooLong(_) => "C9",
            ConfigFault::Jitter(_) => "C10",
            ConfigFault::GrantLongerThanMap(_) => "C11",
            ConfigFault::Headers(_) => "C12",
            ConfigFault::MinRate(_) => "C14",
            ConfigFault::NoMemory => "C13",
        }
    }

    /// What it says behind its code, up to the table that it names.
    pub fn sentence(self) -> &'static str
        ensures { result.now ≡ sentence_of self }
    {
        match self {
            ConfigFault::Text => "not a TOML document of at most 4,194,304 bytes",
            ConfigFault::Missing(_) => "a key is missing in ",
            ConfigFault::Range(_) => "a value is out of its range, or a key is unknown, in ",
            ConfigFault::UnknownChannel(_) =>
                "an id in channels or channel that no channel has, in ",
            ConfigFault::DuplicateId(_) => "a duplicate id, or a duplicate in channels, in ",
            ConfigFault::DuplicateSid(_) =>
                "a SID in clusters is another cluster's on the same channel in ",
            ConfigFault::ClusterLength(_) =>
                "a list in clusters doesn't have one SID for each of channels in ",
            ConfigFault::RoundNotMultiple(_) =>
                "round_ticks isn't a multiple of the minislot, minislot_log2, of ",
            ConfigFault::ReservesTooLong(_) =>
                "contention_minislots and maintenance_minislots don't fit in the MAPs of ",
            ConfigFault::Jitter(_) => "jitter_us is not below interval_us in ",
            ConfigFault::GrantLongerThanMap(_) =>
                "grant_bytes, a poll or station_minislots is longer than the MAP in ",
            ConfigFault::Headers(_) => "headers is false with several channels in ",
            ConfigFault::MinRate(_) => "min_rate is above rate in ",
            ConfigFault::NoMemory => "out of memory",
        }
    }

    /// The table that it names.
    pub fn place(self) -> Option<Place>
        ensures { result ≡ place_of self }
    {
        match self {
            ConfigFault::Missing(place)
            | ConfigFault::Range(place)
            | ConfigFault::UnknownChannel(place)
            | ConfigFault::DuplicateId(place)
            | ConfigFault::DuplicateSid(place)
            | ConfigFault::ClusterLength(place)
            | ConfigFault::RoundNotMultiple(place)
            | ConfigFault::ReservesTooLong(place)
            | ConfigFault::Jitter(place)
            | ConfigFault::GrantLongerThanMap(place)
            | ConfigFault::Headers(place)
            | ConfigFault::MinRate(place) => Some(place),
            ConfigFault::Text | ConfigFault::NoMemory => None,
        }
    }
}

/// Writes a fault as its code and a sentence that ends in its table.
impl fmt::Display for ConfigFault {
    ghost use Rattle.std.specs.Prelude.{Some};
    ghost use Rattle.us_flows.specs.Texts.{fault_text};

    ghost output = { λ fault. Some (fault_text fault) };

    fn fmt<W: fmt::Write>(&self, f: &mut fmt::Formatter<W>) -> fmt::Result {
        let (code, sentence) = (self.code(), self.sentence());
        match self.place() {
            Some(place) => write!(f, "{code}: {sentence}{place}"),
            None => write!(f, "{code}: {sentence}"),
        }
    }
}

/// Writes the same sentence.
impl fmt::Debug for ConfigFault {
    fn fmt<W: fmt::Write>(&self, f: &mut fmt::Formatter<W>) -> fmt::Result {
        fmt::Display::fmt(self, f)
    }
}

impl From<AllocError> for ConfigFault {
    ghost use Rattle.std.specs.Prelude.{◌≡◌};
    ghost use Rattle.us_flows.specs.declared.faults.ConfigFault.TheVariants.{NoMemory};

    ghost from_gives = { λ _ fault. fault ≡ NoMemory };

    fn from(_refused: AllocError) -> ConfigFault {
        ConfigFault::NoMemory
    }
}

impl<T: Drop> From<AllocFailed<T>> for ConfigFault {
    ghost use Rattle.std.specs.Prelude.{◌≡◌};
    ghost use Rattle.us_flows.specs.declared.faults.ConfigFault.TheVariants.{NoMemory};

    ghost from_gives = { λ _ fault. fault ≡ NoMemory };

    fn from(_refused: AllocFailed<T>) -> ConfigFault {
        ConfigFault::NoMemory
    }
}
