use crate::documents::{TOP, number_at, table_at, title_of, values_at};
use crate::drafts::{Draft, Why};
use crate::grants::long_grant;
use crate::names::{cluster_length, duplicate_id, duplicate_sid, unknown_channel};
use crate::sentences::Sentence;
use crate::spots::KeyPath;
use toml::Table;
use us_flows::{ConfigFault, Place};

/// A table of a document that breaks a rule of several keys, or of several tables.
#[derive(Clone, Copy)]
pub(crate) struct Case<'d> {
    pub(crate) document: &'d Table,
    pub(crate) table: &'d Table,
    pub(crate) place: Place,
}

/// Why a table of a document has this fault; none where that is one of its shape.
pub(crate) fn explained<'d>(document: &'d Table, fault: ConfigFault) -> Option<Draft<'d>> {
    // A fault of no table has no rule of that kind, and one of a table has it in its place.
    let place = fault.place().unwrap_or(TOP);
    let table = table_at(document, place).unwrap_or(document);
    let case = Case {
        document,
        table,
        place,
    };
    match case.why(fault) {
        Some(why) => Some(Draft::several(title_of(table, place), fault, why)),
        None => None,
    }
}

impl<'d> Case<'d> {
    /// Why the table has this fault.
    fn why(&self, fault: ConfigFault) -> Option<Why<'d>> {
        match fault {
            ConfigFault::UnknownChannel(_) => Some(unknown_channel(self)),
            ConfigFault::DuplicateId(_) => Some(duplicate_id(self)),
            ConfigFault::DuplicateSid(_) => Some(duplicate_sid(self)),
            ConfigFault::ClusterLength(_) => Some(cluster_length(self)),
            ConfigFault::RoundNotMultiple(_) => Some(self.round_not_multiple()),
            ConfigFault::ReservesTooLong(_) => Some(self.reserves_too_long()),
            ConfigFault::Jitter(_) => {
                Some(self.beside("jitter_us", "# is not below interval_us, #", "interval_us"))
            }
            ConfigFault::GrantLongerThanMap(_) => Some(long_grant(self)),
            ConfigFault::Headers(_) => Some(self.headers()),
            ConfigFault::MinRate(_) => Some(self.beside("min_rate", "# is above rate, #", "rate")),
            ConfigFault::Text
            | ConfigFault::Missing(_)
            | ConfigFault::Range(_)
            | ConfigFault::NoMemory => None,
        }
    }

    /// The number of a key of the table.
    pub(crate) fn number(&self, key: &str) -> u64 {
        number_at(self.table, key)
    }

    /// The round is no whole number of minislots.
    fn round_not_multiple(&self) -> Why<'d> {
        let round = number_at(self.document, "round_ticks");
        let minislot = minislot_ticks(self.table);
        Why {
            key: "minislot_log2",
            sentence: Sentence(
                "a minislot has # ticks, which is no divisor of round_ticks, #",
                [minislot, round, 0, 0],
            ),
            other: Some(KeyPath::of(TOP, Some("round_ticks"))),
        }
    }

    /// Both reserves together are longer than a MAP.
    fn reserves_too_long(&self) -> Why<'d> {
        let contention = self.number("contention_minislots");
        let maintenance = self.number("maintenance_minislots");
        let len = map_len(self.document, self.table);
        Why {
            key: "contention_minislots",
            sentence: Sentence(
                "# and maintenance_minislots, #, together pass the # minislots of a MAP",
                [contention, maintenance, len, 0],
            ),
            other: None,
        }
    }

    /// Segment headers are off, on several channels.
    fn headers(&self) -> Why<'d> {
        let channels = values_at(self.table, "channels").len();
        Why {
            key: "headers",
            sentence: Sentence::of(
                "false is there, and a flow with # channels wants true",
                channels as u64,
            ),
            other: None,
        }
    }

    /// The number of a key has to do with that of another one, by these words.
    fn beside(&self, key: &'static str, words: &'static str, other: &str) -> Why<'d> {
        Why {
            key,
            sentence: Sentence(words, [self.number(key), self.number(other), 0, 0]),
            other: None,
        }
    }
}

/// The ticks of a channel's minislot.
fn minislot_ticks(channel: &Table) -> u64 {
    let log2 = u32::try_from(number_at(channel, "minislot_log2")).unwrap_or(u32::MAX);
    1u64.checked_shl(log2).unwrap_or(0)
}

/// The minislots of a channel's MAPs.
pub(crate) fn map_len(document: &Table, channel: &Table) -> u64 {
    let round = number_at(document, "round_ticks");
    round.checked_div(minislot_ticks(channel)).unwrap_or(0)
}
