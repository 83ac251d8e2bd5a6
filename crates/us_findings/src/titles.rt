use crate::sentences::Sentence;
use us_flows::{Place, TableName};

/// A table, as a finding calls it: `flow 2 (id 3)`, counted from 0 as in fault lines, or `channel 0 (id 1), long`.
#[derive(Clone, Copy)]
pub(crate) struct Title {
    /// The channel, the flow or the station that it is, or that it is a profile of.
    pub(crate) place: Place,
    /// The id of that, if it has one.
    pub(crate) id: Option<u64>,
    /// The key of the profile that it is.
    pub(crate) profile: Option<&'static str>,
}

/// What a finding calls the table at a place, by its id if it has one.
pub fn table_words(place: Place, id: Option<u64>) -> Sentence {
    let words = match (place.table, id.is_some()) {
        (TableName::Top, _) => "the top level",
        (TableName::Channel, false) => "channel #",
        (TableName::Channel, true) => "channel # (id #)",
        (TableName::Flow, false) => "flow #",
        (TableName::Flow, true) => "flow # (id #)",
        (TableName::Station, false) => "station #",
        (TableName::Station, true) => "station # (id #)",
    };
    Sentence(words, [u64::from(place.index), id.unwrap_or(0), 0, 0])
}
