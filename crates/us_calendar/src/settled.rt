use crate::kinds::Kind;
use us_holes::Owner;

/// An occurrence of an entry that a round settled.
#[derive(Clone, Copy)]
pub enum Settled {
    /// It was granted.
    Granted {
        /// What the entry is.
        kind: Kind,
        /// The id of its flow, or of its station.
        id: u16,
        /// The number of the interval.
        i: u32,
        /// The place among the grants of the interval, 0 but for unsolicited grants and those of a flow whose activity is
        /// detected.
        k: u8,
        /// The offset of its first minislot in the MAP.
        start: u32,
        /// How many minislots it has.
        slots: u32,
        /// The SID, and the IUC of a grant of its kind, or that of a request where it is the poll of a silent flow.
        owner: Owner,
    },
    /// It was missed: its window ended before the round did, and no minislot of it was to be had.
    Missed {
        /// What the entry is.
        kind: Kind,
        /// The id of its flow, or of its station.
        id: u16,
        /// The number of the interval.
        i: u32,
        /// The place among the grants of the interval, 0 but for unsolicited grants and those of a flow whose activity is
        /// detected.
        k: u8,
    },
}
