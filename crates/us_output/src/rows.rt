/// What a grant, or a missed occurrence, is of, as a line names it: an entry of the calendar, or a request.
#[derive(Clone, Copy, Debug, PartialEq, Eq)]
pub enum EntryWord {
    /// `ugs`: an unsolicited grant.
    Unsolicited,
    /// `ad`: a grant of a flow whose activity is detected, or its poll while it is silent.
    Activity,
    /// `rtp`: a real-time poll.
    RealTimePoll,
    /// `nrtp`: a non-real-time poll.
    NonRealTimePoll,
    /// `station`: a station's maintenance.
    Station,
    /// `req`: a requested grant.
    Requested,
}

/// A line of the report.
#[derive(Clone, Copy, Debug, PartialEq, Eq)]
pub enum Row {
    /// A G line.
    Granted(Grant),
    /// An M line.
    Missed(MissedOccurrence),
    /// An F line.
    Final(FinalState),
    /// An A line.
    Activity(FinalActivity),
    /// The U line.
    Counts(TraceCounts),
}

/// A grant, as a G line tells it.
#[derive(Clone, Copy, Debug, PartialEq, Eq)]
pub struct Grant {
    /// The number of the round.
    pub round: u64,
    /// The id of the channel.
    pub channel: u64,
    /// What it is of.
    pub entry: EntryWord,
    /// The id of the flow, or of the station.
    pub id: u64,
    /// The number of the interval; of a requested grant its SID cluster, 0 or 1.
    pub i: u64,
    /// The place among the grants of the interval, 0 but for unsolicited grants and those of a flow whose activity is
    /// detected.
    pub k: u64,
    /// The SID.
    pub sid: u64,
    /// The IUC.
    pub iuc: u64,
    /// The offset in the MAP, in minislots.
    pub start: u64,
    /// The length in minislots.
    pub slots: u64,
    /// The credited bytes, without the segment header.
    pub credit: u64,
}

/// An occurrence that was missed, as an M line tells it.
#[derive(Clone, Copy, Debug, PartialEq, Eq)]
pub struct MissedOccurrence {
    /// The number of the round.
    pub round: u64,
    /// The id of the channel.
    pub channel: u64,
    /// What it is of, which is no request.
    pub entry: EntryWord,
    /// The id of the flow, or of the station.
    pub id: u64,
    /// The number of the interval.
    pub i: u64,
    /// The place among the grants of the interval, 0 but for unsolicited grants and those of a flow whose activity is
    /// detected.
    pub k: u64,
}

/// The final state of a SID cluster, as an F line tells it.
#[derive(Clone, Copy, Debug, PartialEq, Eq)]
pub struct FinalState {
    /// The flow's id.
    pub flow: u64,
    /// The cluster, 0 or 1.
    pub cluster: u64,
    /// The bytes that were requested and not credited.
    pub outstanding: u64,
    /// The units of the flow's bucket; `None`, written `-`, for rate 0.
    pub units: Option<u64>,
}

/// Whether a flow whose activity is detected is active at the end, as an A line tells it: a number of 64 bits, as all of a
/// report.
#[derive(Clone, Copy, Debug, PartialEq, Eq)]
pub struct FinalActivity {
    /// The flow's id.
    pub flow: u64,
    /// 1 where it is active, 0 where it is silent. No schedule tells another number.
    pub active: u64,
}

/// How many rows of the trace, requests and marks, count for nothing, as the U line tells it: numbers of 64 bits, as all of
/// a report. Each counts under the first of these that holds of it.
#[derive(Clone, Copy, Debug, PartialEq, Eq)]
pub struct TraceCounts {
    /// No flow has the SID on the channel.
    pub unknown: u64,
    /// It is a request, and the flow makes none; or a mark, and the flow doesn't tell its activity.
    pub not_requestable: u64,
    /// Its round isn't below the number of rounds.
    pub late: u64,
}
