use std::alloc::Global;
use us_output::{EntryWord, FinalState, Grant, MissedOccurrence, Row};
use us_reports::{Place, ReportFault, report_rows};
use us_slots::NoMemory;

/// What a line is about.
#[derive(Clone, Copy, PartialEq, Eq)]
pub(crate) enum Topic {
    /// An entry of a calendar, or a request.
    Entry(EntryWord),
    /// What is left of a cluster.
    Final,
    /// The activity of a flow.
    Activity,
    /// Counts of the trace.
    Counts,
    /// There is no line.
    Nothing,
}

/// A station's maintenance.
pub(crate) const STATION: Topic = Topic::Entry(EntryWord::Station);

/// A request.
pub(crate) const REQUESTED: Topic = Topic::Entry(EntryWord::Requested);

impl Topic {
    /// Whether it has to do with a MAP.
    pub(crate) fn is_of_map(self) -> bool {
        matches!(self, Topic::Entry(_))
    }
}

/// What a line of a report tells, in numbers: those that it has none of are 0.
#[derive(Clone, Copy)]
pub(crate) struct Told {
    /// What it is about.
    pub(crate) topic: Topic,
    /// Whether it is a grant.
    pub(crate) is_grant: bool,
    pub(crate) round: u64,
    pub(crate) channel: u64,
    /// The id of the flow, or of the station.
    pub(crate) id: u64,
    /// The number of the interval, or of the cluster.
    pub(crate) i: u64,
    pub(crate) k: u64,
    pub(crate) sid: u64,
    pub(crate) iuc: u64,
    pub(crate) start: u64,
    pub(crate) slots: u64,
    pub(crate) credit: u64,
    /// What a last line tells of these.
    pub(crate) last: [u64; 3],
}

/// No line.
pub(crate) const NO_LINE: Told = Told {
    topic: Topic::Nothing,
    is_grant: false,
    round: 0,
    channel: 0,
    id: 0,
    i: 0,
    k: 0,
    sid: 0,
    iuc: 0,
    start: 0,
    slots: 0,
    credit: 0,
    last: [0; 3],
};

impl Told {
    /// Whether it is about the round, the channel and the id of a verdict.
    pub(crate) fn is_at(self, at: Place) -> bool {
        (self.round == at.round) & (self.channel == at.channel) & (self.id == at.third)
    }
}

/// What a row tells.
pub(crate) fn told_by(row: &Row) -> Told {
    match row {
        Row::Granted(grant) => granted(*grant),
        Row::Missed(missed) => missed_by(*missed),
        Row::Final(state) => final_state(*state),
        Row::Activity(told) => last_line(Topic::Activity, told.flow, 0, [told.active, 0, 0]),
        Row::Counts(told) => {
            last_line(
                Topic::Counts,
                0,
                0,
                [told.unknown, told.not_requestable, told.late],
            )
        }
    }
}

/// What a G line tells.
fn granted(grant: Grant) -> Told {
    Told {
        topic: Topic::Entry(grant.entry),
        is_grant: true,
        round: grant.round,
        channel: grant.channel,
        id: grant.id,
        i: grant.i,
        k: grant.k,
        sid: grant.sid,
        iuc: grant.iuc,
        start: grant.start,
        slots: grant.slots,
        credit: grant.credit,
        last: [0; 3],
    }
}

/// What an M line tells.
fn missed_by(missed: MissedOccurrence) -> Told {
    Told {
        topic: Topic::Entry(missed.entry),
        round: missed.round,
        channel: missed.channel,
        id: missed.id,
        i: missed.i,
        k: missed.k,
        ..NO_LINE
    }
}

/// What an F line tells: what is outstanding, whether it has units, and these.
fn final_state(state: FinalState) -> Told {
    let has_units = state.units.is_some() as u64;
    let units = state.units.unwrap_or(0);
    last_line(
        Topic::Final,
        state.flow,
        state.cluster,
        [state.outstanding, has_units, units],
    )
}

/// What a last line tells.
fn last_line(topic: Topic, id: u64, i: u64, last: [u64; 3]) -> Told {
    Told {
        topic,
        id,
        i,
        last,
        ..NO_LINE
    }
}

/// The rows of a report that was read before.
pub(crate) fn rows_of(alloc: Global, report: &[u8]) -> Result<Vec<Row>, NoMemory> {
    match report_rows(alloc, report) {
        Ok(rows) => Ok(rows),
        Err(ReportFault::NoMemory) => Err(NoMemory),
        // Nobody comes here: a report with such a line has no verdict.
        Err(ReportFault::Line(_)) => Ok(Vec::new(alloc)),
    }
}
