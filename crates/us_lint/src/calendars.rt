use crate::lengths::Lengths;
use crate::told::{STATION, Topic};
use std::alloc::Global;
use us_activity::Activities;
use us_calendar::{Entry, Kind, entries_of};
use us_flows::{Channel, Config};
use us_output::EntryWord;
use us_slots::{NoMemory, QUARTERS_PER_TICK};

/// The IUC of minislots for requests (the standard's).
pub(crate) const REQUEST: u64 = 1;

/// A word that marks no flow as silent.
const NO_WORD: u16 = u16::MAX;

/// An entry of a calendar, in numbers. Times are in quarter microseconds.
#[derive(Clone, Copy)]
pub(crate) struct PlacedEntry {
    /// What its lines are about.
    pub(crate) topic: Topic,
    /// The id of its channel, and of that the minislots of MAPs and the length of a minislot.
    pub(crate) channel: u64,
    pub(crate) map_len: u64,
    minislot: u64,
    pub(crate) sid: u64,
    iuc: u64,
    /// The minislots of a grant, and of a poll while its flow is silent.
    slots: u64,
    silent_slots: u64,
    start: u32,
    interval: u32,
    jitter: u32,
    /// How many grants there are in an interval.
    pub(crate) grants: u64,
    /// The word that marks its flow as silent.
    silence: u16,
}

/// No entry.
const NO_ENTRY: PlacedEntry = PlacedEntry {
    topic: Topic::Nothing,
    channel: 0,
    map_len: 0,
    minislot: 1,
    sid: 0,
    iuc: 0,
    slots: 0,
    silent_slots: 0,
    start: 0,
    interval: 1,
    jitter: 0,
    grants: 0,
    silence: NO_WORD,
};

/// The entries of one id: of a flow, and of a station.
#[derive(Clone, Copy)]
pub(crate) struct Entries {
    pub(crate) flow: PlacedEntry,
    pub(crate) station: PlacedEntry,
}

impl Entries {
    /// The entry that a line of this id is about, if there is one; else another one, or none.
    pub(crate) fn named(self, topic: Topic) -> PlacedEntry {
        if topic == STATION {
            self.station
        } else {
            self.flow
        }
    }
}

/// The entries of this id in the calendars of all channels.
pub(crate) fn entries_with(
    alloc: Global,
    config: &Config,
    lengths: Lengths,
    id: u64,
) -> Result<Entries, NoMemory> {
    let (mut flow, mut station) = (NO_ENTRY, NO_ENTRY);
    for channel in config.channels() {
        let entries = entries_of(alloc, config, channel)?;
        let map_len = lengths.map_len(channel);
        flow = entry_with(flow, channel, map_len, &entries, id, false);
        station = entry_with(station, channel, map_len, &entries, id, true);
    }
    Ok(Entries { flow, station })
}

/// The entry of this id among those of a channel, of a flow or of a station; where there is none, the one that was found
/// before.
fn entry_with(
    found: PlacedEntry,
    channel: &Channel,
    map_len: u64,
    entries: &[Entry],
    id: u64,
    is_station: bool,
) -> PlacedEntry {
    for entry in entries {
        let entry = *entry;
        let topic = Topic::Entry(word_of(entry.kind));
        if (entry.id as u64 == id) & ((topic == STATION) == is_station) {
            return placed(entry, topic, channel, map_len);
        }
    }
    found
}

/// An entry of a channel, of which this is what its lines are about.
fn placed(entry: Entry, topic: Topic, channel: &Channel, map_len: u64) -> PlacedEntry {
    let ticks = channel.bursts.time().minislot_ticks() as u64;
    PlacedEntry {
        topic,
        channel: channel.id as u64,
        map_len,
        minislot: QUARTERS_PER_TICK * ticks,
        sid: entry.owner.sid() as u64,
        iuc: entry.owner.iuc().number() as u64,
        slots: entry.slots_of(true) as u64,
        silent_slots: entry.slots_of(false) as u64,
        start: entry.start,
        interval: entry.interval,
        jitter: entry.jitter,
        grants: entry.grants as u64,
        silence: match entry.silence {
            Some(silence) => silence.word,
            None => NO_WORD,
        },
    }
}

/// The word of entries of a kind.
fn word_of(kind: Kind) -> EntryWord {
    match kind {
        Kind::Unsolicited => EntryWord::Unsolicited,
        Kind::Activity => EntryWord::Activity,
        Kind::RealTimePoll => EntryWord::RealTimePoll,
        Kind::NonRealTimePoll => EntryWord::NonRealTimePoll,
        Kind::Station => EntryWord::Station,
    }
}

/// What an entry has in one of its intervals.
#[derive(Clone, Copy)]
pub(crate) struct Interval {
    /// The last place among its grants: a silent flow has one poll.
    pub(crate) last_place: u64,
    pub(crate) iuc: u64,
    pub(crate) slots: u64,
    /// The first and the last minislot from round 0 on at which a grant may start.
    pub(crate) first: u64,
    pub(crate) last: u64,
    /// The round in which its window closes.
    pub(crate) closes: u64,
}

impl PlacedEntry {
    /// What it has in this interval.
    pub(crate) fn interval(
        self,
        activities: &Activities,
        lengths: Lengths,
        interval: u64,
    ) -> Interval {
        let round = lengths.round_quarters();
        let minislot = self.minislot.max(1) as u128;
        let first = self.start as u128 + interval as u128 * self.interval as u128;
        let last = first.saturating_add(self.jitter as u128);
        let is_active = activities.is_active(self.silence, first / round);
        let grants = if is_active { self.grants } else { 1 };
        Interval {
            last_place: grants.saturating_sub(1),
            iuc: if is_active { self.iuc } else { REQUEST },
            slots: if is_active {
                self.slots
            } else {
                self.silent_slots
            },
            first: saturated(first.div_ceil(minislot)),
            last: saturated(last / minislot),
            closes: saturated(last / round),
        }
    }

    /// The first interval whose window closes in this round or later.
    pub(crate) fn first_interval(self, lengths: Lengths, round: u64) -> u64 {
        let from = (round as u128).saturating_mul(lengths.round_quarters());
        let late = self.start as u128 + self.jitter as u128;
        let interval = self.interval.max(1) as u128;
        saturated(from.saturating_sub(late).div_ceil(interval))
    }
}

/// The number, or the greatest one that there is.
pub(crate) fn saturated(number: u128) -> u64 {
    u64::try_from(number).unwrap_or(u64::MAX)
}
