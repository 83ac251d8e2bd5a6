use us_calendar::{Kind, Settled};

/// The minislots of a poll.
const POLL: u64 = 2;

/// The minislots of a MAP, of 50 quarter microseconds: the id of the entry that has each, and 0 where it is idle.
type Cells = [u16; 160];

/// What is told of an occurrence: the kind as a number, the id, the interval and the place in it; then the first minislot,
/// how many there are and their IUC, or zeros where it was missed.
type Told = [u64; 7];

/// An entry in the words of the tables, times in microseconds.
#[derive(Clone, Copy)]
pub(super) struct Plain {
    pub(super) kind: Kind,
    pub(super) id: u16,
    pub(super) start: u64,
    pub(super) interval: u64,
    pub(super) jitter: u64,
    pub(super) grants: u64,
    pub(super) slots: u64,
    /// The number of its flow's first word.
    pub(super) word: u64,
    /// The occurrences of which some are settled, 64 in a row: of each that is, its number and 1.
    pub(super) settled: [u64; 64],
}

/// A round, the seed of the marks, and what a calendar settled in it.
#[derive(Clone, Copy)]
pub(super) struct Round<'a> {
    pub(super) number: u64,
    pub(super) seed: u64,
    pub(super) settled: &'a [Settled],
}

/// What is cut of a word in a round, for marks that look random and are another row for each seed.
pub(super) fn mark(seed: u64, round: u64, word: u64) -> u64 {
    let mixed = seed
        .wrapping_mul(31)
        .wrapping_add(round)
        .wrapping_mul(31)
        .wrapping_add(word)
        .wrapping_mul(2_654_435_761);
    u64::from((mixed >> 16) % 4 == 0)
}

/// Whether a flow is active in a round, by its last mark up to it.
pub(super) fn is_active(entry: &Plain, seed: u64, at: u64) -> bool {
    if entry.kind != Kind::Activity {
        return true;
    }
    for before in 0..at.saturating_add(1) {
        if mark(seed, at - before, entry.word.saturating_add(1)) > 0 {
            return true;
        }
        if mark(seed, at - before, entry.word) > 0 {
            return false;
        }
    }
    true
}

/// Kinds in the order of their turns.
fn number_of(kind: Kind) -> u64 {
    match kind {
        Kind::Unsolicited => 0,
        Kind::Activity => 1,
        Kind::RealTimePoll => 2,
        Kind::NonRealTimePoll => 3,
        Kind::Station => 4,
    }
}

/// The IUC of what an entry is granted.
fn iuc_of(kind: Kind, active: bool) -> u64 {
    match kind {
        Kind::Station => 4,
        Kind::RealTimePoll | Kind::NonRealTimePoll => 1,
        _ => { if active { 11 } else { 1 } }
    }
}

/// What a calendar tells.
fn told_of(one: &Settled) -> Told {
    match one {
        Settled::Granted {
            kind,
            id,
            i,
            k,
            start,
            slots,
            owner,
        } => [
            number_of(*kind),
            u64::from(*id),
            u64::from(*i),
            u64::from(*k),
            u64::from(*start),
            u64::from(*slots),
            u64::from(owner.iuc().number()),
        ],
        Settled::Missed { kind, id, i, k } => [
            number_of(*kind),
            u64::from(*id),
            u64::from(*i),
            u64::from(*k),
            0,
            0,
            0,
        ],
    }
}

/// How many idle minislots there are from `start` on.
fn idle_from(cells: &Cells, start: usize) -> u64 {
    let mut count = 0u64;
    for i in start..160 {
        if cells[i] != 0 {
            return count;
        }
        count = count.saturating_add(1);
    }
    count
}

/// The first minislot that begins in a window, its two ends included, and has so many idle ones from it on.
fn plain_start(cells: &Cells, begin: u64, window: (u64, u64), slots: u64) -> Option<u64> {
    for start in 0..160usize {
        let at = begin.saturating_add(50 * start as u64);
        if window.0 <= at && at <= window.1 && idle_from(cells, start) >= slots {
            return Some(start as u64);
        }
    }
    None
}

/// Gives minislots to an entry.
fn write(cells: &mut Cells, start: u64, slots: u64, id: u16) {
    for (i, cell) in cells.iter_mut().enumerate() {
        if i as u64 >= start && i as u64 - start < slots {
            *cell = id;
        }
    }
}

/// The interval of an occurrence, and its place there.
fn spot_of(entry: &Plain, number: u64) -> (u64, u64) {
    let grants = entry.grants.max(1);
    (number / grants, number % grants)
}

/// When an interval begins, and the last moment of its window, in quarter microseconds.
fn window_of(entry: &Plain, i: u64) -> (u64, u64) {
    let us = entry.start.saturating_add(i.saturating_mul(entry.interval));
    (
        us.saturating_mul(4),
        us.saturating_add(entry.jitter).saturating_mul(4),
    )
}

/// Settles an occurrence that isn't settled yet, if it can be, and tells it then. Of an interval that begins while its flow
/// is silent only the first one comes.
fn settle(entry: &Plain, number: u64, round: Round, cells: &mut Cells) -> Option<Told> {
    let begin = round.number.saturating_mul(8_000);
    let end = begin.saturating_add(8_000);
    let (i, k) = spot_of(entry, number);
    let window = window_of(entry, i);
    if window.0 >= end {
        return None;
    }
    let active = is_active(entry, round.seed, window.0 / 8_000);
    if !active && k > 0 {
        return None;
    }
    let (kind, id) = (number_of(entry.kind), u64::from(entry.id));
    let slots = if active { entry.slots } else { POLL };
    match plain_start(cells, begin, window, slots) {
        Some(start) => {
            write(cells, start, slots, entry.id);
            Some([kind, id, i, k, start, slots, iuc_of(entry.kind, active)])
        }
        None if window.1 >= end => None,
        None => Some([kind, id, i, k, 0, 0, 0]),
    }
}

/// How many of what a calendar settled are the same, with one more that the plain program tells: more than there are once
/// the two differ.
fn one_more(settled: &[Settled], same: usize, told: Told) -> usize {
    match settled.get(same) {
        Some(one) if told_of(one) == told => same.saturating_add(1),
        _ => usize::MAX,
    }
}

/// The interval of an entry that begins last before a moment, both in microseconds, or its first one.
fn interval_at(entry: &Plain, us: u64) -> u64 {
    us.saturating_sub(entry.start) / entry.interval.max(1)
}

/// Goes over the occurrences of an entry that begin before a round ends, but for those whose windows end before it begins.
fn turn_of(entry: &mut Plain, round: Round, cells: &mut Cells, same: &mut usize) {
    let begin = round.number.saturating_mul(2_000);
    let first = interval_at(entry, begin.saturating_sub(entry.jitter));
    let last = interval_at(entry, begin.saturating_add(2_000)).saturating_add(1);
    for number in first.saturating_mul(entry.grants)..last.saturating_mul(entry.grants) {
        let noted = (number % 64) as usize;
        if entry.settled[noted] != number + 1 {
            if let Some(told) = settle(entry, number, round, cells) {
                entry.settled[noted] = number + 1;
                *same = one_more(round.settled, *same, told);
            }
        }
    }
}

/// Goes over the entries of a kind and an id.
fn turns_of(
    entries: &mut [Plain],
    turn: (u64, u64),
    round: Round,
    cells: &mut Cells,
    same: &mut usize,
) {
    for entry in entries.iter_mut() {
        if number_of(entry.kind) == turn.0 && u64::from(entry.id) == turn.1 {
            turn_of(entry, round, cells, same);
        }
    }
}

/// Whether the plain program settles in a round what a calendar did: kinds in their order, and each kind by id, of which
/// none is over 10. The last 10 minislots are for contention.
pub(super) fn is_as_plain(entries: &mut [Plain], round: Round) -> bool {
    let mut cells = [0; 160];
    let mut same = 0;
    write(&mut cells, 150, 10, 16_383);
    for turn in 0..55u64 {
        turns_of(
            entries,
            (turn / 11, turn % 11),
            round,
            &mut cells,
            &mut same,
        );
    }
    same == round.settled.len()
}
