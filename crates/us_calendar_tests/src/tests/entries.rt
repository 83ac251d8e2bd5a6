ghost use Rattle.std.specs.Prelude.{◌<◌, ◌≤◌};

use super::plain::Plain;
use us_calendar::Kind;

/// An entry of which nothing is settled: every so many microseconds, with so much jitter.
fn unsettled(kind: Kind, id: u16, start: u64, every: (u64, u64), grants: u64, slots: u64) -> Plain {
    Plain {
        kind,
        id,
        start,
        interval: every.0,
        jitter: every.1,
        grants,
        slots,
        word: 0,
        settled: [0; 64],
    }
}

/// Numbers the words of flows in table order: one of a flow that is polled for its requests, two where activity is detected.
fn number_words(entries: &mut [Plain]) {
    let mut word = 0u64;
    for entry in entries.iter_mut() {
        entry.word = word;
        word = word.saturating_add(match entry.kind {
            Kind::Activity => 2,
            Kind::RealTimePoll | Kind::NonRealTimePoll => 1,
            Kind::Unsolicited | Kind::Station => 0,
        });
    }
}

/// No jitter; as much as there may be; a start behind the last round; two entries with one window and room for one; polls
/// of both types at one time; and stations, the later one first.
pub(super) fn chosen_entries() -> [Plain; 10] {
    let mut entries = [
        unsettled(Kind::Unsolicited, 9, 0, (3_000, 0), 2, 30),
        unsettled(Kind::Unsolicited, 8, 1_990, (3_000, 2_999), 3, 60),
        unsettled(Kind::Unsolicited, 7, 10_000, (1_000, 10), 1, 1),
        unsettled(Kind::Unsolicited, 6, 4_000, (100_000, 1_000), 1, 140),
        unsettled(Kind::Unsolicited, 5, 4_000, (100_000, 1_000), 1, 140),
        unsettled(Kind::Activity, 4, 0, (1_000, 999), 2, 20),
        unsettled(Kind::NonRealTimePoll, 1, 500, (2_000, 100), 1, 2),
        unsettled(Kind::RealTimePoll, 2, 500, (2_000, 100), 1, 2),
        unsettled(Kind::Station, 4, 500, (2_000, 700), 1, 4),
        unsettled(Kind::Station, 3, 500, (2_000, 700), 1, 4),
    ];
    number_words(&mut entries);
    entries
}

/// The chosen entries, each due again 5,000 rounds later.
pub(super) fn rare_entries() -> [Plain; 10] {
    let mut entries = chosen_entries();
    for entry in entries.iter_mut() {
        entry.interval = 10_000_000;
    }
    entries
}

/// The next number below a limit, of a fixed row of numbers that look random.
fn next(seed: &mut u64, below: u64) -> u64
    requires { 0 < below }
    ensures { result < below }
{
    *seed = seed.wrapping_mul(1_664_525).wrapping_add(1_013_904_223) % 4_294_967_296;
    (*seed >> 16) % below
}

/// A random kind, and the minislots that it has where these aren't random too.
fn random_kind(seed: &mut u64) -> (Kind, u64) {
    match next(seed, 6) {
        0 => (Kind::RealTimePoll, 2),
        1 => (Kind::NonRealTimePoll, 2),
        2 => (Kind::Station, 4),
        3 => (Kind::Activity, 0),
        _ => (Kind::Unsolicited, 0),
    }
}

/// A random entry with this id.
fn random_entry(seed: &mut u64, id: u16) -> Plain {
    let interval = 1_000 + next(seed, 4_000);
    let jitter = match next(seed, 4) {
        0 => 0,
        1 => interval - 1,
        _ => next(seed, interval),
    };
    let start = next(seed, 6_000);
    let (slots, grants) = (1 + next(seed, 50), 1 + next(seed, 4));
    match random_kind(seed) {
        (kind, 0) => unsettled(kind, id, start, (interval, jitter), grants, slots),
        (kind, slots) => unsettled(kind, id, start, (interval, jitter), 1, slots),
    }
}

/// Random entries, the last id first.
pub(super) fn random_entries(seed: &mut u64) -> [Plain; 10] {
    let mut entries = [unsettled(Kind::Station, 0, 0, (1_000, 0), 1, 4); 10];
    for (i, entry) in entries.iter_mut().enumerate() {
        *entry = random_entry(seed, 10 - i as u16);
    }
    number_words(&mut entries);
    entries
}

/// Less rounds than these are in an interval.
fn most_rounds(seed: &mut u64) -> u64
    ensures some { 0 < result }
    ensures few { result ≤ 5_000 }
{
    match next(seed, 4) {
        0 => 3,
        1 => 70,
        2 => 700,
        _ => 5_000,
    }
}

/// The same entry with an interval of 1 to 5,000 rounds.
fn far_entry(seed: &mut u64, entry: Plain) -> Plain {
    let most = most_rounds(seed);
    let interval = 2_000 * (1 + next(seed, most)) - next(seed, 2_000);
    Plain {
        interval,
        jitter: entry.jitter % interval,
        start: next(seed, interval),
        ..entry
    }
}

/// Random entries of which some have long intervals.
pub(super) fn far_entries(seed: &mut u64) -> [Plain; 10] {
    let mut entries = random_entries(seed);
    for entry in entries.iter_mut() {
        *entry = far_entry(seed, *entry);
    }
    number_words(&mut entries);
    entries
}
