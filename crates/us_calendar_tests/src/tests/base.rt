ghost use Rattle.std.specs.Prelude.{◌≡◌, IfSome, OnOk};

use super::plain::{Plain, Round, is_active, is_as_plain, mark};
use super::tables::config_of;
use std::alloc::Global;
use std::process::Abort;
use us_calendar::{Calendar, Kind, Settled};
use us_flows::Config;
use us_holes::{Board, Owner};
use us_slots::{Iuc, NoMemory};

/// The one assertion of these tests, since each costs the proof of the function that it stands in.
pub(super) fn same(rt: &impl Abort, found: u64, wanted: u64) {
    assert_eq!(rt; found, wanted);
}

/// How many of so many rounds a calendar of these entries settles as the plain program does, with the marks of a seed: up to
/// the first one in which they differ. `None` where memory is refused, or the tables are.
pub(super) fn rounds_alike(
    alloc: Global,
    entries: &mut [Plain],
    seed: u64,
    rounds: u64,
) -> Option<u64> {
    match opened(alloc, entries) {
        Some(mut calendar) => rounds_of(alloc, &mut calendar, entries, seed, rounds),
        None => None,
    }
}

/// The same of a calendar before round 0.
fn rounds_of(
    alloc: Global,
    calendar: &mut Calendar,
    entries: &mut [Plain],
    seed: u64,
    rounds: u64,
) -> Option<u64>
    requires { calendar.old.pace.len ≡ 160 }
{
    for round in 0..rounds {
        if !is_alike(alloc, calendar, entries, seed)? {
            return Some(round);
        }
    }
    Some(rounds)
}

/// How many of so many rounds a calendar of these entries settles, none of them marked: up to the first that it doesn't.
pub(super) fn rounds_settled(alloc: Global, entries: &[Plain], rounds: u64) -> u64 {
    match opened(alloc, entries) {
        Some(mut calendar) => settled_of(alloc, &mut calendar, rounds),
        None => 0,
    }
}

/// The same of a calendar before round 0.
fn settled_of(alloc: Global, calendar: &mut Calendar, rounds: u64) -> u64
    requires { calendar.old.pace.len ≡ 160 }
{
    for round in 0..rounds {
        if settled_next(alloc, calendar, &[0; 20]).is_err() {
            return round;
        }
    }
    rounds
}

/// The calendar of these entries.
fn opened(alloc: Global, entries: &[Plain]) -> Option<Calendar>
    ensures { IfSome result (λ calendar. calendar.pace.len ≡ 160) }
{
    match config_of(alloc, entries) {
        Ok(config) => calendar_of(alloc, &config),
        Err(_) => None,
    }
}

/// The calendar of the first channel, if its MAPs have 160 minislots.
fn calendar_of(alloc: Global, config: &Config) -> Option<Calendar>
    ensures { IfSome result (λ calendar. calendar.pace.len ≡ 160) }
{
    if config.channels().is_empty() || config.map_len(&config.channels()[0]) != 160 {
        return None;
    }
    Calendar::new(alloc, config, 0).ok()
}

/// Whether the next round of a calendar is as the plain program's, and flows are active and silent as there.
fn is_alike(
    alloc: Global,
    calendar: &mut Calendar,
    entries: &mut [Plain],
    seed: u64,
) -> Option<bool>
    requires { calendar.old.pace.len ≡ 160 }
    ensures { IfSome result (λ _. calendar.new.pace.len ≡ 160) }
{
    let number = u64::from(calendar.next_round());
    match settled_next(alloc, calendar, &cut_of(seed, number)) {
        Ok(settled) => Some(is_told(calendar, entries, seed, number, &settled)),
        Err(_) => None,
    }
}

/// Whether a calendar that settled this in a round is as the plain program.
fn is_told(
    calendar: &Calendar,
    entries: &mut [Plain],
    seed: u64,
    number: u64,
    settled: &[Settled],
) -> bool {
    let round = Round {
        number,
        seed,
        settled,
    };
    are_active(calendar, entries, round) && is_as_plain(entries, round)
}

/// Whether the flows of which activity is detected are active and silent as the plain program says.
fn are_active(calendar: &Calendar, entries: &[Plain], round: Round) -> bool {
    for entry in entries {
        if entry.kind == Kind::Activity
            && calendar.activity(entry.id) != Some(is_active(entry, round.seed, round.number))
        {
            return false;
        }
    }
    true
}

/// The cut of a round: of more words than there are.
fn cut_of(seed: u64, round: u64) -> [u64; 20] {
    let mut cut = [0; 20];
    for (word, bytes) in cut.iter_mut().enumerate() {
        *bytes = mark(seed, round, word as u64);
    }
    cut
}

/// What the next round settles, with this cut. The last 10 minislots are for contention. A round that might end too late for
/// a run, of 2^26 ticks, isn't made, and is answered as want of memory: a MAP has 4,096 ticks at most.
#[tactic(auto, using(us_calendar::proofs::RunTimes::run_facts))]
fn settled_next(
    alloc: Global,
    calendar: &mut Calendar,
    cut: &[u64],
) -> Result<Vec<Settled>, NoMemory>
    requires { calendar.old.pace.len ≡ 160 }
    ensures { OnOk result (calendar.new.pace ≡ calendar.old.pace) }
{
    let round = calendar.next_round();
    let mut board = Board::new(alloc, 160)?;
    board.place_earliest(150, 150, 10, Owner::new(16_383, Iuc::request()));
    if round >= 16_384 {
        return Err(NoMemory);
    }
    calendar.run(alloc, round, cut, &mut board)
}
