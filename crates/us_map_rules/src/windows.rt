ghost use Rattle.std.specs.Prelude.{◌≡◌, ◌+◌, ◌*◌, ◌^◌, ◌<◌, nat_lt, Contains};
ghost use Rattle.us_flows.specs.Tables.{map_len};
ghost use Rattle.us_calendar.specs.Occurrences as calendar;
ghost use Rattle.us_output.specs.declared.rows.Row.TheVariants as rows;
ghost use Rattle.us_lawful.specs.CalendarLines as lawful;
ghost use Rattle.us_map_rules.specs.Naming.{numbers};
ghost use Rattle.us_map_rules.specs.Naming as spec;

use crate::listed::ChannelEntry;
use crate::runs::JudgedRun;
use us_calendar::Entry;
use us_round::{Grant, Row};
use us_slots::QUARTERS_PER_TICK;

/// What begins in so late a round, or so many minislots behind the beginning of one, is behind all windows, which end before
/// 2^50 quarter microseconds; and times of less than this fit into 64 bits.
const LATE: u64 = 1 << 46;

/// An occurrence of an entry that is ideal before the run ends.
#[derive(Clone, Copy)]
pub(crate) struct Occurrence {
    /// Its number, from 0 as they come.
    pub(crate) number: u64,
    /// When it is ideal, in quarter microseconds.
    pub(crate) ideal: u64,
    /// Whether its flow is active then.
    pub(crate) active: bool,
}

/// The round of the run in which a window of an entry closes that begins at a time; `None` where it is still open as the run
/// ends.
pub(crate) fn closing(run: &JudgedRun<'_>, entry: &Entry, ideal: u128) -> Option<u64>
    requires { ideal < 2 ^ 127 }
    ensures { result ≡ spec.closing_from run.now entry.now ideal }
{
    let end = ideal + u128::from(entry.jitter);
    if end >= u128::from(run.end()) {
        return None;
    }
    Some(end as u64 / run.round_quarters())
}

/// Whether a window of an entry closes in the run that begins before that ends.
pub(crate) fn closes(run: &JudgedRun<'_>, entry: &Entry, ideal: u64) -> bool
    requires { ideal < 2 ^ 49 }
    ensures { result ≡ nat_lt (ideal + entry.now.jitter) (run.now.rounds * lawful.round_quarters run.now.tables) }
{
    ideal + u64::from(entry.jitter) < run.end()
}

/// Whether a line is right for an occurrence. A missed one is told on the entry's channel, in the round in which its
/// window closes.
pub(crate) fn is_right(
    run: &JudgedRun<'_>,
    of: &ChannelEntry,
    occurrence: Occurrence,
    row: &Row,
) -> bool
    requires entry { Contains (lawful.channel_entries run.now.tables) of.now }
    requires occurrence { occurrence ≡ spec.occurrence run.now of.now.entry occurrence.number }
    requires before { occurrence.ideal < 2 ^ 49 }
    ensures { result ≡ lawful.is_right_line run.now of.now occurrence.number row.now }
{
    if let Row::Granted(grant) = row {
        return is_right_grant(run, of, occurrence, grant);
    }
    let Row::Missed(missed) = row else {
        return false;
    };
    missed.channel == u64::from(of.channel.id)
        && closing(run, &of.entry, u128::from(occurrence.ideal)) == Some(missed.round)
}

/// Whether a grant is that of an occurrence: it is on the entry's channel, starts in its window, has the SID, the IUC and
/// the minislots of the entry, as a grant or as a poll, and credits nothing.
fn is_right_grant(
    run: &JudgedRun<'_>,
    of: &ChannelEntry,
    occurrence: Occurrence,
    grant: &Grant,
) -> bool
    requires entry { Contains (lawful.channel_entries run.now.tables) of.now }
    requires occurrence { occurrence ≡ spec.occurrence run.now of.now.entry occurrence.number }
    requires before { occurrence.ideal < 2 ^ 49 }
    ensures { result ≡ lawful.is_right_line run.now of.now occurrence.number (rows.Granted grant.now) }
{
    let entry = of.entry;
    let owner = entry.owner_of(occurrence.active);
    grant.channel == u64::from(of.channel.id)
        && starts_within(run, of, occurrence.ideal, grant)
        && grant.sid == u64::from(owner.sid())
        && grant.iuc == u64::from(owner.iuc().number())
        && grant.slots == u64::from(entry.slots_of(occurrence.active))
        && grant.credit == 0
}

/// Whether a grant starts in a window of an entry that begins at a time.
fn starts_within(run: &JudgedRun<'_>, of: &ChannelEntry, ideal: u64, grant: &Grant) -> bool
    requires entry { Contains (lawful.channel_entries run.now.tables) of.now }
    requires before { ideal < 2 ^ 49 }
    ensures { result ≡ spec.starts_from of.now.channel.bursts.time of.now.entry ideal
        (grant.now.round * map_len run.now.tables of.now.channel + grant.now.start) }
{
    let quarters = run.round_quarters();
    let last = ideal + u64::from(of.entry.jitter);
    if grant.round >= LATE || grant.start >= LATE {
        return false;
    }
    let ticks = u64::from(of.channel.bursts.time().minislot_ticks());
    let start = grant.round * quarters + QUARTERS_PER_TICK * (grant.start * ticks);
    ideal <= start && start <= last
}

/// When an occurrence of an entry is ideal, in quarter microseconds.
pub(crate) fn ideal(entry: &Entry, number: u128) -> u128
    requires { number < numbers }
    ensures value { result ≡ calendar.ideal entry.now number }
    ensures few { result < 2 ^ 127 }
{
    let interval = number / u128::from(entry.grants);
    u128::from(entry.start) + interval * u128::from(entry.interval)
}
