ghost use Rattle.std.specs.Prelude.{◌≡◌, ◌+◌, ◌^◌, ◌<◌, true, option_map, Contains, IfSome};
ghost use Rattle.us_lawful.specs.CalendarLines.{channel_entries};
ghost use Rattle.us_map_rules.specs.Listed.{is_called};
ghost use Rattle.us_map_rules.specs.Naming as spec;

use crate::listed::ChannelEntry;
use crate::runs::JudgedRun;
use crate::windows::Occurrence;
use us_reports::Place;
use us_round::{EntryWord, Row};

/// A line of a calendar, and what it names.
#[derive(Clone, Copy)]
pub(crate) struct CalendarLine {
    /// Its round and channel, and the id of its entry.
    pub(crate) at: Place,
    /// The word of its entry.
    pub(crate) entry: EntryWord,
    /// The number of the interval.
    pub(crate) i: u64,
    /// The place among the grants of the interval.
    pub(crate) k: u64,
}

/// A line of a calendar; `None` for other lines.
pub(crate) fn calendar_line(row: &Row) -> Option<CalendarLine>
    ensures { result ≡ spec.calendar_line row.now }
{
    match row {
        Row::Granted(grant) if grant.entry != EntryWord::Requested => Some(CalendarLine {
            at: Place {
                round: grant.round,
                channel: grant.channel,
                third: grant.id,
            },
            entry: grant.entry,
            i: grant.i,
            k: grant.k,
        }),
        Row::Missed(missed) => Some(CalendarLine {
            at: Place {
                round: missed.round,
                channel: missed.channel,
                third: missed.id,
            },
            entry: missed.entry,
            i: missed.i,
            k: missed.k,
        }),
        _ => None,
    }
}

/// Where a line of a calendar is; `None` for other lines.
pub(crate) fn calendar_place(row: &Row) -> Option<Place>
    ensures { result ≡ spec.calendar_place row.now }
{
    let line = calendar_line(row)?;
    Some(line.at)
}

/// The occurrence that a line names of the entry that it calls; `None` where it isn't there. It begins before the run ends,
/// and of an interval all come while the flow is active, and the first alone while it is silent.
pub(crate) fn occurrence_told(
    run: &JudgedRun<'_>,
    of: &ChannelEntry,
    line: CalendarLine,
) -> Option<Occurrence>
    requires entry { Contains (channel_entries run.now.tables) of.now }
    requires called { is_called line.entry line.at.third of.now ≡ true }
    ensures value { result ≡ option_map (spec.occurrence run.now of.now.entry) (spec.number_told run.now of.now line) }
    ensures few { IfSome result (λ occurrence. occurrence.number + 1 < 2 ^ 64) }
    ensures before { IfSome result (λ occurrence. occurrence.ideal < 2 ^ 49) }
{
    let entry = of.entry;
    let grants = u64::from(entry.grants);
    let ideal = u128::from(entry.start) + u128::from(line.i) * u128::from(entry.interval);
    if line.k >= grants || ideal >= u128::from(run.end()) {
        return None;
    }
    let active = run.speaks_in(of, ideal);
    if line.k > 0 && !active {
        return None;
    }
    Some(Occurrence {
        number: line.i * grants + line.k,
        ideal: ideal as u64,
        active,
    })
}
