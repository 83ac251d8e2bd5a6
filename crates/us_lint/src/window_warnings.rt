ghost use Rattle.us_flows.specs.Lawful.{IsChannel};

use crate::empty_maps::EmptyMaps;
use crate::hopeless_windows::{ClosedWindows, HopelessWindows, Lack, MAX_WINDOWS, closed_windows};
use crate::names::TableId;
use crate::parts::{Noun, Part, Text};
use crate::runs::Run;
use crate::warnings::{Key, Subject, Tally, Warnings};
use std::alloc::AllocError;
use us_calendar::{Entry, Kind};
use us_flows::{Channel, Config, TableName};

/// An entry that has windows which no schedule could grant.
#[derive(Clone, Copy)]
pub(crate) struct HopelessEntry {
    /// Its flow or its station.
    table: TableId,
    /// The minislots of a grant.
    slots: u32,
    /// Whether its flow has polls in place of grants while it is silent.
    may_be_silent: bool,
    windows: ClosedWindows,
}

/// Adds those of the calendar of a channel.
pub(crate) fn add_hopeless(
    hopeless: &mut Vec<HopelessEntry>,
    config: &Config,
    channel: &Channel,
    entries: &[Entry],
    run: &Run,
) -> Result<(), AllocError>
    requires { IsChannel config.now channel.now }
{
    let maps = EmptyMaps::of(config, channel);
    for entry in entries {
        let windows = closed_windows(entry, channel.bursts.time(), &maps, run.quarters());
        if !windows.all_have_hope() {
            hopeless.push(HopelessEntry {
                table: table_of(config, entry),
                slots: entry.slots_of(true),
                may_be_silent: entry.silence.is_some(),
                windows,
            })?;
        }
    }
    Ok(())
}

/// The flow or the station of an entry.
fn table_of(config: &Config, entry: &Entry) -> TableId {
    match entry.kind {
        Kind::Station => TableId::of_station(config, entry.id),
        _ => TableId::of_flow(config, entry.id),
    }
}

/// The kinds of these warnings: the list of the entries' tables, what their windows lack, and what is counted.
static KINDS: [(TableName, Lack, Noun); 4] = [
    (TableName::Flow, Lack::Minislot, Noun::FlowWithoutMinislot),
    (TableName::Flow, Lack::Room, Noun::FlowWithoutRoom),
    (
        TableName::Station,
        Lack::Minislot,
        Noun::StationWithoutMinislot,
    ),
    (TableName::Station, Lack::Room, Noun::StationWithoutRoom),
];

/// Warns of entries that have windows which no schedule could grant. The tables of a list stand in the order of their lines.
pub(crate) fn push_windows(warnings: &mut Warnings, hopeless: &mut [HopelessEntry], run: &Run) {
    hopeless.sort_unstable_by_key(|entry| entry.table.place.index);
    for (list, lack, noun) in &KINDS {
        push_lacking(warnings, hopeless, *list, *lack, *noun, run);
    }
}

/// The same of one kind.
fn push_lacking(
    warnings: &mut Warnings,
    hopeless: &[HopelessEntry],
    list: TableName,
    lack: Lack,
    noun: Noun,
    run: &Run,
) {
    let mut tally = Tally::new();
    for entry in hopeless {
        let windows = entry.windows.hopeless(lack);
        let is_of = (entry.table.place.table == list) & (windows.count > 0);
        if is_of && tally.add(entry.subject()) {
            entry.push(warnings, lack, windows, run);
        }
    }
    warnings.add_others(&tally, noun);
}

/// What is said of an entry with windows in which no minislot begins,
const NO_MINISLOT: &str =
    "#, jitter_us:## no minislot begins in # of ## closed by round #; the first of them, of interval #, \
    counted from 0, closes in round #; another start_us or a greater jitter_us is wanted";

/// and of one with windows that have no room for its grants.
const NO_ROOM: &str =
    "#, jitter_us: whatever the schedule, there is no room for its grants of ## beside the reserves in # of \
    ## closed by round #; the first of them, of interval #, counted from 0, closes in round #; another start_us, a greater \
    jitter_us or smaller reserves are wanted";

impl HopelessEntry {
    /// The key that is to be mended.
    fn subject(&self) -> Subject {
        Subject::Key(self.table.place, Key::JitterUs)
    }

    /// That no schedule could grant some of its windows, for this reason.
    fn push(&self, warnings: &mut Warnings, lack: Lack, windows: HopelessWindows, run: &Run) {
        let closed = self.windows.count;
        let round = windows.first_end / run.round_quarters();
        // How long grants are, and when there are any, has to do with room alone.
        let (words, grants, activity) = match lack {
            Lack::Minislot => (
                NO_MINISLOT,
                Part::Text(Text::Nothing),
                Part::Text(Text::Nothing),
            ),
            Lack::Room => (
                NO_ROOM,
                Part::Counted(self.slots as u64, Noun::Minislot),
                when(self.may_be_silent, Text::WhileActive),
            ),
        };
        warnings.add(
            self.subject(),
            words,
            &[
                Part::Table(self.table),
                grants,
                activity,
                Part::Number(windows.count as u64),
                when(closed == MAX_WINDOWS, Text::First),
                Part::Counted(closed as u64, Noun::Window),
                Part::Number(run.last_round() as u64),
                Part::Number(windows.first_interval as u64),
                Part::Number(round as u64),
            ],
        );
    }
}

/// These words, if they are wanted.
fn when(is_wanted: bool, words: Text) -> Part {
    Part::Text(if is_wanted { words } else { Text::Nothing })
}
