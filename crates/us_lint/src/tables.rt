ghost use Rattle.us_flows.specs.Lawful.{IsChannel};

use crate::loads::{Load, MAX_ASSIGNMENTS};
use crate::names::TableId;
use crate::parts::{Noun, Part};
use crate::runs::Run;
use crate::warnings::{Key, Subject, TOP, Tally, Warnings};
use crate::window_warnings::{HopelessEntry, add_hopeless, push_windows};
use us_calendar::{Entry, entries_of};
use us_flows::{Channel, Config, TableName};

impl Warnings {
    /// Adds what looks wrong in the tables of a configuration, for a run of so many rounds; for the longest run where none
    /// has so many. Want of memory is told by [`Warnings::located`].
    pub fn add_tables(&mut self, config: &Config, rounds: u32) {
        let run = Run::new(config, rounds);
        push_lead(self, config, &run);
        push_calendars(self, config, &run);
    }
}

/// That no row of a trace is in time, since the run ends before the lead does.
fn push_lead(warnings: &mut Warnings, config: &Config, run: &Run) {
    let first = config.lead_ticks().div_ceil(run.round_ticks);
    if (first < run.rounds) | (config.clusters() == 0) {
        return;
    }
    let (first, last) = (first as u64, run.last_round() as u64);
    warnings.add(
        Subject::Key(TOP, Key::LeadTicks),
        "lead_ticks: a row at tick 0 belongs to round #, and the run ends with round #, so all rows are late; \
        a smaller lead or --rounds # is wanted",
        &[
            Part::Number(first),
            Part::Number(last),
            Part::Number(first.saturating_add(1)),
        ],
    );
}

/// What looks wrong in the calendars of all channels.
fn push_calendars(warnings: &mut Warnings, config: &Config, run: &Run) {
    let mut seen = SeenCalendars {
        too_much: Tally::new(),
        hopeless: Vec::new(warnings.alloc),
    };
    for (index, channel) in config.channels().iter().enumerate() {
        match entries_of(warnings.alloc, config, channel) {
            Ok(entries) => seen.add(warnings, config, index, channel, &entries, run),
            Err(_) => warnings.lacks_memory = true,
        }
    }
    warnings.add_others(&seen.too_much, Noun::BusyChannel);
    push_windows(warnings, &mut seen.hopeless, run);
}

/// What was seen in the calendars of some channels.
#[derive(Drop)]
struct SeenCalendars {
    /// The channels whose calendars ask for too much.
    too_much: Tally,
    hopeless: Vec<HopelessEntry>,
}

impl SeenCalendars {
    /// One more channel, at this index of the table, with these entries of its calendar.
    fn add(
        &mut self,
        warnings: &mut Warnings,
        config: &Config,
        index: usize,
        channel: &Channel,
        entries: &[Entry],
        run: &Run,
    )
        requires { IsChannel config.now channel.now }
    {
        let table = TableId::new(TableName::Channel, index, channel.id as u16);
        let load = Load::of(entries, run);
        if load.is_too_much() {
            push_load(warnings, &mut self.too_much, table, &load, run);
        }
        let hopeless = &mut self.hopeless;
        warnings.lacks_memory |= add_hopeless(hopeless, config, channel, entries, run).is_err();
    }
}

/// That a calendar asks for more assignments than MAPs have.
fn push_load(warnings: &mut Warnings, tally: &mut Tally, channel: TableId, load: &Load, run: &Run) {
    let subject = Subject::Key(channel.place, Key::Table);
    if !tally.add(subject) {
        return;
    }
    warnings.add(
        subject,
        "#: its calendar asks for up to # assignments in a MAP on average, once all have begun and none is silent; \
        # have room; the report of rounds up to # has at most # of it, # bytes",
        &[
            Part::Table(channel),
            Part::Number(load.assignments()),
            Part::Number(MAX_ASSIGNMENTS),
            Part::Number(run.last_round() as u64),
            Part::Counted(load.lines, Noun::Line),
            Part::Number(load.bytes()),
        ],
    );
}
