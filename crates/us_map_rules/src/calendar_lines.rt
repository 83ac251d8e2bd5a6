ghost use Rattle.std.specs.Prelude.{◌≡◌, ◌≢◌, ◌++◌, ◌∷◌, [], true, List, length, None, IfOk, OnOk, if◌then◌else◌};
ghost use Rattle.us_output.specs.declared.rows.Row.{Row as ReportRow};
ghost use Rattle.us_lawful.specs.Runs.{run_in, Judged};
ghost use Rattle.us_lawful.specs.CalendarLines.{calendar_lines_hold};
ghost use Rattle.us_reports.specs.Breaches.{Any, IsFirstBreach, IsFirstFailure};
ghost use Rattle.us_map_rules.specs.Listed.{AreListed};
ghost use Rattle.us_map_rules.specs.Failures.{LineFails};
ghost use Rattle.us_map_rules.specs.Naming.{calendar_line, calendar_place};
ghost use Rattle.us_map_rules.specs.Told as spec;

use crate::listed::{ChannelEntry, Listed};
use crate::naming::{calendar_line, calendar_place};
use crate::runs::JudgedRun;
use crate::told::ToldEntry;
use std::alloc::{AllocError, Global};
use std::marker::Model;
use us_flows::Config;
use us_reports::{Place, earlier};
use us_requests::Trace;
use us_round::Row;
use us_slots::NoMemory;

/// What lines tell of the entries of all calendars, and the first place with one that isn't right by itself.
pub struct CalendarLines<'a> {
    run: JudgedRun<'a>,
    listed: Listed,
    told: Vec<ToldEntry>,
    first: Option<Place>,
}

/// Gives it up. It is written out so that it is one step wherever it ends.
impl Drop for CalendarLines<'_> {
    fn drop(self) {
        let CalendarLines {
            run: _,
            listed: _,
            told: _,
            first: _,
        } = self;
    }
}

impl<'a> Model for CalendarLines<'a> {
    ghost Value = { spec.CalendarLines };

    ghost view = { λ c. record {
      run = c.run;
      entries = c.listed;
      told = c.told.items;
      first = c.first;
    } };

    ghost invariant = { λ c. AreListed c.run.tables c.listed × (length c.told.items ≡ length c.listed) };
}

impl<'a> CalendarLines<'a> {
    /// What no line tells.
    pub fn new(
        alloc: Global,
        config: &'a Config,
        trace: &'a Trace,
    ) -> Result<CalendarLines<'a>, NoMemory>
        ensures run { IfOk result (λ c. c.run ≡ run_in config.now trace.now) }
        ensures told { IfOk result (spec.AreTold []) }
    {
        let run = JudgedRun::of(alloc, config, trace)?;
        let listed = Listed::of(alloc, config)?;
        let mut told = Vec::new(alloc);
        for _ in 0..listed.entries().len() {
            told.push(ToldEntry::new(alloc))?;
        }
        Ok(CalendarLines {
            run,
            listed,
            told,
            first: None,
        })
    }

    /// A line more. After an error it isn't known what is told.
    #[inline(always)]
    pub fn take(&mut self, row: &Row) -> Result<(), NoMemory>
        ensures run { self.new.run ≡ self.old.run }
        ensures told { OnOk result ((lines : List ReportRow) → spec.AreTold lines self.old →
            spec.AreTold (lines ++ row.now ∷ []) self.new) }
    {
        let right = take_line(&self.run, &self.listed, &mut self.told, row)?;
        if right {
            return Ok(());
        }
        self.first = earlier(self.run.channels(), self.first, calendar_place(row));
        Ok(())
    }

    /// The first place at which the rule of calendars' lines doesn't hold; `None` where it holds everywhere. After it nothing is
    /// known of what is told.
    pub fn breach(&mut self) -> Option<Place>
        ensures { (judged : Judged) → spec.AreTold judged.lines self.old →
            IsFirstBreach self.old.run.tables.channels (λ p. calendar_lines_hold self.old.run judged p ≡ true) result }
    {
        let others = entries_breach(&self.run, self.listed.entries(), &mut self.told);
        earlier(self.run.channels(), self.first, others)
    }
}

/// A line more. Whether it is right by itself. Most lines of many reports are of requests, and
/// these go no further.
#[inline(always)]
fn take_line(
    run: &JudgedRun<'_>,
    listed: &Listed,
    told: &mut Vec<ToldEntry>,
    row: &Row,
) -> Result<bool, AllocError>
    requires listed { AreListed run.now.tables listed.now }
    requires long { length told.old.items ≡ length listed.now }
    ensures long { length told.new.items ≡ length listed.now }
    ensures told { OnOk result ((lines : List ReportRow) → spec.AreToldOf run.now lines listed.now told.old.items →
        spec.AreToldOf run.now (lines ++ row.now ∷ []) listed.now told.new.items) }
    ensures first { IfOk result (λ right. IsFirstFailure run.now.tables.channels (LineFails run.now listed.now row.now)
        (if right then None else calendar_place row.now)) }
{
    match calendar_line(row) {
        Some(_) => take_calendar_line(run, listed, told, row),
        None => Ok(true),
    }
}

/// The same of a line of a calendar. What it names is asked for anew: that takes fewer steps than handing it on.
#[inline(never)]
fn take_calendar_line(
    run: &JudgedRun<'_>,
    listed: &Listed,
    told: &mut Vec<ToldEntry>,
    row: &Row,
) -> Result<bool, AllocError>
    requires listed { AreListed run.now.tables listed.now }
    requires long { length told.old.items ≡ length listed.now }
    requires line { calendar_line row.now ≢ None }
    ensures long { length told.new.items ≡ length listed.now }
    ensures told { OnOk result ((lines : List ReportRow) → spec.AreToldOf run.now lines listed.now told.old.items →
        spec.AreToldOf run.now (lines ++ row.now ∷ []) listed.now told.new.items) }
    ensures first { IfOk result (λ right. IsFirstFailure run.now.tables.channels (LineFails run.now listed.now row.now)
        (if right then None else calendar_place row.now)) }
{
    let Some(line) = calendar_line(row) else {
        unreachable!()
    };
    let Some(place) = listed.called(line.entry, line.at.third) else {
        return Ok(false);
    };
    let right = told[place].take(run, &listed.entries()[place], line, row)?;
    Ok(right)
}

/// The first place at which an entry's occurrences fail.
fn entries_breach(
    run: &JudgedRun<'_>,
    entries: &[ChannelEntry],
    told: &mut Vec<ToldEntry>,
) -> Option<Place>
    requires listed { AreListed run.now.tables entries.now }
    requires long { length told.old.items ≡ length entries.now }
    ensures long { length told.new.items ≡ length entries.now }
    ensures first { (lines : List ReportRow) → spec.AreToldOf run.now lines entries.now told.old.items →
        IsFirstFailure run.now.tables.channels (Any (spec.OccurrencesFail run.now lines) entries.now) result }
{
    let mut first = None;
    for place in 0..entries.len() {
        let breach = told[place].breach(run, &entries[place]);
        first = earlier(run.channels(), first, breach);
    }
    first
}
