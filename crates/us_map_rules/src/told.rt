ghost use Rattle.std.specs.Prelude.{◌≡◌, ◌++◌, ◌+◌, ◌^◌, ◌<◌, Some, true, List, Contains, option_map, IfOk, OnOk};
ghost use Rattle.std.specs.Option.{option_to_list};
ghost use Rattle.us_output.specs.declared.rows.Row.{Row as ReportRow};
ghost use Rattle.us_lawful.specs.CalendarLines.{channel_entries};
ghost use Rattle.us_reports.specs.Breaches.{IsFirstFailure};
ghost use Rattle.us_map_rules.specs.Listed.{is_called};
ghost use Rattle.us_map_rules.specs.Naming as naming;
ghost use Rattle.us_map_rules.specs.Failures.{comes_in};
ghost use Rattle.us_map_rules.specs.Told as spec;

use crate::closings::{closing_breach, coming, doubled_breach, put_in_order};
use crate::listed::ChannelEntry;
use crate::naming::{CalendarLine, calendar_place, occurrence_told};
use crate::runs::JudgedRun;
use crate::windows::{closes, is_right};
use std::alloc::{AllocError, Global};
use std::marker::Model;
use us_reports::{Place, earlier};
use us_round::Row;

/// A line that names an occurrence that is still open as the run ends.
#[derive(Clone, Copy)]
pub(crate) struct OpenLine {
    /// The number of the occurrence.
    pub(crate) number: u64,
    /// Where the line is.
    pub(crate) at: Place,
}

/// What lines tell of an entry.
pub(crate) struct ToldEntry {
    /// Each occurrence with a number below this that comes is named by a line,
    next: u64,
    /// and other lines name these: mostly none.
    others: Vec<u64>,
    /// Those lines that name an open one.
    open_lines: Vec<OpenLine>,
}

/// Gives it up. It is written out so that it is one step wherever it ends.
impl Drop for ToldEntry {
    fn drop(self) {
        let ToldEntry {
            next: _,
            others: _,
            open_lines: _,
        } = self;
    }
}

impl Model for ToldEntry {
    ghost Value = { spec.ToldEntry };

    ghost view = { λ t. record { next = t.next; others = t.others.items; open_lines = t.open_lines.items } };
}

impl ToldEntry {
    /// What no line tells.
    pub(crate) fn new(alloc: Global) -> ToldEntry
        ensures { result ≡ spec.nothing }
    {
        ToldEntry {
            next: 0,
            others: Vec::new(alloc),
            open_lines: Vec::new(alloc),
        }
    }

    /// A line more, which calls the entry. Whether it is right by itself.
    pub(crate) fn take(
        &mut self,
        run: &JudgedRun<'_>,
        of: &ChannelEntry,
        line: CalendarLine,
        row: &Row,
    ) -> Result<bool, AllocError>
        requires entry { Contains (channel_entries run.now.tables) of.now }
        requires line { naming.calendar_line row.now ≡ Some line }
        requires called { is_called line.entry line.at.third of.now ≡ true }
        ensures told { OnOk result (spec.IsToldMore run.now of.now row.now self.old self.new) }
        ensures right { IfOk result (λ right. right ≡ naming.tells_right run.now row.now line of.now) }
    {
        let Some(occurrence) = occurrence_told(run, of, line) else {
            return Ok(false);
        };
        self.name(run, of, occurrence.number)?;
        if !closes(run, &of.entry, occurrence.ideal) {
            self.keep_open(occurrence.number, row)?;
        }
        Ok(is_right(run, of, occurrence, row))
    }

    /// A line names this occurrence, which is still open as the run ends.
    fn keep_open(&mut self, number: u64, row: &Row) -> Result<(), AllocError>
        ensures { OnOk result (self.new ≡ record self.old {
          open_lines = self.old.open_lines
              ++ option_to_list (option_map (λ at. record { number = number; at = at }) (naming.calendar_place row.now));
        }) }
    {
        if let Some(at) = calendar_place(row) {
            self.open_lines.push(OpenLine { number, at })?;
        }
        Ok(())
    }

    /// A line more names this occurrence, which comes. Lines mostly name them one behind another, and then none is kept.
    fn name(
        &mut self,
        run: &JudgedRun<'_>,
        of: &ChannelEntry,
        number: u64,
    ) -> Result<(), AllocError>
        requires entry { Contains (channel_entries run.now.tables) of.now }
        requires comes { comes_in run.now of.now number ≡ true }
        requires few { number + 1 < 2 ^ 64 }
        ensures { OnOk result (spec.IsNamed (comes_in run.now of.now) number self.old self.new) }
    {
        if number == self.next || u128::from(number) == coming(run, of, u128::from(self.next)) {
            self.next = number + 1;
        } else {
            self.others.push(number)?;
        }
        Ok(())
    }

    /// The first place at which an occurrence of the entry closes that isn't named once, or with a line of an open one that
    /// another line names too.
    pub(crate) fn breach(&mut self, run: &JudgedRun<'_>, of: &ChannelEntry) -> Option<Place>
        requires { Contains (channel_entries run.now.tables) of.now }
        ensures { (lines : List ReportRow) → spec.IsTold run.now lines of.now self.old →
            IsFirstFailure run.now.tables.channels (spec.OccurrencesFail run.now lines of.now) result }
    {
        put_in_order(&mut self.others);
        let closing = closing_breach(run, of, self.next, &self.others);
        let doubled = doubled_breach(run, self.next, &self.others, &self.open_lines);
        earlier(run.channels(), closing, doubled)
    }
}
