ghost use Rattle.std.specs.Prelude.{◌≡◌, ◌+◌, ◌*◌, ◌<◌, ◌≤◌, [], length, slice_get, IfOk, IfSome, OnOk};
ghost use Rattle.std.specs.List.{AllByRecursion};
ghost use Rattle.us_slots.specs.Times.{minislot_ticks};
ghost use Rattle.us_flows.specs.Tables.{max_run_ticks};
ghost use Rattle.us_flows.specs.Lawful.{IsChannel};
ghost use Rattle.us_calendar.specs.Calendars as spec;
ghost use Rattle.us_calendar.specs.Kept.{IsKept};

use crate::agendas::Agenda;
use crate::entry_states::EntryState;
use crate::heard_entries::{HeardPlaces, activity_among, hear_all};
use crate::listing::entries_of;
use crate::paces::Pace;
use crate::settled::Settled;
use crate::spans::Span;
use crate::turns::{noted, settle_due};
use std::alloc::Global;
use std::marker::Model;
use us_flows::{Channel, Config};
use us_holes::Board;
use us_slots::NoMemory;

/// The calendar of a channel.
pub struct Calendar {
    pace: Pace,
    states: Vec<EntryState>,

    // the round that is run next, and for which round each entry is noted
    agenda: Agenda,

    // the places of those whose activity is detected
    heard: HeardPlaces,
}

impl Model for Calendar {
    ghost Value = { spec.Calendar };

    ghost view = { λ c. record { pace = c.pace; next_round = c.agenda.round; states = c.states.items } };

    ghost invariant = { λ c. IsKept (record { pace = c.pace; next_round = c.agenda.round; states = c.states.items })
        c.agenda c.heard.from c.heard.to };
}

/// Gives the entries up. It is written out so that it is one step wherever a calendar ends.
impl Drop for Calendar {
    fn drop(self) {
        let Calendar {
            pace: _,
            states: _,
            agenda: _,
            heard: _,
        } = self;
    }
}

impl Calendar {
    /// The calendar of the channel at this place of the table, before round 0.
    pub fn new(alloc: Global, config: &Config, channel: usize) -> Result<Calendar, NoMemory>
        requires { channel < length config.now.channels }
        ensures { IfOk result (λ calendar. IfSome (slice_get config.now.channels channel)
            (λ c. calendar ≡ spec.opening config.now c)) }
    {
        Calendar::of_channel(alloc, config, &config.channels()[channel])
    }

    /// The calendar of a channel of the table.
    fn of_channel(alloc: Global, config: &Config, channel: &Channel) -> Result<Calendar, NoMemory>
        requires { IsChannel config.now channel.now }
        ensures { IfOk result (λ calendar. calendar ≡ spec.opening config.now channel.now) }
    {
        let pace = Pace {
            time: *channel.bursts.time(),
            len: config.map_len(channel),
        };
        let entries = entries_of(alloc, config, channel)?;
        let (states, agenda) = noted(alloc, &Span::new(pace, 0), &entries)?;
        let heard = HeardPlaces::of(&states);
        Ok(Calendar {
            pace,
            states,
            agenda,
            heard,
        })
    }

    /// Settles what is due in `round`, which is the next one, on the channel's board: entries by kind, then by id, and the
    /// occurrences of an entry in their order. Each goes to the first minislot of its window in this round's MAP where it
    /// fits; one that doesn't fit is missed if its window ends before the round does, and waits else.
    ///
    /// `cut` has the round's cut, in bytes by word. It says which flows with activity detection are active from this round
    /// on, and which are silent. Of an interval that begins while its flow is silent a poll comes alone, in place of all
    /// grants. A word that the list doesn't have says nothing.
    ///
    /// The board has the length of the channel's MAPs, and the round ends at tick 2^26 or before. After want of memory
    /// nothing is said of calendar and board.
    pub fn run(
        &mut self,
        alloc: Global,
        round: u32,
        cut: &[u64],
        board: &mut Board,
    ) -> Result<Vec<Settled>, NoMemory>
        requires next { round ≡ self.old.next_round }
        requires time { (round + 1) * (self.old.pace.len * minislot_ticks self.old.pace.time) ≤ max_run_ticks }
        requires len { length board.old.cells ≡ self.old.pace.len }
        ensures settled { IfOk result (λ settled. settled.items ≡ (spec.ran self.old cut.now board.old).settled) }
        ensures board { OnOk result (board.new ≡ (spec.ran self.old cut.now board.old).board) }
        ensures calendar { OnOk result (self.new ≡ spec.after self.old cut.now board.old) }

        // The board keeps its length, what is granted starts inside it and is one more assignment each, and all that is
        // settled is counted, with what a silent interval leaves out.
        ensures len { OnOk result (length board.new.cells ≡ length board.old.cells) }
        ensures inside { IfOk result (λ settled. AllByRecursion (spec.StartsInside (length board.old.cells)) settled.items) }
        ensures granted { IfOk result (λ settled.
            spec.granted_in settled.items + board.old.standing ≡ board.new.standing) }
        ensures counts { IfOk result (λ settled.
            length settled.items + spec.settled_in self.old ≤ spec.settled_in self.new) }
    {
        let mut settled = Vec::new(alloc);
        self.run_into(round, cut, board, &mut settled)?;
        Ok(settled)
    }

    /// Does what [`Calendar::run`] does, and answers in a list of the caller's. Nothing stays that stood there. After want
    /// of memory the calendar keeps its time and the board its length; nothing else is said of them and of the list.
    pub fn run_into(
        &mut self,
        round: u32,
        cut: &[u64],
        board: &mut Board,
        settled: &mut Vec<Settled>,
    ) -> Result<(), NoMemory>
        requires next { round ≡ self.old.next_round }
        requires time { (round + 1) * (self.old.pace.len * minislot_ticks self.old.pace.time) ≤ max_run_ticks }
        requires len { length board.old.cells ≡ self.old.pace.len }
        ensures settled { OnOk result (settled.new.items ≡ (spec.ran self.old cut.now board.old).settled) }
        ensures board { OnOk result (board.new ≡ (spec.ran self.old cut.now board.old).board) }
        ensures calendar { OnOk result (self.new ≡ spec.after self.old cut.now board.old) }

        // The board keeps its length, what is granted starts inside it and is one more assignment each, and all that is
        // settled is counted, with what a silent interval leaves out.
        ensures len { length board.new.cells ≡ length board.old.cells }
        ensures inside { OnOk result (AllByRecursion (spec.StartsInside (length board.old.cells)) settled.new.items) }
        ensures granted { OnOk result (spec.granted_in settled.new.items + board.old.standing ≡ board.new.standing) }
        ensures counts { OnOk result (length settled.new.items + spec.settled_in self.old ≤ spec.settled_in self.new) }

        // The calendar keeps its pace, also after want of memory.
        ensures pace { self.new.pace ≡ self.old.pace }
    {
        self.hear(cut);
        self.settle_into(round, board, settled)
    }

    /// Takes in a round's cut before the round is settled, as [`Calendar::run`] says. Where no flow of the channel has its
    /// activity detected, nothing is looked at.
    pub fn hear(&mut self, cut: &[u64])
        ensures value { self.new ≡ spec.heard_by cut.now self.old }

        // It settles nothing.
        ensures counts { spec.settled_in self.new ≡ spec.settled_in self.old }
    {
        hear_all(&mut self.states, self.heard, cut);
    }

    /// Settles what is due in `round`, the next one, on the channel's board, once the calendar has heard the round's cut: the
    /// rest of what [`Calendar::run_into`] does.
    pub fn settle_into(
        &mut self,
        round: u32,
        board: &mut Board,
        settled: &mut Vec<Settled>,
    ) -> Result<(), NoMemory>
        requires next { round ≡ self.old.next_round }
        requires time { (round + 1) * (self.old.pace.len * minislot_ticks self.old.pace.time) ≤ max_run_ticks }
        requires len { length board.old.cells ≡ self.old.pace.len }
        ensures settled { OnOk result (settled.new.items ≡ (spec.settles self.old board.old).settled) }
        ensures board { OnOk result (board.new ≡ (spec.settles self.old board.old).board) }
        ensures calendar { OnOk result (self.new ≡ spec.settled_after self.old board.old) }
        ensures len { length board.new.cells ≡ length board.old.cells }
        ensures inside { OnOk result (AllByRecursion (spec.StartsInside (length board.old.cells)) settled.new.items) }
        ensures granted { OnOk result (spec.granted_in settled.new.items + board.old.standing ≡ board.new.standing) }
        ensures counts { OnOk result (length settled.new.items + spec.settled_in self.old ≤ spec.settled_in self.new) }
        ensures pace { self.new.pace ≡ self.old.pace }
    {
        settled.clear();
        match settle_due(
            self.pace,
            round,
            &mut self.states,
            &mut self.agenda,
            board,
            settled,
        ) {
            Ok(()) => Ok(()),
            Err(refused) => {
                self.states.clear();
                self.agenda.clear();
                self.heard = HeardPlaces { from: 0, to: 0 };
                Err(refused)
            }
        }
    }

    /// Whether the flow with this id is active, as of the last cut that the calendar heard. `None` where it has no entry of a
    /// flow with this id, or where nobody detects the flow's activity.
    pub fn activity(&self, id: u16) -> Option<bool>
        ensures { result ≡ spec.activity_in id self.now }
    {
        activity_among(&self.states, id)
    }

    /// The round that is to be run next.
    pub fn next_round(&self) -> u32
        ensures value { result ≡ self.now.next_round }
        ensures known { spec.IsCalendar self.now }
    {
        self.agenda.round()
    }
}
