ghost use Rattle.std.specs.Prelude.{◌≡◌, ◌+◌, ◌++◌, is_some, true, length, map, max, OnOk, IfOk};
ghost use Rattle.std.specs.List.{range_with_len};
ghost use Rattle.us_calendar.specs.Agendas.{due_at};
ghost use Rattle.us_calendar.specs.Calendars.{is_heard_as};
ghost use Rattle.us_calendar.specs.Occurrences.{end_of, ideal};
ghost use Rattle.us_calendar.specs.Settling as spec;
ghost use Rattle.us_calendar.specs.Kept.{IsEntryState, IsNext, number_of, speaks_of};

use crate::entries::Entry;
use crate::hearing::hears;
use crate::interval_kinds::Kinds;
use crate::occurrences::Occurrence;
use crate::settled::Settled;
use crate::settling::settle;
use crate::spans::Span;
use std::marker::Model;
use us_holes::Board;
use us_slots::NoMemory;

/// An entry, and its first occurrence that isn't settled.
pub(crate) struct EntryState {
    entry: Entry,
    next: Occurrence,

    // whether its flow is active, as of the last round's cut
    active: bool,

    // where its activity is detected, whether it was when the next occurrence's interval began, if that has begun
    waiting: Option<bool>,
}

impl Model for EntryState {
    ghost Value = { spec.EntryState };

    ghost view = { λ r. record {
      entry = r.entry;
      settled = range_with_len 0 (number_of r.entry r.next);
      active = r.active;
      waiting = r.waiting;
    } };

    ghost invariant = { λ r. IsNext r.entry r.next r.waiting };
}

/// Gives the state up. It is written out so that it is one step wherever a state ends.
impl Drop for EntryState {
    fn drop(self) {
        let EntryState {
            entry: _,
            next: _,
            active: _,
            waiting: _,
        } = self;
    }
}

impl EntryState {
    /// An entry of which nothing is settled.
    #[tactic(auto, using(crate::proofs::EntryStateLemmas::state_facts))]
    pub(crate) fn new(entry: Entry) -> EntryState
        ensures value { result ≡ spec.opening_state entry }
        ensures known { IsEntryState result }
    {
        let next = Occurrence::first(&entry);
        EntryState {
            entry,
            next,
            active: true,
            waiting: None,
        }
    }

    /// Whether the activity of its flow is detected.
    pub(crate) fn is_heard(&self) -> bool
        ensures { result ≡ is_some self.now.entry.silence }
    {
        self.entry.silence.is_some()
    }

    /// Whether it is of the flow with this id, and the flow's activity is detected.
    pub(crate) fn is_heard_as(&self, id: u16) -> bool
        ensures { result ≡ is_heard_as id self.now }
    {
        self.entry.silence.is_some() && self.entry.id == id
    }

    /// Whether its flow is active.
    pub(crate) fn is_active(&self) -> bool
        ensures { result ≡ self.now.active }
    {
        self.active
    }

    /// Hears what a round's cut, bytes by word, says of its flow.
    pub(crate) fn hear(&mut self, cut: &[u64])
        ensures value { self.new ≡ spec.heard cut.now self.old }
        ensures known { IsEntryState self.new }
    {
        self.active = hears(&self.entry, self.active, cut);
    }

    /// Of what kind its intervals are in this round, where its activity is detected.
    fn kinds(&self) -> Kinds
        requires { is_some self.now.entry.silence ≡ true }
        ensures speaks { speaks_of result ≡ spec.speaks_in self.now }
        ensures at { result.at ≡ ideal self.now.entry (length self.now.settled) }
    {
        Kinds {
            at: self.next.ideal,
            kept: self.waiting.unwrap_or(self.active),
            active: self.active,
        }
    }

    /// Settles what is due of the entry, and puts it behind what is settled so far.
    #[tactic(auto, using(crate::proofs::EntryStateLemmas::state_facts))]
    fn settle(
        &mut self,
        span: &Span,
        board: &mut Board,
        settled: &mut Vec<Settled>,
    ) -> Result<(), NoMemory>
        requires len { length board.old.cells ≡ span.now.pace.len }
        ensures state { OnOk result (self.new ≡ spec.after_settling span.now.end self.old
            (spec.settle_state span.now.pace span.now.round self.old board.old).settlements) }
        ensures board { OnOk result
            (board.new ≡ (spec.settle_state span.now.pace span.now.round self.old board.old).board) }
        ensures len { length board.new.cells ≡ length board.old.cells }
        ensures told { OnOk result (settled.new.items ≡ settled.old.items ++ map (spec.told_as self.old.entry)
            (spec.settle_state span.now.pace span.now.round self.old board.old).settlements) }
        ensures known { IsEntryState self.new }
    {
        // mostly it isn't detected, and nothing is kept
        if !self.is_heard() {
            self.next = settle(
                &self.entry,
                span,
                Kinds::always(),
                self.next,
                board,
                settled,
            )?;
            return Ok(());
        }
        let kinds = self.kinds();
        let next = settle(&self.entry, span, kinds, self.next, board, settled)?;
        self.waiting = kinds.waiting_at(self.waiting, span.end, next.ideal);
        self.next = next;
        Ok(())
    }

    /// Settles what is due of the entry in a round, and tells the first round after it in which something is due.
    pub(crate) fn run(
        &mut self,
        span: &Span,
        board: &mut Board,
        settled: &mut Vec<Settled>,
    ) -> Result<u32, NoMemory>
        requires len { length board.old.cells ≡ span.now.pace.len }
        ensures state { OnOk result (self.new ≡ spec.after_settling (end_of span.now.pace span.now.round) self.old
            (spec.settle_state span.now.pace span.now.round self.old board.old).settlements) }
        ensures board { OnOk result
            (board.new ≡ (spec.settle_state span.now.pace span.now.round self.old board.old).board) }
        ensures len { length board.new.cells ≡ length board.old.cells }
        ensures told { OnOk result (settled.new.items ≡ settled.old.items ++ map (spec.told_as self.old.entry)
            (spec.settle_state span.now.pace span.now.round self.old board.old).settlements) }
        ensures known { IsEntryState self.new }
        ensures next { IfOk result (λ next. next ≡ max (span.now.round + 1) (due_at span.now.pace self.new)) }
    {
        self.settle(span, board, settled)?;
        Ok(self.due_round(span, span.round + 1))
    }

    /// The first round from `from` on in which an occurrence of the entry is due. Any round of the channel tells how long
    /// rounds are.
    #[tactic(auto, using(crate::proofs::EntryStateLemmas::state_facts))]
    pub(crate) fn due_round(&self, span: &Span, from: u32) -> u32
        ensures { result ≡ max from (due_at span.now.pace self.now) }
    {
        from.max(self.next.ideal / (span.end - span.begin))
    }
}
