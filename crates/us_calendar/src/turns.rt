ghost use Rattle.std.specs.Prelude.{◌≡◌, ◌+◌, ◌*◌, ◌≤◌, ◌++◌, length, map, OnOk, IfOk};
ghost use Rattle.std.specs.List.{AllByRecursion};
ghost use Rattle.us_slots.specs.Times.{minislot_ticks};
ghost use Rattle.us_flows.specs.Tables.{max_run_ticks};
ghost use Rattle.us_calendar.specs.Settling.{opening_state};
ghost use Rattle.us_calendar.specs.Calendars.{run_entries};
ghost use Rattle.us_calendar.specs.Kept.{IsEntryState};
ghost use Rattle.us_calendar.specs.Agendas.{IsAgenda};

use crate::agendas::Agenda;
use crate::entries::Entry;
use crate::entry_states::EntryState;
use crate::paces::Pace;
use crate::settled::Settled;
use crate::spans::Span;
use std::alloc::Global;
use us_holes::Board;
use us_slots::NoMemory;

/// The states of these entries before round 0, this one, each noted for the first round in which something of it is due.
pub(crate) fn noted(
    alloc: Global,
    span: &Span,
    entries: &[Entry],
) -> Result<(Vec<EntryState>, Agenda), NoMemory>
    requires first { span.now.round ≡ 0 }
    requires few { length entries.now ≤ 1280 }
    ensures states { IfOk result (λ kept. kept.0.items ≡ map opening_state entries.now) }
    ensures known { IfOk result (λ kept. AllByRecursion IsEntryState kept.0.items) }
    ensures agenda { IfOk result (λ kept. IsAgenda span.now.pace 0 0 kept.0.items kept.1) }
{
    let mut states = Vec::with_capacity(alloc, entries.len())?;
    let mut agenda = Agenda::new(alloc, entries.len())?;
    for entry in entries {
        let state = EntryState::new(*entry);
        agenda.note(state.due_round(span, 0), states.len())?;
        states.push(state)?;
    }
    Ok((states, agenda))
}

/// Settles what is due in a round, the next one, and notes when these entries are due again.
pub(crate) fn settle_due(
    pace: Pace,
    round: u32,
    states: &mut [EntryState],
    agenda: &mut Agenda,
    board: &mut Board,
    settled: &mut Vec<Settled>,
) -> Result<(), NoMemory>
    requires time { (round + 1) * (pace.len * minislot_ticks pace.time) ≤ max_run_ticks }
    requires len { length board.old.cells ≡ pace.len }
    requires known { AllByRecursion IsEntryState states.old }
    requires agenda { IsAgenda pace round 0 states.old agenda.old }
    ensures states { OnOk result (states.new ≡ (run_entries pace round states.old board.old).states) }
    ensures board { OnOk result (board.new ≡ (run_entries pace round states.old board.old).board) }
    ensures settled { OnOk result (settled.new.items ≡
        settled.old.items ++ (run_entries pace round states.old board.old).settled) }
    ensures agenda { OnOk result (IsAgenda pace (round + 1) 0 states.new agenda.new) }
    ensures known { OnOk result (AllByRecursion IsEntryState states.new) }
    ensures len { length board.new.cells ≡ length board.old.cells }
{
    // on a channel with few entries most rounds are, and then nothing else is looked at
    if agenda.is_idle() {
        agenda.end_round();
        return Ok(());
    }
    settle_noted(&Span::new(pace, round), states, agenda, board, settled)
}

/// Settles what is noted for a round, and ends it.
fn settle_noted(
    span: &Span,
    states: &mut [EntryState],
    agenda: &mut Agenda,
    board: &mut Board,
    settled: &mut Vec<Settled>,
) -> Result<(), NoMemory>
    requires len { length board.old.cells ≡ span.now.pace.len }
    requires known { AllByRecursion IsEntryState states.old }
    requires agenda { IsAgenda span.now.pace span.now.round 0 states.old agenda.old }
    ensures states { OnOk result
        (states.new ≡ (run_entries span.now.pace span.now.round states.old board.old).states) }
    ensures board { OnOk result (board.new ≡ (run_entries span.now.pace span.now.round states.old board.old).board) }
    ensures settled { OnOk result (settled.new.items ≡
        settled.old.items ++ (run_entries span.now.pace span.now.round states.old board.old).settled) }
    ensures agenda { OnOk result (IsAgenda span.now.pace (span.now.round + 1) 0 states.new agenda.new) }
    ensures known { OnOk result (AllByRecursion IsEntryState states.new) }
    ensures len { length board.new.cells ≡ length board.old.cells }
{
    let mut from = 0;
    while let Some(place) = agenda.take_from(from) {
        let at = states[place].run(span, board, settled)?;
        agenda.note(at, place)?;
        from = place + 1;
    }
    agenda.end_round();
    Ok(())
}
