ghost use Rattle.std.specs.Prelude.{◌≡◌, ℕ, ◌<◌, ◌≤◌, None, Some, length, map, option_map, slice_get};
ghost use Rattle.std.specs.List.{AllByRecursion, find};
ghost use Rattle.us_calendar.specs.Calendars.{is_heard_as};
ghost use Rattle.us_calendar.specs.Settling as spec;
ghost use Rattle.us_calendar.specs.Kept.{AreHeard, IsEntryState};

use crate::entry_states::EntryState;

/// The places of the entries whose activity is detected: from the first one to the one behind the last. They stand
/// together, so that all others are passed over at once.
#[derive(Clone, Copy)]
pub(crate) struct HeardPlaces {
    pub(crate) from: usize,
    pub(crate) to: usize,
}

impl HeardPlaces {
    /// Those of these entries.
    pub(crate) fn of(states: &[EntryState]) -> HeardPlaces
        ensures { AreHeard states.now result.from result.to }
    {
        HeardPlaces {
            from: first_heard(states),
            to: behind_heard(states),
        }
    }
}

/// Before this place nobody hears.
fn first_heard(states: &[EntryState]) -> usize
    ensures { (p : ℕ) (state : spec.EntryState) → slice_get states.now p ≡ Some state → p < result →
        state.entry.silence ≡ None }
{
    let mut from = 0;
    while from < states.len() {
        if states[from].is_heard() {
            break;
        }
        from += 1;
    }
    from
}

/// From this place on nobody hears.
fn behind_heard(states: &[EntryState]) -> usize
    ensures inside { result ≤ length states.now }
    ensures behind { (p : ℕ) (state : spec.EntryState) → slice_get states.now p ≡ Some state → result ≤ p →
        state.entry.silence ≡ None }
{
    let mut to = states.len();
    while to > 0 {
        if states[to - 1].is_heard() {
            break;
        }
        to -= 1;
    }
    to
}

/// Whether the flow with this id is active, if one of these entries is of it and its activity is detected.
pub(crate) fn activity_among(states: &[EntryState], id: u16) -> Option<bool>
    ensures { result ≡ option_map (λ state. state.active) (find (is_heard_as id) states.now) }
{
    for state in states {
        if state.is_heard_as(id) {
            return Some(state.is_active());
        }
    }
    None
}

/// Has all that hear take a round's cut, bytes by word.
pub(crate) fn hear_all(states: &mut [EntryState], places: HeardPlaces, cut: &[u64])
    requires heard { AreHeard states.old places.from places.to }
    requires known { AllByRecursion IsEntryState states.old }
    ensures states { states.new ≡ map (spec.heard cut.now) states.old }
    ensures known { AllByRecursion IsEntryState states.new }
{
    let mut place = places.from;
    while place < places.to {
        states[place].hear(cut);
        place += 1;
    }
}
