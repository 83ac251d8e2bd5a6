ghost use Rattle.std.specs.Prelude.{◌≡◌, ◌+◌, ◌<◌, ◌≤◌, ◌^◌, ℕ, [], length, true, false, IfNone, IfSome, OnOk, OnErr};
ghost use Rattle.std.specs.BTreeSet.{BTreeSet as Notes};
ghost use Rattle.us_calendar.specs.Agendas as spec;

use std::alloc::Global;
use std::collections::BTreeSet;
use std::marker::Model;
use us_slots::NoMemory;

/// The entries that are noted for later rounds than the near ones.
pub(crate) struct FarRounds {
    notes: BTreeSet<(u32, usize)>,

    // the round of the first, so that most rounds don't look for it
    first: u32,
}

impl Model for FarRounds {
    ghost Value = { Notes (ℕ × ℕ) };

    ghost view = { λ f. f.notes };

    ghost invariant = { λ f. spec.IsFirstRound f.notes f.first };
}

/// Gives the notes up. It is written out so that it is one step wherever the rounds end.
impl Drop for FarRounds {
    fn drop(self) {
        let FarRounds { notes: _, first: _ } = self;
    }
}

impl FarRounds {
    /// Nothing is noted yet.
    pub(crate) fn new(alloc: Global) -> FarRounds
        ensures { result.keys ≡ [] }
    {
        FarRounds {
            notes: BTreeSet::new(alloc),
            first: u32::MAX,
        }
    }

    /// Notes the entry at a place for a round. It is a call of its own, since most entries are noted near.
    #[inline(never)]
    pub(crate) fn note(&mut self, round: u32, place: usize) -> Result<(), NoMemory>
        ensures noted { OnOk result (spec.IsChanged (spec.is_far self.old) (spec.is_far self.new) round place true) }
        ensures refused { OnErr result (self.new.keys ≡ self.old.keys) }
    {
        self.notes.insert((round, place))?;
        self.first = self.first.min(round);
        Ok(())
    }

    /// Takes a place that is noted for a round, where nothing is noted for an earlier one.
    pub(crate) fn take(&mut self, round: u32) -> Option<usize>
        requires late { spec.IsLate self.old round }
        requires early { round + 1 < 2 ^ 32 }
        ensures there { IfSome result (λ place. spec.is_far self.old round place ≡ true) }
        ensures taken { IfSome result (λ place.
            spec.IsChanged (spec.is_far self.old) (spec.is_far self.new) round place false) }
        ensures fewer { IfSome result (λ _. length self.new.keys < length self.old.keys) }
        ensures none { IfNone result (spec.IsNone (spec.is_far self.old round)) }
        ensures unchanged { IfNone result (self.new.keys ≡ self.old.keys) }
    {
        if self.first > round {
            return None;
        }
        let (_, place) = self.notes.pop_first()?;
        self.first = first_of(&self.notes);
        Some(place)
    }

    /// Nothing is noted any more.
    pub(crate) fn clear(&mut self)
        ensures { self.new.keys ≡ [] }
    {
        self.notes.clear();
        self.first = u32::MAX;
    }
}

/// The round of the first note, or the last there is where nothing is noted.
fn first_of(notes: &BTreeSet<(u32, usize)>) -> u32
    ensures { spec.IsFirstRound notes.now result }
{
    match notes.first() {
        Some(note) => note.0,
        None => u32::MAX,
    }
}
