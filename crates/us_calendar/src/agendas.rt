ghost use Rattle.std.specs.Prelude.{◌≡◌, ◌+◌, ◌<◌, ◌≤◌, ◌^◌, ℕ, length, true, false, IfNone, IfOk, IfSome, OnOk};
ghost use Rattle.std.specs.Bool.{OnTrue};
ghost use Rattle.us_calendar.specs.Agendas as spec;

use crate::far_rounds::FarRounds;
use crate::near_rounds::{NEAR_ROUNDS, NearRounds};
use std::alloc::Global;
use std::marker::Model;
use us_slots::NoMemory;

/// For which round the entry at each place is noted.
pub(crate) struct Agenda {
    round: u32,
    near: NearRounds,
    far: FarRounds,
}

impl Model for Agenda {
    ghost Value = { spec.Agenda };

    ghost view = { λ a. record { round = a.round; near = a.near; far = a.far } };

    ghost invariant = { λ a. record {
      late : spec.IsLate a.far (a.round + spec.near_rounds);
      inside : spec.AreInside a.far (length a.near);
    } };
}

/// Gives the notes up. It is written out so that it is one step wherever an agenda ends.
impl Drop for Agenda {
    fn drop(self) {
        let Agenda {
            round: _,
            near: _,
            far: _,
        } = self;
    }
}

impl Agenda {
    /// Before round 0, with nothing noted of these many entries.
    pub(crate) fn new(alloc: Global, entries: usize) -> Result<Agenda, NoMemory>
        requires few { entries ≤ 1280 }
        ensures round { IfOk result (λ agenda. agenda.round ≡ 0) }
        ensures room { IfOk result (λ agenda. entries ≤ length agenda.near) }
        ensures none { IfOk result (λ agenda. (round : ℕ) → spec.IsNone (spec.is_noted agenda round)) }
    {
        Ok(Agenda {
            round: 0,
            near: NearRounds::new(alloc, entries)?,
            far: FarRounds::new(alloc),
        })
    }

    /// The round that is run next.
    pub(crate) fn round(&self) -> u32
        ensures { result ≡ self.now.round }
    {
        self.round
    }

    /// Notes the entry at a place for a round. It is written into its callers, as are the other two that a round calls, so that
    /// a bit is set and found without a call.
    #[inline(always)]
    pub(crate) fn note(&mut self, round: u32, place: usize) -> Result<(), NoMemory>
        requires later { self.old.round ≤ round }
        requires inside { place < length self.old.near }
        ensures noted { OnOk result (spec.IsChanged (spec.is_noted self.old) (spec.is_noted self.new) round place true) }
        ensures round { self.new.round ≡ self.old.round }
        ensures room { length self.new.near ≡ length self.old.near }
    {
        if round - self.round < NEAR_ROUNDS {
            self.near.note(round, place);
            return Ok(());
        }
        self.far.note(round, place)
    }

    /// Takes the first place that is noted for this round, where none before `from` is.
    #[inline(always)]
    pub(crate) fn take_from(&mut self, from: usize) -> Option<usize>
        requires { spec.NoneBefore (spec.is_noted self.old self.old.round) from }
        ensures first { IfSome result (spec.IsFirst (spec.is_noted self.old self.old.round)) }
        ensures taken { IfSome result (λ place.
            spec.IsChanged (spec.is_noted self.old) (spec.is_noted self.new) self.old.round place false) }
        ensures none { IfNone result (spec.IsNone (spec.is_noted self.old self.old.round)) }
        ensures unchanged { IfNone result (self.new ≡ self.old) }
        ensures round { self.new.round ≡ self.old.round }
        ensures room { length self.new.near ≡ length self.old.near }
    {
        self.near.take_from(self.round, from)
    }

    /// Whether nothing is noted for this round.
    pub(crate) fn is_idle(&self) -> bool
        ensures { OnTrue result (spec.IsNone (spec.is_noted self.now self.now.round)) }
    {
        self.near.is_idle(self.round)
    }

    /// Ends this round, for which nothing is noted any more. The first of those behind the near rounds is near from then on.
    #[inline(always)]
    pub(crate) fn end_round(&mut self)
        requires over { spec.IsNone (spec.is_noted self.old self.old.round) }
        requires early { self.old.round + spec.near_rounds + 1 < 2 ^ 32 }
        ensures noted { (round place : ℕ) → self.new.round ≤ round →
            spec.is_noted self.new round place ≡ spec.is_noted self.old round place }
        ensures round { self.new.round ≡ self.old.round + 1 }
        ensures room { length self.new.near ≡ length self.old.near }
    {
        bring(&mut self.near, &mut self.far, self.round + NEAR_ROUNDS);
        self.round += 1;
    }

    /// Nothing is noted any more.
    pub(crate) fn clear(&mut self)
        ensures none { (round : ℕ) → spec.IsNone (spec.is_noted self.new round) }
        ensures round { self.new.round ≡ self.old.round }
    {
        self.near.clear();
        self.far.clear();
    }
}

/// Notes near what is noted far for this round, for which nothing is noted near.
fn bring(near: &mut NearRounds, far: &mut FarRounds, round: u32)
    requires none { spec.IsNone (spec.is_near near.old round) }
    requires late { spec.IsLate far.old round }
    requires inside { spec.AreInside far.old (length near.old) }
    requires early { round + 1 < 2 ^ 32 }
    ensures brought { spec.IsBrought near.old far.old round near.new far.new }
    ensures late { spec.IsLate far.new (round + 1) }
    ensures inside { spec.AreInside far.new (length near.new) }
{
    while let Some(place) = far.take(round) {
        near.note(round, place);
    }
}
