ghost use Rattle.std.specs.Prelude.{◌≡◌, ◌≤◌};
ghost use Rattle.us_holes.specs.Boards as spec;
ghost use Rattle.us_holes.specs.Lists as lists;

use crate::holes::Hole;
use std::marker::Model;

/// A hole as one number, which is the greater the longer the hole is, and of holes as long the earlier: so one comparison
/// tells which of two is before the other by rank, and one word moves where a hole does.
#[derive(Clone, Copy)]
pub(crate) struct RankKey {
    number: u32,
}

impl Model for RankKey {
    ghost use Rattle.std.specs.Prelude.{◌≡◌};
    ghost use Rattle.std.proofs.Common.{arith};
    ghost use Rattle.std.proofs.lemmas.Nat.{div-add-mod', mod_below};
    ghost use Rattle.us_holes.specs.Lists as lists;

    ghost Value = { lists.Hole };

    ghost view = { λ k. lists.hole_of_key k.number };

    ghost inverse = { λ h. record { number = lists.key_of h } };

    ghost inverse_ok = { λ k known.
        let rest = mod_below k.number 65536 (omega arith) in
        let again : lists.key_of (lists.hole_of_key k.number) ≡ k.number = omega (arith, div-add-mod' k.number 65536, rest) in
        λ i. record { number = again i } };
}

impl RankKey {
    /// The hole from `from` on that ends before `to`.
    #[tactic(auto, using(crate::proofs::KeyLemmas::hole_again))]
    pub(crate) fn between(from: u32, to: u32) -> RankKey
        requires order { from ≤ to }
        requires inside { to ≤ spec.max_minislots }
        ensures { result ≡ lists.hole_from from to }
    {
        RankKey {
            number: (to - from) * 65_536 + (65_535 - from),
        }
    }

    /// The number of a hole.
    pub(crate) fn of(hole: Hole) -> RankKey
        ensures { result ≡ hole }
    {
        RankKey::between(hole.start(), hole.end())
    }

    /// Its first minislot.
    pub(crate) fn start(self) -> u32
        ensures { result ≡ self.start }
    {
        65_535 - self.number % 65_536
    }

    /// How many minislots it has.
    pub(crate) fn slots(self) -> u32
        ensures { result ≡ self.slots }
    {
        self.number / 65_536
    }

    /// Whether it is before another by rank: it is longer, or as long and earlier.
    #[tactic(auto, using(crate::proofs::KeyLemmas::before_by_key))]
    pub(crate) fn is_before(self, other: RankKey) -> bool
        ensures { result ≡ lists.is_before self other }
    {
        self.number > other.number
    }
}
