ghost use Rattle.std.specs.Prelude.{◌≡◌, ◌+◌, ◌≤◌};
ghost use Rattle.us_holes.specs.Boards as spec;

use crate::owners::Owner;
use std::marker::Model;
use us_slots::Iuc;

/// The place of the SID in the 32 bits of an assignment's word, from the lowest.
const SID_SHIFT: u32 = 18;

/// The place of the IUC in them.
const IUC_SHIFT: u32 = 14;

/// The greatest IUC: it has 4 bits.
const MAX_IUC: u32 = 0xf;

/// The greatest first minislot: it has 14 bits.
const MAX_START: u32 = 0x3fff;

/// An assignment: its first minislot, how many it has, and whose they are.
#[derive(Clone, Copy)]
pub(crate) struct Assignment {
    // whose it is, and where it starts, side by side as an element of a MAP has them: from the highest bit on the SID in 14,
    // the IUC in 4 and the first minislot in 14. So whoever makes an element of it finds its bits in their places.
    word: u32,
    slots: u32,
}

impl Model for Assignment {
    ghost use Rattle.std.specs.Prelude.{◌≡◌, ◌+◌, ◌*◌, ◌/◌, ◌%◌, ◌^◌, ◌≤◌};
    ghost use Rattle.std.proofs.Common.{arith};
    ghost use Rattle.us_holes.specs.Boards as spec;
    ghost use Rattle.us_holes.specs.Lists.{assignment_of};

    ghost Value = { spec.Assignment };

    ghost view = { λ a. assignment_of a.word a.slots };

    ghost invariant = { λ a. (a.word % 2 ^ 14 + a.slots ≤ spec.max_minislots)
        × spec.IsOwner (assignment_of a.word a.slots).owner };

    ghost inverse = { λ i. record { word = i.owner.sid * 2 ^ 18 + i.owner.iuc * 2 ^ 14 + i.start; slots = i.slots } };

    ghost inverse_ok = { λ a known.
        let word : a.word / 2 ^ 18 * 2 ^ 18 + a.word / 2 ^ 14 % 2 ^ 4 * 2 ^ 14 + a.word % 2 ^ 14 ≡ a.word = omega arith in
        λ i. record { word = word i; slots = a.slots } };
}

impl Assignment {
    /// The assignment of `slots` minislots from `start` on.
    pub(crate) fn new(start: u32, slots: u32, owner: Owner) -> Assignment
        requires { start + slots ≤ spec.max_minislots }
        ensures { result ≡ (record { start = start; slots = slots; owner = owner }) }
    {
        let sid = u32::from(owner.sid()) << SID_SHIFT;
        let iuc = u32::from(owner.iuc().number()) << IUC_SHIFT;
        Assignment {
            word: sid + iuc + start,
            slots,
        }
    }

    /// Its first minislot.
    pub(crate) fn start(self) -> u32
        ensures { result ≡ self.start }
    {
        self.word & MAX_START
    }

    /// How many minislots it has.
    pub(crate) fn slots(self) -> u32
        ensures { result ≡ self.slots }
    {
        self.slots
    }

    /// Whose they are.
    pub(crate) fn owner(self) -> Owner
        ensures { result ≡ self.owner }
    {
        let Some(iuc) = Iuc::new(((self.word >> IUC_SHIFT) & MAX_IUC) as u8) else {
            unreachable!()
        };
        Owner::new((self.word >> SID_SHIFT) as u16, iuc)
    }
}
