ghost use Rattle.std.specs.Prelude.{◌≡◌, ◌∷◌, [], ◌<◌, length, IfSome, IfNone};
ghost use Rattle.us_codec.specs.Elements.{MapElement, element_of};
ghost use Rattle.us_codec.specs.Faults as codec;
ghost use Rattle.us_codec.specs.Faults.{elements_at};

use std::marker::Model;
use us_slots::Iuc;

/// The greatest offset: it has the lowest 14 of an element's 32 bits (the standard's).
const MAX_OFFSET: u32 = 0x3fff;

/// The place of the SID in them, from the lowest (the standard's).
const SID_SHIFT: u32 = 18;

/// The place of the IUC in them (the standard's).
const IUC_SHIFT: u32 = 14;

/// The greatest IUC: it has 4 bits (the standard's).
const MAX_IUC: u32 = 0xf;

/// An element of a MAP, as it is read where it stands.
#[derive(Clone, Copy)]
pub(crate) struct Element {
    pub(crate) sid: u32,
    pub(crate) iuc: u32,
    pub(crate) offset: u32,
}

impl Model for Element {
    ghost Value = { MapElement };

    ghost view = { λ e. record { sid = e.sid; iuc = e.iuc; offset = e.offset } };

    ghost inverse = { λ e. record { sid = e.sid; iuc = e.iuc; offset = e.offset } };
}

impl Element {
    /// The element of 32 bits.
    #[tactic(auto, unfolding(us_codec::specs::Elements::element_of))]
    fn of_word(word: u32) -> Element
        ensures { result ≡ element_of word }
    {
        Element {
            sid: word >> SID_SHIFT,
            iuc: (word >> IUC_SHIFT) & MAX_IUC,
            offset: word & MAX_OFFSET,
        }
    }

    /// The offset from the start of the MAP, in minislots.
    pub(crate) fn offset(self) -> u32
        ensures { result ≡ self.offset }
    {
        self.offset
    }

    /// Whether it has the IUC of the Null.
    pub(crate) fn ends_list(self) -> bool
        ensures { result ≡ codec.ends_list self }
    {
        self.iuc == u32::from(Iuc::null().number())
    }
}

/// The first of the elements that these bytes spell, and the bytes behind it.
pub(crate) fn first_element(bytes: &[u8]) -> Option<(Element, &[u8])>
    ensures some { IfSome result (λ first. (elements_at bytes.now ≡ first.0 ∷ elements_at first.1.now)
        × (length first.1.now < length bytes.now)) }
    ensures none { IfNone result (elements_at bytes.now ≡ []) }
{
    let [a, b, c, d, behind @ ..] = bytes else {
        return None;
    };
    let word = u32::from_be_bytes([*a, *b, *c, *d]);
    Some((Element::of_word(word), behind))
}
