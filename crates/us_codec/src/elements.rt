ghost use Rattle.std.specs.Prelude.{◌≡◌, ◌^◌, ◌<◌, ◌≤◌, SomeIff};
ghost use Rattle.std.specs.Int.{to_be_bytes, w32};
ghost use Rattle.us_codec.specs.Elements.{MapElement, IsMapElement, word_of, element_of, null_at};
ghost use Rattle.us_codec.specs.Faults.{ends_list, is_pending};

use std::marker::Model;
use us_slots::Iuc;

/// The bytes of an element (the standard's).
pub const ELEMENT_BYTES: usize = 4;

/// The greatest SID: it has 14 bits (the standard's).
const MAX_ELEMENT_SID: u16 = 0x3fff;

/// The greatest offset: it has 14 bits (the standard's).
pub const MAX_OFFSET: u16 = 0x3fff;

/// The greatest IUC: it has 4 bits (the standard's).
const MAX_IUC: u32 = 0xf;

/// The place of the SID in an element's 32 bits, from the lowest (the standard's).
const SID_SHIFT: u32 = 18;

/// The place of the IUC in them (the standard's).
const IUC_SHIFT: u32 = 14;

/// How many numbers the low bits of an IUC have that stand in the second half of an element's bytes, beside the offset.
const LOW_IUCS: u16 = 4;

/// How many offsets there are.
const OFFSETS: u16 = 0x4000;

/// An information element of a MAP: to whom minislots are assigned, what for, and from where on. It ends where the next
/// one begins.
#[derive(Clone, Copy, Debug, PartialEq, Eq, Hash)]
pub struct Element {
    sid: u16,
    iuc: Iuc,
    offset: u16,
}

impl Model for Element {
    ghost Value = { MapElement };

    ghost view = { λ e. record { sid = e.sid; iuc = e.iuc; offset = e.offset } };

    ghost invariant = { λ e. IsMapElement (record { sid = e.sid; iuc = e.iuc; offset = e.offset }) };

    ghost inverse = { λ e. record { sid = e.sid; iuc = e.iuc; offset = e.offset } };
}

impl Element {
    /// The element of a SID, an IUC and an offset in minislots, `None` where the SID or the offset is above 16,383.
    pub fn new(sid: u16, iuc: Iuc, offset: u16) -> Option<Element>
        ensures { let element : MapElement = record { sid = sid; iuc = iuc; offset = offset } in
            SomeIff result (IsMapElement element) element }
    {
        if sid <= MAX_ELEMENT_SID && offset <= MAX_OFFSET {
            Some(Element::from_fields(sid, iuc, offset))
        } else {
            None
        }
    }

    /// The element of a SID, an IUC and an offset in minislots, where the caller knows that the SID and the offset are at
    /// most 16,383. Nothing is judged.
    pub fn from_fields(sid: u16, iuc: Iuc, offset: u16) -> Element
        requires sid { sid < 2 ^ 14 }
        requires offset { offset < 2 ^ 14 }
        ensures value { result ≡ record { sid = sid; iuc = iuc; offset = offset } }
        ensures in_range { IsMapElement result }
    {
        Element { sid, iuc, offset }
    }

    /// The SID, 0 to 16,383.
    pub fn sid(self) -> u16
        ensures value { result ≡ self.sid }
        ensures in_range { IsMapElement self }
    {
        self.sid
    }

    /// The IUC.
    pub fn iuc(self) -> Iuc
        ensures value { result ≡ self.iuc }
        ensures in_range { IsMapElement self }
    {
        self.iuc
    }

    /// The offset from the MAP's start, in minislots, 0 to 16,383.
    pub fn offset(self) -> u16
        ensures value { result ≡ self.offset }
        ensures in_range { IsMapElement self }
    {
        self.offset
    }

    /// The Null at the MAP's length `len`, at most 16,383.
    pub fn null_at(len: u16) -> Element
        requires { len ≤ MAX_OFFSET }
        ensures { result ≡ null_at len }
    {
        Element {
            sid: 0,
            iuc: Iuc::null(),
            offset: len,
        }
    }

    /// Whether the IUC is that of the Null.
    pub(crate) fn ends_list(self) -> bool
        ensures { result ≡ ends_list self }
    {
        self.iuc == Iuc::null()
    }

    /// Whether it may stand behind a Null at `len`.
    pub(crate) fn is_pending(self, len: u16) -> bool
        ensures { result ≡ is_pending len self }
    {
        !self.ends_list() && self.offset == len
    }

    /// The 32 bits: SID, IUC and offset, most significant first.
    #[tactic(auto, unfolding(crate::specs::Elements::word_of))]
    pub(crate) fn word(self) -> u32
        ensures { result ≡ word_of self }
    {
        let iuc = u32::from(self.iuc.number());
        (u32::from(self.sid) << SID_SHIFT) + (iuc << IUC_SHIFT) + u32::from(self.offset)
    }

    /// The same as bytes, a half of two after another: the SID and the high bits of the IUC, then its low bits and the offset.
    /// So an element of a fixed SID and IUC has one half that is known beforehand.
    #[inline(always)]
    pub(crate) fn bytes(self) -> [u8; 4]
        ensures { result ≡ to_be_bytes w32 (word_of self) }
    {
        let iuc = u16::from(self.iuc.number());
        let high = self.sid * LOW_IUCS + iuc / LOW_IUCS;
        let low = iuc % LOW_IUCS * OFFSETS + self.offset;
        let [first, second] = high.to_be_bytes();
        let [third, fourth] = low.to_be_bytes();
        [first, second, third, fourth]
    }

    /// The element of 32 bits.
    #[tactic(auto, unfolding(crate::specs::Elements::element_of))]
    pub(crate) fn of_word(word: u32) -> Element
        ensures { result ≡ element_of word }
    {
        let Some(iuc) = Iuc::new(((word >> IUC_SHIFT) & MAX_IUC) as u8) else {
            unreachable!()
        };
        Element {
            sid: (word >> SID_SHIFT) as u16,
            iuc,
            offset: (word & u32::from(MAX_OFFSET)) as u16,
        }
    }
}
