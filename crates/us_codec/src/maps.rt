ghost use Rattle.std.specs.Prelude.{◌≡◌, ◌+◌, ◌<◌, ◌≤◌, length, Ok, Err, IfOk};
ghost use Rattle.us_codec.specs.declared.faults.MapFault.TheVariants.{TooManyElements};
ghost use Rattle.us_codec.specs.Bodies.{MapBody, IsMapBody, body_of, max_elements};
ghost use Rattle.us_codec.specs.Faults.{list_fault, answer_unless, build_answer};
ghost use Rattle.us_codec.specs.Answers.{UnlessNoMemory};

use crate::drafts::Draft;
use crate::elements::{Element, MAX_OFFSET};
use crate::faults::MapFault;
use crate::heads::Head;
use std::alloc::Global;
use std::marker::Model;
use us_slots::NoMemory;

/// The most elements of a MAP, with the Null and the pendings (ours: the standard's count has a byte).
pub const MAX_ELEMENTS: usize = 240;

/// The greatest length of a MAP, in minislots: that of an offset, since the Null stands there (the standard's).
pub const MAX_LEN: u16 = MAX_OFFSET;

/// The body of a MAP, which keeps the grammar: at most [`MAX_ELEMENTS`] elements, the first at offset 0; those before
/// the Null at offsets that rise strictly, up to its own; the Null, at the MAP's length; and the pendings at the same
/// offset. No other element has the Null's IUC.
#[derive(Debug, Drop)]
pub struct Map {
    head: Head,
    elements: Vec<Element>,
}

impl Model for Map {
    ghost Value = { MapBody };

    ghost view = { λ m. record { head = m.head; elements = m.elements.items } };

    ghost invariant = { λ m. IsMapBody (record { head = m.head; elements = m.elements.items }) };
}

impl Map {
    /// The MAP of a head, of the elements before its Null, which is put at the MAP's length `len` (at most 16,383
    /// minislots), and of the pendings behind it, all of offset `len`; or the first fault of M4 to M10. M4 is looked at
    /// before memory is taken; want of memory may come before the others.
    #[tactic(auto, using(crate::proofs::BodyLemmas::building))]
    pub fn new(
        alloc: Global,
        head: Head,
        elements: &[Element],
        len: u16,
        pendings: &[Element],
    ) -> Result<Map, MapFault>
        requires { len ≤ MAX_LEN }
        ensures found { let body : MapBody = body_of head elements.now len pendings.now in
            IfOk result (λ map. IsMapBody map × (map ≡ body)) }
        ensures complete { let body : MapBody = body_of head elements.now len pendings.now in
            IsMapBody body → UnlessNoMemory result (Ok body) }
        ensures exact { UnlessNoMemory result (build_answer head elements.now len pendings.now) }
        ensures early { MAX_ELEMENTS < length elements.now + 1 + length pendings.now →
            result ≡ Err TooManyElements }

        // The limits that this crate's conditions and faults name.
        ensures limits { (MAX_LEN ≡ 16383) × (MAX_ELEMENTS ≡ max_elements) }
    {
        Map::build(alloc, head, elements, len, pendings)
    }

    /// The MAP of the parts that [`Map::new`] takes, where the caller knows that they make a lawful body, so that none of
    /// M4 to M9 stands. Nothing is judged, and want of memory is the one fault. The Null and the pendings are put behind
    /// `elements`.
    #[tactic(auto, using(crate::proofs::BodyLemmas::putting))]
    pub fn from_parts(
        head: Head,
        elements: Vec<Element>,
        len: u16,
        pendings: &[Element],
    ) -> Result<Map, NoMemory>
        requires { IsMapBody (body_of head elements.items len pendings.now) }
        ensures { IfOk result (λ map. map ≡ body_of head elements.items len pendings.now) }
    {
        let mut elements = elements;
        elements.push(Element::null_at(len))?;
        elements.extend_from_slice(pendings)?;
        Ok(Map { head, elements })
    }

    /// The same: what `found` and `complete` say follows of this function's clauses alone.
    #[tactic(auto, unfolding(crate::specs::Faults::build_answer, crate::specs::Faults::build_fault))]
    fn build(
        alloc: Global,
        head: Head,
        elements: &[Element],
        len: u16,
        pendings: &[Element],
    ) -> Result<Map, MapFault>
        requires { len ≤ MAX_LEN }
        ensures exact { UnlessNoMemory result (build_answer head elements.now len pendings.now) }
        ensures early { MAX_ELEMENTS < length elements.now + 1 + length pendings.now →
            result ≡ Err TooManyElements }
        ensures grammar { IfOk result (λ map. IsMapBody map) }
    {
        let count = elements.len() + 1 + pendings.len();
        if count > MAX_ELEMENTS {
            return Err(MapFault::TooManyElements);
        }
        let mut draft = Draft::with_room(alloc, count)?;
        draft.extend(elements)?;
        if draft.end().is_some() {
            return Err(MapFault::NoNull);
        }
        draft.push(Element::null_at(len))?;
        draft.extend(pendings)?;
        Map::of_draft(head, draft)
    }

    /// The MAP of a head and of at most [`MAX_ELEMENTS`] elements, or their first fault.
    #[tactic(auto, using(crate::proofs::ListLemmas::lawful))]
    pub(crate) fn of_draft(head: Head, draft: Draft) -> Result<Map, MapFault>
        requires { length draft ≤ MAX_ELEMENTS }
        ensures exact { let body : MapBody = record { head = head; elements = draft } in
            result ≡ answer_unless (list_fault head draft) body }
        ensures grammar { IfOk result (λ map. IsMapBody map) }
    {
        draft.fault(&head)?;
        let elements = draft.into_elements();
        Ok(Map { head, elements })
    }

    /// What stands before the elements.
    pub fn head(&self) -> &Head
        ensures value { result.now ≡ self.now.head }
        ensures grammar { IsMapBody self.now }
    {
        &self.head
    }

    /// All elements: those before the Null, the Null, the pendings.
    pub fn elements(&self) -> &[Element]
        ensures value { result.now ≡ self.now.elements }
        ensures grammar { IsMapBody self.now }
    {
        &self.elements
    }
}
