ghost use Rattle.std.specs.Prelude.{◌≡◌, ◌+◌, ◌*◌, ◌≤◌, length, Ok, Err, IfOk, OnOk};
ghost use Rattle.us_codec.specs.declared.faults.MapFault.{MapFault};
ghost use Rattle.us_codec.specs.Bodies.{MapBody, IsMapBody, SpellsMap};
ghost use Rattle.us_codec.specs.Faults.{elements_at, front_fault, decode_answer};
ghost use Rattle.us_codec.specs.Answers.{UnlessNoMemory};

use crate::drafts::Draft;
use crate::elements::{ELEMENT_BYTES, Element};
use crate::faults::MapFault;
use crate::heads::{HEAD_BYTES, Head};
use crate::maps::{MAX_ELEMENTS, Map};
use std::alloc::{AllocError, Global};

/// The MAP whose body these bytes are, or their first fault of M1 to M10. M1 to M4 are looked at before memory is
/// taken; want of memory may come before the others.
#[tactic(auto, using(crate::proofs::BodyLemmas::decoding))]
pub fn decode(alloc: Global, body: &[u8]) -> Result<Map, MapFault>
    ensures found { IfOk result (λ map. SpellsMap body.now map) }
    ensures complete { (map : MapBody) → SpellsMap body.now map → UnlessNoMemory result (Ok map) }
    ensures exact { UnlessNoMemory result (decode_answer body.now) }
    ensures early { (fault : MapFault) → front_fault body.now ≡ Err fault → result ≡ Err fault }
{
    read_body(alloc, body)
}

/// The same: what `found` and `complete` say follows of this function's clauses alone.
#[tactic(auto, unfolding(crate::specs::Faults::decode_answer, crate::specs::Faults::read_fault))]
fn read_body(alloc: Global, body: &[u8]) -> Result<Map, MapFault>
    ensures exact { UnlessNoMemory result (decode_answer body.now) }
    ensures early { (fault : MapFault) → front_fault body.now ≡ Err fault → result ≡ Err fault }
    ensures grammar { IfOk result (λ map. IsMapBody map) }
{
    check_front(body)?;
    let (_, rest) = body.split_at(HEAD_BYTES);
    let draft = elements_of(alloc, rest)?;
    Map::of_draft(Head::of_bytes(body), draft)
}

/// The first fault of M1 to M4, `Ok` where there is none.
#[tactic(auto, unfolding(crate::specs::Faults::front_fault))]
fn check_front(body: &[u8]) -> Result<(), MapFault>
    ensures fault { result ≡ front_fault body.now }
    ensures long { OnOk result (HEAD_BYTES ≤ length body.now) }
    ensures few { OnOk result (length body.now ≤ HEAD_BYTES + ELEMENT_BYTES * MAX_ELEMENTS) }
{
    if body.len() < HEAD_BYTES {
        return Err(MapFault::Short);
    }
    let count = usize::from(body[2]);
    if body.len() != HEAD_BYTES + ELEMENT_BYTES * count {
        return Err(MapFault::LengthMismatch);
    }
    if body[3] != 0 {
        return Err(MapFault::Reserved);
    }
    if count > MAX_ELEMENTS {
        return Err(MapFault::TooManyElements);
    }
    Ok(())
}

/// The elements of these bytes, four by four.
#[tactic(auto, unfolding(crate::specs::Faults::elements_at))]
fn elements_of(alloc: Global, bytes: &[u8]) -> Result<Draft, AllocError>
    ensures elements { IfOk result (λ draft. draft ≡ elements_at bytes.now) }
    ensures count { IfOk result (λ draft. 4 * length draft ≤ length bytes.now) }
{
    let mut draft = Draft::with_room(alloc, bytes.len() / ELEMENT_BYTES)?;
    let mut rest = bytes;
    while let [a, b, c, d, tail @ ..] = rest {
        let word = u32::from_be_bytes([*a, *b, *c, *d]);
        draft.push(Element::of_word(word))?;
        rest = tail;
    }
    Ok(draft)
}
