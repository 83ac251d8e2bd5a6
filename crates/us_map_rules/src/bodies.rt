ghost use Rattle.std.specs.Prelude.{◌≡◌, ◌↔◌, ◌≤◌, length, Some, IsTrue, IfSome, IfNone};
ghost use Rattle.std.specs.List.{list_all};
ghost use Rattle.us_codec.specs.Bodies.{MapBody, SpellsMap};
ghost use Rattle.us_codec.specs.Faults as codec;
ghost use Rattle.us_codec.specs.Faults.{elements_at};
ghost use Rattle.us_lawful.specs.Headings.{null_offset};
ghost use Rattle.us_map_rules.specs.Bodies as spec;
ghost use Rattle.us_map_rules.specs.Bodies.{Fits};

use crate::elements::{Element, first_element};
use us_codec::{ELEMENT_BYTES, HEAD_BYTES, Head, MAX_ELEMENTS};

/// The greatest backoff, as an exponent of 2.
const MAX_BACKOFF: u8 = 15;

/// What the body of a MAP has before its elements, and where its Null stands; `None` where it isn't in the grammar.
pub(crate) fn body_told(body: &[u8]) -> Option<(Head, u32)>
    ensures some { IfSome result (λ told. (m : MapBody) × SpellsMap body.now m × (m.head ≡ told.0)
        × (null_offset m.elements ≡ Some told.1)) }
    ensures none { IfNone result ((m : MapBody) → SpellsMap body.now m → ⊥) }
{
    if !has_front(body) {
        return None;
    }
    let head = head_at(body);
    let (_, elements) = body.split_at(HEAD_BYTES);
    if !has_lawful_backoffs(&head) {
        return None;
    }
    if !starts_at_zero(elements) {
        return None;
    }
    let len = null_told(elements)?;
    Some((head, len))
}

/// Whether a body is as long as its elements make it, has no more than a MAP may have, and has 0 for Reserved.
fn has_front(body: &[u8]) -> bool
    ensures { IsTrue result ↔ spec.IsFront body.now }
{
    if body.len() < HEAD_BYTES {
        return false;
    }
    let count = usize::from(body[2]);
    body.len() == HEAD_BYTES + ELEMENT_BYTES * count && body[3] == 0 && count <= MAX_ELEMENTS
}

/// What stands before the elements of a body.
#[tactic(auto, unfolding(us_codec::specs::Faults::head_at))]
fn head_at(body: &[u8]) -> Head
    requires { HEAD_BYTES ≤ length body.now }
    ensures value { result ≡ codec.head_at body.now }
    ensures fits { Fits result }
{
    Head {
        channel: body[0],
        ucd_count: body[1],
        alloc_start: u32::from_be_bytes([body[4], body[5], body[6], body[7]]),
        ack: u32::from_be_bytes([body[8], body[9], body[10], body[11]]),
        backoffs: [body[12], body[13], body[14], body[15]],
    }
}

/// Whether no backoff is above 15.
fn has_lawful_backoffs(head: &Head) -> bool
    ensures { result ≡ list_all codec.is_backoff head.now.backoffs }
{
    head.backoffs.iter().all(|backoff| *backoff <= MAX_BACKOFF)
}

/// Whether the first of the elements that these bytes spell stands at minislot 0, if there is one.
#[tactic(auto, unfolding(us_codec::specs::Faults::starts_at_zero))]
fn starts_at_zero(elements: &[u8]) -> bool
    ensures { result ≡ codec.starts_at_zero (elements_at elements.now) }
{
    match first_element(elements) {
        Some((element, _)) => element.offset == 0,
        None => true,
    }
}

/// Where the Null stands among the elements that these bytes spell, if offsets rise up to it and only pendings are behind.
fn null_told(elements: &[u8]) -> Option<u32>
    ensures { result ≡ spec.null_told (elements_at elements.now) }
{
    let mut least = 0;
    let mut rest = elements;
    while let Some(first) = first_element(rest) {
        let offset = first.0.offset();
        if u64::from(offset) < least {
            return None;
        }
        if first.0.ends_list() {
            return null_here(first.0, first.1);
        }
        least = u64::from(offset) + 1;
        rest = first.1;
    }
    None
}

/// Where an element of the Null's IUC stands, if it is the Null and only pendings are behind it.
fn null_here(element: Element, behind: &[u8]) -> Option<u32>
    ensures { result ≡ spec.null_here element (elements_at behind.now) }
{
    if element.sid == 0 && are_pending(behind, element.offset) {
        Some(element.offset)
    } else {
        None
    }
}

/// Whether all elements that these bytes spell may stand behind a Null at `len`.
fn are_pending(elements: &[u8], len: u32) -> bool
    ensures { result ≡ list_all (codec.is_pending len) (elements_at elements.now) }
{
    let mut rest = elements;
    while let Some((element, behind)) = first_element(rest) {
        if element.ends_list() || element.offset != len {
            return false;
        }
        rest = behind;
    }
    true
}
