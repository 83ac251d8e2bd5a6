ghost use Rattle.std.specs.Prelude.{◌≡◌, ◌+◌, ◌*◌, ◌≤◌, ◌++◌, length, take, drop};
ghost use Rattle.std.specs.Int.{to_be_bytes, w32};
ghost use Rattle.us_codec.specs.Elements.{word_of};
ghost use Rattle.us_codec.specs.Bodies.{MapBody, IsMapBody, front, spelling, max_body_bytes};

use crate::elements::{ELEMENT_BYTES, Element};
use crate::heads::{HEAD_BYTES, Head};
use crate::maps::{MAX_ELEMENTS, Map};

/// The most bytes of a MAP body (ours, by its most elements).
pub const MAX_BODY_BYTES: usize = HEAD_BYTES + ELEMENT_BYTES * MAX_ELEMENTS;

/// Writes the one spelling of a MAP to the front of `out`, and answers its length in bytes. The rest of `out` stays.
pub fn encode_into(map: &Map, out: &mut [u8; MAX_BODY_BYTES]) -> usize
    ensures written { out.new ≡ spelling map.now ++ drop result out.old }
    ensures length { result ≡ length (spelling map.now) }
    ensures size { result ≡ HEAD_BYTES + ELEMENT_BYTES * length map.now.elements }
    ensures bound { result ≤ MAX_BODY_BYTES }
    ensures grammar { IsMapBody map.now }

    // The longest body, which is the buffer that this call asks for.
    ensures limits { MAX_BODY_BYTES ≡ max_body_bytes }

    // Two different MAPs have different spellings.
    ensures one_spelling { (other : MapBody) → IsMapBody other →
        spelling other ≡ spelling map.now → other ≡ map.now }
{
    let elements = map.elements();
    put_front(out, map.head(), elements.len() as u8);
    let mut at = HEAD_BYTES;
    for element in elements {
        put(out, at, element.word().to_be_bytes());
        at += ELEMENT_BYTES;
    }
    at
}

/// The sixteen bytes before `count` elements. Reserved is 0.
pub fn front_bytes(head: &Head, count: u8) -> [u8; HEAD_BYTES]
    ensures { result ≡ front head.now count }
{
    let mut bytes = [0; HEAD_BYTES];
    put_front(&mut bytes, head, count);
    bytes
}

/// Puts the four bytes of an element into `out` from `at` on.
pub fn put_element(out: &mut [u8], at: usize, element: Element)
    requires { at + ELEMENT_BYTES ≤ length out.old }
    ensures { out.new ≡
        take at out.old ++ to_be_bytes w32 (word_of element) ++ drop (at + ELEMENT_BYTES) out.old }
{
    put(out, at, element.bytes());
}

/// Puts the sixteen bytes before `count` elements to the front of `out`. Reserved is 0.
fn put_front(out: &mut [u8], head: &Head, count: u8)
    requires { HEAD_BYTES ≤ length out.old }
    ensures { out.new ≡ front head.now count ++ drop HEAD_BYTES out.old }
{
    put(out, 0, [head.channel, head.ucd_count, count, 0]);
    put(out, 4, head.alloc_start.to_be_bytes());
    put(out, 8, head.ack.to_be_bytes());
    put(out, 12, head.backoffs);
}

/// Puts four bytes into `out` from `at` on.
#[inline(always)]
fn put(out: &mut [u8], at: usize, bytes: [u8; 4])
    requires { at + 4 ≤ length out.old }
    ensures { out.new ≡ take at out.old ++ bytes ++ drop (at + length bytes) out.old }
{
    put_whole(&mut out[at..at + 4], bytes);
}

/// Puts four bytes where four stand, as one: so they are stored at once, where a copy of a slice would first ask whether the
/// two overlap.
#[inline(always)]
fn put_whole(place: &mut [u8], bytes: [u8; 4])
    requires { length place.old ≡ 4 }
    ensures { place.new ≡ bytes }
{
    let Some(four) = place.as_mut_array() else {
        unreachable!()
    };
    *four = bytes;
}
