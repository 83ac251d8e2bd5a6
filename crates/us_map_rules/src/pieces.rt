ghost use Rattle.std.specs.Prelude.{◌≡◌, ◌++◌, ◌∷◌, [], ◌<◌, ◌≤◌, List, length, drop, slice_get, IfSome, IfNone, IfOk, OnOk};
ghost use Rattle.us_codec.specs.Faults.{elements_at};
ghost use Rattle.us_lawful.specs.Runs.{RoundMap};
ghost use Rattle.us_lawful.specs.Regions.{element_regions};
ghost use Rattle.us_map_rules.specs.MapsReading.{IsMapsOf};
ghost use Rattle.us_map_rules.specs.Pieces.{AreElementsOf, piece_of, pieces_from};

use crate::elements::{Element, first_element};
use crate::maps_reading::first_piece;
use crate::regions::Region;
use std::alloc::Global;
use us_codec::HEAD_BYTES;
use us_slots::NoMemory;

/// The bytes of the elements of the MAP whose record these bytes begin with, and the length of the record in bytes. Where no
/// record stands in front, there are none.
pub(crate) fn first_elements(bytes: &[u8]) -> (&[u8], usize)
    ensures within { result.1 ≤ length bytes.now }
    ensures read { (maps : List RoundMap) → IsMapsOf bytes.now maps →
        IsMapsOf (drop result.1 bytes.now) (drop 1 maps) × AreElementsOf (slice_get maps 0) result.0.now }
{
    let Some((_, body, behind)) = first_piece(bytes) else {
        return (&[], 0);
    };
    let elements = &body[HEAD_BYTES.min(body.len())..];
    (elements, bytes.len() - behind.len())
}

/// The elements before the Null as minislots: each reaches to the next one.
pub(crate) fn pieces_of(alloc: Global, elements: &[u8]) -> Result<Vec<Region>, NoMemory>
    ensures { IfOk result (λ pieces. pieces.items ≡ element_regions (elements_at elements.now)) }
{
    let mut pieces = Vec::new(alloc);
    let Some(first) = first_element(elements) else {
        return Ok(pieces);
    };
    push_pieces(&mut pieces, first.0, first.1)?;
    Ok(pieces)
}

/// Puts an element and those that the bytes behind it spell to others.
fn push_pieces(pieces: &mut Vec<Region>, first: Element, behind: &[u8]) -> Result<(), NoMemory>
    ensures { OnOk result (pieces.new.items ≡ pieces.old.items ++ pieces_from first behind.now) }
{
    let mut element = first;
    let mut rest = behind;
    while let Some((piece, next)) = next_piece(element, rest) {
        pieces.push(piece)?;
        element = next.0;
        rest = next.1;
    }
    Ok(())
}

/// An element as minislots, and the next one, up to which it reaches, with the bytes behind that; `None` for the Null and
/// the last element.
pub(crate) fn next_piece(element: Element, behind: &[u8]) -> Option<(Region, (Element, &[u8]))>
    ensures some { IfSome result (λ found.
        (pieces_from element behind.now ≡ found.0 ∷ pieces_from found.1.0 found.1.1.now)
        × (found.0 ≡ piece_of element found.1.0) × (length found.1.1.now < length behind.now)) }
    ensures none { IfNone result (pieces_from element behind.now ≡ []) }
{
    let Some(next) = first_element(behind) else {
        return None;
    };
    if element.ends_list() {
        return None;
    }
    Some((region_between(element, next.0), next))
}

/// An element, which reaches to the next one.
fn region_between(element: Element, next: Element) -> Region
    ensures { result ≡ piece_of element next }
{
    Region {
        start: u64::from(element.offset),
        slots: u64::from(next.offset.saturating_sub(element.offset)),
        sid: u64::from(element.sid),
        iuc: u64::from(element.iuc),
    }
}
