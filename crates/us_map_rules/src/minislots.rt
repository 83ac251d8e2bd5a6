ghost use Rattle.std.specs.Prelude.{◌≡◌, ℕ, true, ◌==◌, nat_lt, ◌||◌, IfSome, IfOk, ◌<◌, ◌∷◌};
ghost use Rattle.std.specs.List.{list_all, list_any};
ghost use Rattle.us_codec.specs.Faults.{elements_at};
ghost use Rattle.us_lawful.specs.Regions as spec;
ghost use Rattle.us_lawful.specs.Regions.{element_regions, minislot_holds};
ghost use Rattle.us_map_rules.specs.Minislots;
ghost use Rattle.us_map_rules.specs.Minislots.{IsFirstFailing, AreByStart, AreSideBySide, IsBehindGap};
ghost use Rattle.us_map_rules.specs.Pieces.{pieces_from};

use crate::elements::{Element, first_element};
use crate::pieces::{next_piece, pieces_of};
use crate::regions::{BROADCAST, REQUEST, Region};
use us_flows::Channel;
use us_slots::NoMemory;

/// The lesser of two numbers, where there are any.
fn lesser(a: Option<u64>, b: Option<u64>) -> Option<u64>
    ensures { result ≡ Minislots.lesser a b }
{
    match (a, b) {
        (Some(first), Some(other)) if other < first => b,
        (None, _) => b,
        _ => a,
    }
}

/// Whether none of these regions has a minislot of this one.
fn is_free(regions: &[Region], piece: Region) -> bool
    ensures { result ≡ spec.is_free regions.now piece }
{
    regions.iter().all(|s| {
        s.slots == 0 || s.end() <= u128::from(piece.start) || piece.end() <= u128::from(s.start)
    })
}

/// Whether one of these regions has a minislot.
fn is_held(regions: &[Region], at: u128) -> bool
    ensures { result ≡ list_any (spec.covers at) regions.now }
{
    regions.iter().any(|s| s.covers(at))
}

/// Whether it reaches from a held minislot, or the start of the MAP, to the next held one, or the end of the MAP.
fn is_between(len: u64, regions: &[Region], piece: Region) -> bool
    ensures { result ≡ spec.is_between len regions.now piece }
{
    let begins = piece.start == 0 || is_held(regions, u128::from(piece.start - 1));
    begins && (piece.end() == u128::from(len) || is_held(regions, piece.end()))
}

/// Whether it has the SID and the IUC of a gap.
fn is_gap_element(channel: &Channel, piece: Region) -> bool
    ensures { result ≡ spec.is_gap_element channel.now piece }
{
    let sid = if u64::from(channel.request_minislots) <= piece.slots {
        BROADCAST
    } else {
        0
    };
    piece.sid == sid && piece.iuc == REQUEST
}

/// Whether it is a gap.
fn is_gap(channel: &Channel, len: u64, regions: &[Region], piece: Region) -> bool
    ensures { result ≡ spec.is_gap channel.now len regions.now piece }
{
    is_free(regions, piece) && is_between(len, regions, piece) && is_gap_element(channel, piece)
}

/// Whether it is one of these.
fn is_among(regions: &[Region], piece: Region) -> bool
    ensures { result ≡ list_any (spec.is_same piece) regions.now }
{
    regions.iter().any(|s| piece.is_same(*s))
}

/// Whether an element is a region, or a gap.
fn is_right(channel: &Channel, len: u64, regions: &[Region], piece: Region) -> bool
    ensures { result ≡ spec.is_right_element channel.now len regions.now piece }
{
    is_among(regions, piece) || is_gap(channel, len, regions, piece)
}

/// Where the first of these regions starts that has no minislot.
fn first_empty(regions: &[Region]) -> Option<u64>
    ensures { result ≡ Minislots.first_empty regions.now }
{
    regions
        .iter()
        .find(|region| region.slots == 0)
        .map(|region| region.start)
}

/// The first minislot of a MAP of length `len` that two of these regions have, which stand by start.
fn first_shared(len: u64, regions: &[Region]) -> Option<u64>
    ensures { result ≡ Minislots.first_shared len 0 regions.now }
{
    let mut end = 0;
    for region in regions {
        if region.start >= len {
            return None;
        }
        if region.slots > 0 {
            if u128::from(region.start) < end {
                return Some(region.start);
            }
            end = region.end();
        }
    }
    None
}

/// Where the elements end that are right, up to the first that isn't.
fn right_end(channel: &Channel, len: u64, regions: &[Region], pieces: &[Region]) -> u128
    ensures { result ≡ Minislots.right_up_to channel.now len regions.now 0 pieces.now }
{
    let mut end = 0;
    for piece in pieces {
        if !is_right(channel, len, regions, *piece) {
            return end;
        }
        end = piece.end();
    }
    end
}

/// The first minislot of a MAP that has no right element. The elements stand side by side.
fn first_wrong(channel: &Channel, len: u64, regions: &[Region], pieces: &[Region]) -> Option<u64>
    ensures { result ≡ Minislots.first_wrong channel.now len regions.now pieces.now }
{
    let end = right_end(channel, len, regions, pieces);
    if end < u128::from(len) {
        Some(end as u64)
    } else {
        None
    }
}

/// Whether none of these regions starts at the length of a MAP or behind, but for empty ones.
fn are_inside(len: u64, regions: &[Region]) -> bool
    ensures { result ≡ list_all (λ s. (s.slots == 0) || nat_lt s.start len) regions.now }
{
    regions.iter().all(|s| s.slots == 0 || s.start < len)
}

/// The length of a MAP, where one of these regions starts there or behind.
fn first_outside(len: u64, regions: &[Region]) -> Option<u64>
    ensures { result ≡ Minislots.first_outside len regions.now }
{
    if are_inside(len, regions) {
        None
    } else {
        Some(len)
    }
}

/// The first element behind the gap before a minislot, and the bytes behind it; `None` where the gap isn't there.
fn behind_gap<'a>(
    channel: &Channel,
    to: u64,
    element: Element,
    behind: &'a [u8],
) -> Option<(Element, &'a [u8])>
    ensures { IfSome result (λ next. (next.0.offset ≡ to)
        × IsBehindGap channel.now element.offset to (pieces_from element behind.now) (pieces_from next.0 next.1.now)) }
{
    if u64::from(element.offset) == to {
        return Some((element, behind));
    }
    let Some((piece, next)) = next_piece(element, behind) else {
        return None;
    };
    let is_there = piece.slots > 0
        && u64::from(next.0.offset) == to
        && is_gap_element(channel, piece);
    if is_there { Some(next) } else { None }
}

/// The same behind the element of a region.
fn behind_region(region: Region, element: Element, behind: &[u8]) -> Option<(Element, &[u8])>
    ensures { IfSome result (λ next. (next.0.offset ≡ spec.end_of region) × (0 < region.slots)
        × (pieces_from element behind.now ≡ region ∷ pieces_from next.0 next.1.now)) }
{
    let Some((piece, next)) = next_piece(element, behind) else {
        return None;
    };
    if region.slots > 0 && piece.is_same(region) {
        Some(next)
    } else {
        None
    }
}

/// Whether the elements are these regions one after another and the gaps between them. So they are in each lawful MAP whose
/// lines stand by start.
#[inline(always)]
fn are_followed(channel: &Channel, len: u64, regions: &[Region], elements: &[u8]) -> bool
    ensures { result ≡ true → (at : ℕ) →
        minislot_holds channel.now len regions.now (element_regions (elements_at elements.now)) at ≡ true }
{
    let Some(first) = first_element(elements) else {
        return false;
    };
    if first.0.offset() > 0 {
        return false;
    }
    let mut next = first;
    for region in regions {
        let Some(held) = behind_gap(channel, region.start, next.0, next.1) else {
            return false;
        };
        let Some(behind) = behind_region(*region, held.0, held.1) else {
            return false;
        };
        next = behind;
    }
    match behind_gap(channel, len, next.0, next.1) {
        Some(end) => next_piece(end.0, end.1).is_none(),
        None => false,
    }
}

/// The first minislot that isn't what it must be, found by parts. The regions stand by start.
#[tactic(auto, using(crate::proofs::PartLemmas::minislot_first))]
fn first_by_parts(channel: &Channel, len: u64, regions: &[Region], pieces: &[Region]) -> Option<u64>
    requires { AreByStart regions.now }
    ensures { AreSideBySide 0 pieces.now → IsFirstFailing (minislot_holds channel.now len regions.now pieces.now) result }
{
    let of_regions = lesser(first_empty(regions), first_shared(len, regions));
    let wrong = first_wrong(channel, len, regions, pieces);
    lesser(of_regions, lesser(wrong, first_outside(len, regions)))
}

/// The first minislot of a MAP of length `len` that isn't what it must be. These regions must be there, and the elements are
/// those that these bytes spell, if they stand side by side.
pub(crate) fn first_failing(
    channel: &Channel,
    len: u64,
    regions: &mut Vec<Region>,
    elements: &[u8],
) -> Result<Option<u64>, NoMemory>
    ensures { IfOk result (λ first. AreSideBySide 0 (element_regions (elements_at elements.now)) →
        IsFirstFailing (minislot_holds channel.now len regions.old.items (element_regions (elements_at elements.now))) first) }
{
    if are_followed(channel, len, regions, elements) {
        return Ok(None);
    }
    first_in_order(channel, len, regions, elements)
}

/// The same where the elements aren't the regions as they come: these are put by start.
#[inline(never)]
fn first_in_order(
    channel: &Channel,
    len: u64,
    regions: &mut Vec<Region>,
    elements: &[u8],
) -> Result<Option<u64>, NoMemory>
    ensures { IfOk result (λ first. AreSideBySide 0 (element_regions (elements_at elements.now)) →
        IsFirstFailing (minislot_holds channel.now len regions.old.items (element_regions (elements_at elements.now))) first) }
{
    regions.sort_unstable_by_key(|region| region.start);
    if are_followed(channel, len, regions, elements) {
        return Ok(None);
    }
    let pieces = pieces_of(*regions.allocator(), elements)?;
    Ok(first_by_parts(channel, len, regions, &pieces))
}
