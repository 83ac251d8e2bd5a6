ghost use Rattle.std.specs.Prelude.{◌≡◌, ◌++◌, IfSome, IfNone};
ghost use Rattle.us_codec.specs.MapsFiles.{Piece, IsPiece, record_bytes};
ghost use Rattle.us_lawful.specs.Runs.{RoundMap};
ghost use Rattle.us_lawful.specs.Headings.{heading_told};
ghost use Rattle.us_lawful.specs.Lawful.{IsRoundMap};
ghost use Rattle.us_lawful.specs.Texts.{record_of};
ghost use Rattle.us_map_rules.specs.Headings.{heading_read};
ghost use Rattle.us_map_rules.specs.MapsReading.{BeginsNoPiece, BeginsNoRecord};

use crate::bodies::body_told;
use us_codec::Head;

/// What a MAP says of itself: its round, what stands before its elements, and its length.
#[derive(Clone, Copy)]
pub(crate) struct MapHeading {
    pub(crate) round: u32,
    pub(crate) head: Head,
    pub(crate) len: u32,
}

/// What the MAP of the record that bytes begin with says of itself, and what stands behind it; `None` where they begin with
/// no record of a MAP.
pub(crate) fn first_heading(bytes: &[u8]) -> Option<(MapHeading, &[u8])>
    ensures some { IfSome result (λ first. (m : RoundMap) × IsRoundMap m
        × (bytes.now ≡ record_bytes (record_of m) ++ first.1.now) × (heading_told m ≡ heading_read first.0)) }
    ensures none { IfNone result (BeginsNoRecord bytes.now) }
{
    let (round, body, behind) = first_piece(bytes)?;
    let (head, len) = body_told(body)?;
    Some((MapHeading { round, head, len }, behind))
}

/// The round and the body of the record that bytes begin with, whatever that spells, and what stands behind it; `None`
/// where the bytes end inside it.
pub(crate) fn first_piece(bytes: &[u8]) -> Option<(u32, &[u8], &[u8])>
    ensures found { IfSome result (λ first.
        let piece : Piece = record { round = first.0; body = first.1.now } in
        IsPiece piece × (bytes.now ≡ record_bytes piece ++ first.2.now)) }
    ensures none { IfNone result (BeginsNoPiece bytes.now) }
{
    let [a, b, c, d, high, low, rest @ ..] = bytes else {
        return None;
    };
    let round = u32::from_be_bytes([*a, *b, *c, *d]);
    let body_len = usize::from(u16::from_be_bytes([*high, *low]));
    if rest.len() < body_len {
        return None;
    }
    let (body, behind) = rest.split_at(body_len);
    Some((round, body, behind))
}
