ghost use Rattle.std.specs.Prelude.{◌≡◌, IfOk, string_bytes};
ghost use Rattle.mapsim.specs.MapLines.{lines_of, length_before};

use std::alloc::{AllocError, Global};
use std::fmt;
use us_codec::{Element, Map};

/// What is printed of an element of a MAP.
#[derive(Clone, Copy)]
pub struct ElementLine {
    /// The round of the MAP.
    pub round: u32,
    /// Upstream Channel ID.
    pub channel: u8,
    /// Its first minislot, from the start of the MAP.
    pub offset: u16,
    /// Minislots up to the next element, 0 where there is none.
    pub minislots: u16,
    /// Whose it is.
    pub sid: u16,
    /// The number of the IUC.
    pub iuc: u8,
}

/// The line without its line feed.
impl fmt::Display for ElementLine {
    ghost use Rattle.std.specs.Prelude.{Some};
    ghost use Rattle.mapsim.specs.MapLines.{line_text};

    ghost output = { λ line. Some (line_text line) };

    fn fmt<W: fmt::Write>(&self, f: &mut fmt::Formatter<W>) -> fmt::Result {
        let ElementLine {
            round,
            channel,
            offset,
            minislots,
            sid,
            iuc,
        } = self;
        write!(f, "{round} {channel} {offset} {minislots} {sid} {iuc}")
    }
}

/// The lines of the MAP of a round, one for each element, with their line feeds.
#[tactic(auto, unfolding(crate::specs::MapLines::lines_of))]
pub fn map_lines(alloc: Global, round: u32, map: &Map) -> Result<String, AllocError>
    ensures { IfOk result (λ lines. string_bytes lines ≡ lines_of round map.now.head.channel map.now.elements) }
{
    let mut lines = String::new(alloc);
    let mut rest = map.elements();
    while let [element, behind @ ..] = rest {
        let line = ElementLine {
            round,
            channel: map.head().channel,
            offset: element.offset(),
            minislots: length_before(*element, behind),
            sid: element.sid(),
            iuc: element.iuc().number(),
        };
        writeln!(lines, "{line}")?;
        rest = behind;
    }
    Ok(lines)
}

/// Minislots from an element to the first of those behind it, 0 where there is none.
fn length_before(element: Element, behind: &[Element]) -> u16
    ensures { result ≡ length_before element behind.now }
{
    match behind.first() {
        Some(next) => next.offset().saturating_sub(element.offset()),
        None => 0,
    }
}
