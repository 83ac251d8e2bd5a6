ghost use Rattle.std.specs.Prelude.{◌↔◌, ◌+◌, ◌<◌, ◌≤◌, length, IsTrue, IfSome};
ghost use Rattle.mapsim.specs.Marks.{IsMark, IsSplit};

/// The line between the configuration and the trace, with its line feed.
const MARK: &[u8] = b"%%\n";

/// What stands before the first mark of a text, and what stands behind it; `None` where there is no mark.
#[tactic(auto, using(crate::proofs::MarkLemmas::mark_inside))]
pub fn split_at_mark(text: &[u8]) -> Option<(&[u8], &[u8])>
    ensures some { IfSome result (λ parts. IsSplit text.now parts.0.now parts.1.now) }
{
    for at in 0..text.len() {
        if is_mark(text, at) {
            return Some((&text[..at], &text[at + MARK.len()..]));
        }
    }
    None
}

/// Whether the mark stands at this place of a text.
#[tactic(auto, using(crate::proofs::MarkLemmas::mark_inside))]
fn is_mark(text: &[u8], at: usize) -> bool
    requires { at < length text.now }
    ensures value { IsTrue result ↔ IsMark text.now at }
    ensures within { IsTrue result → at + 3 ≤ length text.now }
{
    let starts_line = at == 0 || text[at - 1] == b'\n';
    starts_line && text[at..].starts_with(MARK)
}
