ghost use Rattle.std.specs.Prelude.{◌≡◌, ◌≤◌, length, replicate};
ghost use Rattle.std.specs.Bool.{OnTrue};
ghost use Rattle.us_split.specs.Askers.{HasNothing};

/// How many words are looked at together.
const TOGETHER: usize = 8;

/// The first word from this one on that has bytes in a cut: as many as there are words, where none has. Most words have none
/// in a round.
pub(super) fn first_in_cut(cut: &[u64], from: usize) -> usize
    requires { from ≤ length cut.now }
    ensures order { from ≤ result }
    ensures inside { result ≤ length cut.now }
    ensures none { HasNothing cut.now from result }
{
    let mut at = past_idle(cut, from);
    while at < cut.len() && cut[at] == 0 {
        at += 1;
    }
    at
}

/// Passes words that have nothing, eight at a time.
fn past_idle(cut: &[u64], from: usize) -> usize
    requires { from ≤ length cut.now }
    ensures order { from ≤ result }
    ensures inside { result ≤ length cut.now }
    ensures none { HasNothing cut.now from result }
{
    let mut at = from;
    while TOGETHER <= cut.len() - at && are_idle(&cut[at..at + TOGETHER]) {
        at += TOGETHER;
    }
    at
}

/// Whether these words have nothing: then no bit is set in any of them, and all are looked at by one test.
fn are_idle(cut: &[u64]) -> bool
    ensures { OnTrue result (cut.now ≡ replicate (length cut.now) 0) }
{
    cut.iter().fold(0, |bits, bytes| bits | *bytes) == 0
}
