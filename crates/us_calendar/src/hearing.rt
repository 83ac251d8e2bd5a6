ghost use Rattle.std.specs.Prelude.{◌≡◌};
ghost use Rattle.us_calendar.specs.Activity as spec;

use crate::entries::Entry;
use crate::silences::Silence;

/// Whether the flow of an entry is active in the round of a cut, bytes by word, where it was active before or not. It stays
/// so where its activity isn't detected.
pub(crate) fn hears(entry: &Entry, was: bool, cut: &[u64]) -> bool
    ensures { result ≡ spec.hears_of entry.now.silence was cut.now }
{
    match entry.silence {
        None => was,
        Some(silence) => follows_marks(silence, was, cut),
    }
}

/// The same of a flow with these words. One that the cut doesn't have isn't marked.
fn follows_marks(silence: Silence, was: bool, cut: &[u64]) -> bool
    ensures { result ≡ spec.hears silence.word was cut.now }
{
    let word = usize::from(silence.word);
    if is_marked(cut, word + 1) {
        return true;
    }
    if is_marked(cut, word) {
        return false;
    }
    was
}

/// Whether a cut has something of a word.
fn is_marked(cut: &[u64], word: usize) -> bool
    ensures { result ≡ spec.is_marked cut.now word }
{
    word < cut.len() && cut[word] > 0
}
