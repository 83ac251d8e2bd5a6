ghost use Rattle.std.specs.Prelude.{◌≡◌, ℕ, ◌+◌, ◌*◌, ◌≤◌, ◌<◌, nat_le, ◌&&◌, false, IfSome, IfNone, length};
ghost use Rattle.us_calendar.specs.Occurrences.{starts_within};
ghost use Rattle.us_calendar.specs.Settling as spec;
ghost use Rattle.us_calendar.specs.Kept.{IsTimed, number_of};

use crate::entries::Entry;
use crate::occurrences::Occurrence;
use crate::spans::Span;
use us_holes::{Board, Placed};

/// Grants an occurrence the first minislot of its window in this round's MAP where it fits, as a grant of an active flow or
/// as a poll: the offset, if there is one.
#[tactic(auto, using(crate::proofs::SpotLemmas::spot_facts))]
#[inline(always)]
pub(crate) fn place(
    entry: &Entry,
    span: &Span,
    active: bool,
    next: Occurrence,
    board: &mut Board,
) -> Option<u32>
    requires len { length board.old.cells ≡ span.now.pace.len }
    requires timed { IsTimed entry.now next }
    requires due { next.ideal < span.now.end }
    ensures value { result ≡ spec.spot span.now.pace span.now.round entry.now active (number_of entry.now next) board.old }
    ensures board { board.new ≡ spec.with_spot entry.now active result board.old }
    ensures len { length board.new.cells ≡ length board.old.cells }
{
    let (from, to) = starts(entry, span, next)?;
    let slots = entry.slots_of(active);
    match board.place_earliest(from, to, slots, entry.owner_of(active)) {
        Placed::At(start, _) => Some(start),
        Placed::Full => None,
        Placed::NoRoom => None,
    }
}

/// The first and the last minislot of this round's MAP that lie in the window of an occurrence. `None` where none does.
fn starts(entry: &Entry, span: &Span, next: Occurrence) -> Option<(u32, u32)>
    requires timed { IsTimed entry.now next }
    requires due { next.ideal < span.now.end }
    ensures some { IfSome result (λ ends. (ends.0 ≤ ends.1) × (ends.1 < span.now.pace.len) × ((at : ℕ) → at < span.now.pace.len →
        starts_within span.now.pace.time entry.now (number_of entry.now next) (span.now.round * span.now.pace.len + at)
        ≡ (nat_le ends.0 at && nat_le at ends.1))) }
    ensures none { IfNone result ((at : ℕ) → at < span.now.pace.len →
        starts_within span.now.pace.time entry.now (number_of entry.now next) (span.now.round * span.now.pace.len + at)
        ≡ false) }
{
    let last = next.ideal + entry.jitter;
    if last < span.begin {
        return None;
    }
    let behind = next.ideal.saturating_sub(span.begin);
    let from = behind.div_ceil(span.minislot);
    let to = ((last - span.begin) / span.minislot).min(span.len - 1);
    if from <= to { Some((from, to)) } else { None }
}
