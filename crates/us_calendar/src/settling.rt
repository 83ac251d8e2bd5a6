ghost use Rattle.std.specs.Prelude.{◌≡◌, ◌<◌, ◌≤◌, ◌⊎◌, ◌++◌, [], ◌∷◌, flat_map, map, OnOk, IfOk, IfSome, IfNone, length, true, false, None};
ghost use Rattle.std.specs.Bool.{OnTrue, OnFalse};
ghost use Rattle.std.specs.List.{range_with_len};
ghost use Rattle.us_calendar.specs.Occurrences.{comes, is_over};
ghost use Rattle.us_calendar.specs.Settling as spec;
ghost use Rattle.us_calendar.specs.Kept.{IsTimed, number_of, settle_from, settled_at, speaks_of};

use crate::entries::Entry;
use crate::interval_kinds::Kinds;
use crate::occurrences::Occurrence;
use crate::placing::place;
use crate::settled::Settled;
use crate::spans::Span;
use us_holes::Board;
use us_slots::NoMemory;

/// Settles what is due of an entry from its occurrence `first` on and comes, by the kinds of its intervals, and tells the
/// first that isn't settled then. It stands for itself wherever it is called, so that entries whose activity isn't detected
/// pay for no kinds.
#[inline(always)]
pub(crate) fn settle(
    entry: &Entry,
    span: &Span,
    kinds: Kinds,
    first: Occurrence,
    board: &mut Board,
    settled: &mut Vec<Settled>,
) -> Result<Occurrence, NoMemory>
    requires len { length board.old.cells ≡ span.now.pace.len }
    requires timed { IsTimed entry.now first }
    requires comes { comes entry.now (speaks_of kinds) (number_of entry.now first) ≡ true }
    ensures numbers { IfOk result (λ next. range_with_len 0 (number_of entry.now next) ≡
        range_with_len 0 (number_of entry.now first) ++ flat_map (spec.closed entry.now)
        (settle_from span.now.pace span.now.round entry.now (speaks_of kinds) (number_of entry.now first) board.old).settlements) }
    ensures board { OnOk result (board.new ≡
        (settle_from span.now.pace span.now.round entry.now (speaks_of kinds) (number_of entry.now first) board.old).board) }
    ensures len { length board.new.cells ≡ length board.old.cells }
    ensures told { OnOk result (settled.new.items ≡ settled.old.items ++ map (spec.told_as entry.now)
        (settle_from span.now.pace span.now.round entry.now (speaks_of kinds) (number_of entry.now first) board.old).settlements) }
    ensures timed { IfOk result (λ next. IsTimed entry.now next) }
    ensures comes { IfOk result (λ next. comes entry.now (speaks_of kinds) (number_of entry.now next) ≡ true) }
    ensures begins { IfOk result (λ next. span.now.end ≤ next.ideal → (next ≡ first) ⊎ (next.k ≡ 0)) }
{
    let mut next = first;
    while next.ideal < span.end {
        let active = kinds.speaks(next.ideal);
        if !settle_one(entry, span, active, next, board, settled)? {
            return Ok(next);
        }
        next = next.after(entry, active);
    }
    Ok(next)
}

/// Settles one occurrence of an entry, as a grant or as a poll, unless it waits: whether it is settled.
#[inline(always)]
fn settle_one(
    entry: &Entry,
    span: &Span,
    active: bool,
    next: Occurrence,
    board: &mut Board,
    settled: &mut Vec<Settled>,
) -> Result<bool, NoMemory>
    requires len { length board.old.cells ≡ span.now.pace.len }
    requires timed { IsTimed entry.now next }
    requires due { next.ideal < span.now.end }
    ensures one { IfOk result (λ is. OnTrue is
        (spec.settlement span.now.pace span.now.round entry.now active (number_of entry.now next)
        (spec.spot span.now.pace span.now.round entry.now active (number_of entry.now next) board.old)
        ≡ settled_at entry.now active next
        (spec.spot span.now.pace span.now.round entry.now active (number_of entry.now next) board.old) ∷ [])) }
    ensures waits { IfOk result (λ is. OnFalse is
        ((spec.spot span.now.pace span.now.round entry.now active (number_of entry.now next) board.old ≡ None)
        × (is_over span.now.pace span.now.round entry.now (number_of entry.now next) ≡ false))) }
    ensures board { board.new ≡ spec.with_spot entry.now active
        (spec.spot span.now.pace span.now.round entry.now active (number_of entry.now next) board.old) board.old }
    ensures len { length board.new.cells ≡ length board.old.cells }
    ensures told { OnOk result (settled.new.items ≡ settled.old.items ++ map (spec.told_as entry.now)
        (spec.settlement span.now.pace span.now.round entry.now active (number_of entry.now next)
        (spec.spot span.now.pace span.now.round entry.now active (number_of entry.now next) board.old))) }
{
    let found = place(entry, span, active, next, board);
    match told(entry, span, active, next, found) {
        Some(one) => {
            settled.push(one)?;
            Ok(true)
        }
        None => Ok(false),
    }
}

/// How an occurrence is told that is granted at this offset, or nowhere. `None` where it waits.
#[tactic(auto, using(crate::proofs::TimedLemmas::told_facts))]
#[inline(always)]
fn told(
    entry: &Entry,
    span: &Span,
    active: bool,
    next: Occurrence,
    found: Option<u32>,
) -> Option<Settled>
    requires timed { IsTimed entry.now next }
    requires due { next.ideal < span.now.end }
    ensures some { IfSome result (λ one. map (spec.told_as entry.now)
        (spec.settlement span.now.pace span.now.round entry.now active (number_of entry.now next) found) ≡ one ∷ []) }
    ensures one { IfSome result (λ _. spec.settlement span.now.pace span.now.round entry.now active (number_of entry.now next) found
        ≡ settled_at entry.now active next found ∷ []) }
    ensures none { IfNone result
        ((found ≡ None) × (is_over span.now.pace span.now.round entry.now (number_of entry.now next) ≡ false)) }
{
    match found {
        Some(start) => Some(Settled::Granted {
            kind: entry.kind,
            id: entry.id,
            i: next.i,
            k: next.k as u8,
            start,
            slots: entry.slots_of(active),
            owner: entry.owner_of(active),
        }),
        None => {
            if next.ideal + entry.jitter < span.end {
                Some(Settled::Missed {
                    kind: entry.kind,
                    id: entry.id,
                    i: next.i,
                    k: next.k as u8,
                })
            } else {
                None
            }
        }
    }
}
