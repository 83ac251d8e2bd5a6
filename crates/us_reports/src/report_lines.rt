//! Lines of a report, each with its line feed: what is told by the line at a place of a text, and the place behind it. A
//! line feed stands there or behind it. A G line whose front is remembered of the one before is read from behind that, over
//! the row of the one before, whose round and channel are its own.

ghost use Rattle.std.specs.Prelude.{◌≡◌, ◌≢◌, ◌+◌, ◌<◌, ◌≤◌, drop, get_or, length, option_map, IfSome};
ghost use Rattle.us_output.specs.declared.rows.Row.TheVariants as rows;
ghost use Rattle.us_reports.specs.Fronts.{Remembers};
ghost use Rattle.us_reports.specs.ReportReaders as spec;
ghost use Rattle.us_reports.specs.ReportReaders.{HasLineFeed};
ghost use Rattle.us_reports.specs.Reports.{IsLinesEnd};

use crate::report_fields::{after, field, line_feed, units, word};
use crate::report_fronts::Front;
use us_output::{EntryWord, FinalActivity, FinalState, Grant, MissedOccurrence, Row, TraceCounts};

/// A line, whose row is written over another one: a row is large, and so none is copied. `front` is that of the row before,
/// where it is remembered, and becomes that of the new one. The lines of the text end at `end`.
#[inline(always)]
pub(crate) fn line(
    bytes: &[u8],
    end: usize,
    from: usize,
    row: &mut Row,
    front: &mut Option<Front>,
) -> Option<usize>
    requires end { IsLinesEnd bytes.now end }
    requires before { from < end }
    requires front { Remembers front.old row.old }
    ensures read { option_map (λ next. (row.new, drop next bytes.now)) result ≡ spec.row_at (drop from bytes.now) }
    ensures within { IfSome result (λ next. next ≤ length bytes.now) }
    ensures remembered { Remembers front.new row.new }
{
    if let Some(known) = *front {
        if let Some(at) = known.behind(bytes, end, from) {
            if let Row::Granted(grant) = row {
                return grant_tail(bytes, at, grant);
            }
        }
    }
    other_front(bytes, from, row, front)
}

/// The same of a line whose front isn't known.
#[tactic(auto, unfolding(crate::specs::ReportReaders::row_at, crate::specs::ReportReaders::told_by))]
#[inline(never)]
fn other_front(bytes: &[u8], from: usize, row: &mut Row, front: &mut Option<Front>) -> Option<usize>
    requires { HasLineFeed bytes.now from }
    ensures read { option_map (λ next. (row.new, drop next bytes.now)) result ≡ spec.row_at (drop from bytes.now) }
    ensures within { IfSome result (λ next. next ≤ length bytes.now) }
    ensures remembered { Remembers front.new row.new }
{
    *front = None;
    if bytes[from] != b'G' {
        return other_line(bytes, from, row);
    }
    let (grant, remembered, next) = grant(bytes, from)?;
    *row = Row::Granted(grant);
    *front = remembered;
    Some(next)
}

/// The same of a line that is no G line. Most lines are G lines: apart from the others, they make nothing ready for these.
#[tactic(auto, unfolding(crate::specs::ReportReaders::row_at, crate::specs::ReportReaders::told_by))]
#[inline(never)]
fn other_line(bytes: &[u8], from: usize, row: &mut Row) -> Option<usize>
    requires feed { HasLineFeed bytes.now from }
    requires other { get_or bytes.now from 0 ≢ 71 }
    ensures read { option_map (λ next. (row.new, drop next bytes.now)) result ≡ spec.row_at (drop from bytes.now) }
    ensures within { IfSome result (λ next. next ≤ length bytes.now) }
{
    let behind = from + 1;
    match bytes[from] {
        b'M' => {
            let (missed, next) = missed(bytes, behind)?;
            *row = Row::Missed(missed);
            Some(next)
        }
        b'F' => {
            let (state, next) = final_state(bytes, behind)?;
            *row = Row::Final(state);
            Some(next)
        }
        b'A' => {
            let (activity, next) = activity(bytes, behind)?;
            *row = Row::Activity(activity);
            Some(next)
        }
        b'U' => {
            let (counts, next) = counts(bytes, behind)?;
            *row = Row::Counts(counts);
            Some(next)
        }
        _ => None,
    }
}

/// A G line, and its front where that can be remembered.
#[tactic(auto, unfolding(crate::specs::ReportReaders::grant_at))]
fn grant(bytes: &[u8], from: usize) -> Option<(Grant, Option<Front>, usize)>
    requires feed { HasLineFeed bytes.now from }
    requires letter { get_or bytes.now from 0 ≡ 71 }
    ensures read { option_map (λ found. (found.0, drop found.2 bytes.now)) result ≡ spec.grant_at (drop (from + 1) bytes.now) }
    ensures within { IfSome result (λ found. found.2 ≤ length bytes.now) }
    ensures remembered { IfSome result (λ found. Remembers found.1 (rows.Granted found.0)) }
{
    let (round, at) = field(bytes, from + 1)?;
    let (channel, at) = field(bytes, at)?;
    let at = after(b",", bytes, at)?;
    let mut grant = Grant {
        round,
        channel,
        entry: EntryWord::Requested,
        id: 0,
        i: 0,
        k: 0,
        sid: 0,
        iuc: 0,
        start: 0,
        slots: 0,
        credit: 0,
    };
    let next = grant_tail(bytes, at, &mut grant)?;
    Some((grant, Front::between(bytes, from, at), next))
}

/// A G line behind its front, written over another grant of the same round and channel.
#[tactic(auto, unfolding(crate::specs::ReportReaders::tail_at))]
#[inline(always)]
fn grant_tail(bytes: &[u8], from: usize, grant: &mut Grant) -> Option<usize>
    requires { HasLineFeed bytes.now from }
    ensures read { option_map (λ next. (grant.new, drop next bytes.now)) result
        ≡ spec.tail_at grant.old.round grant.old.channel (drop from bytes.now) }
    ensures within { IfSome result (λ next. next ≤ length bytes.now) }
    ensures round { grant.new.round ≡ grant.old.round }
    ensures channel { grant.new.channel ≡ grant.old.channel }
{
    let (entry, at) = word(bytes, from)?;
    grant.entry = entry;
    let (id, at) = field(bytes, at)?;
    grant.id = id;
    let (i, at) = field(bytes, at)?;
    grant.i = i;
    let (k, at) = field(bytes, at)?;
    grant.k = k;
    let (sid, at) = field(bytes, at)?;
    grant.sid = sid;
    let (iuc, at) = field(bytes, at)?;
    grant.iuc = iuc;
    let (start, at) = field(bytes, at)?;
    grant.start = start;
    let (slots, at) = field(bytes, at)?;
    grant.slots = slots;
    let (credit, at) = field(bytes, at)?;
    grant.credit = credit;
    line_feed(bytes, at)
}

/// An M line behind its letter. What is missed is no request.
#[tactic(auto, unfolding(crate::specs::ReportReaders::missed_at))]
fn missed(bytes: &[u8], from: usize) -> Option<(MissedOccurrence, usize)>
    requires { HasLineFeed bytes.now from }
    ensures read { option_map (λ found. (found.0, drop found.1 bytes.now)) result ≡ spec.missed_at (drop from bytes.now) }
    ensures within { IfSome result (λ found. found.1 ≤ length bytes.now) }
{
    let (missed, at) = occurrence(bytes, from)?;
    let at = line_feed(bytes, at)?;
    match missed.entry {
        EntryWord::Requested => None,
        _ => Some((missed, at)),
    }
}

/// What an M line tells before its line feed, behind its letter.
#[tactic(auto, unfolding(crate::specs::ReportReaders::occurrence_at))]
#[inline(always)]
fn occurrence(bytes: &[u8], from: usize) -> Option<(MissedOccurrence, usize)>
    requires { HasLineFeed bytes.now from }
    ensures read { option_map (λ found. (found.0, drop found.1 bytes.now)) result ≡ spec.occurrence_at (drop from bytes.now) }
    ensures feed { IfSome result (λ found. HasLineFeed bytes.now found.1) }
{
    let (round, at) = field(bytes, from)?;
    let (channel, at) = field(bytes, at)?;
    let (entry, at) = word(bytes, after(b",", bytes, at)?)?;
    let (id, at) = field(bytes, at)?;
    let (i, at) = field(bytes, at)?;
    let (k, at) = field(bytes, at)?;
    let occurrence = MissedOccurrence {
        round,
        channel,
        entry,
        id,
        i,
        k,
    };
    Some((occurrence, at))
}

/// An F line behind its letter.
#[tactic(auto, unfolding(crate::specs::ReportReaders::final_at))]
fn final_state(bytes: &[u8], from: usize) -> Option<(FinalState, usize)>
    requires { HasLineFeed bytes.now from }
    ensures read { option_map (λ found. (found.0, drop found.1 bytes.now)) result ≡ spec.final_at (drop from bytes.now) }
    ensures within { IfSome result (λ found. found.1 ≤ length bytes.now) }
{
    let (flow, at) = field(bytes, from)?;
    let (cluster, at) = field(bytes, at)?;
    let (outstanding, at) = field(bytes, at)?;
    let (units, at) = units(bytes, after(b",", bytes, at)?)?;
    let at = line_feed(bytes, at)?;
    let state = FinalState {
        flow,
        cluster,
        outstanding,
        units,
    };
    Some((state, at))
}

/// An A line behind its letter.
#[tactic(auto, unfolding(crate::specs::ReportReaders::activity_at))]
fn activity(bytes: &[u8], from: usize) -> Option<(FinalActivity, usize)>
    requires { HasLineFeed bytes.now from }
    ensures read { option_map (λ found. (found.0, drop found.1 bytes.now)) result ≡ spec.activity_at (drop from bytes.now) }
    ensures within { IfSome result (λ found. found.1 ≤ length bytes.now) }
{
    let (flow, at) = field(bytes, from)?;
    let (active, at) = field(bytes, at)?;
    let at = line_feed(bytes, at)?;
    Some((FinalActivity { flow, active }, at))
}

/// A U line behind its letter.
#[tactic(auto, unfolding(crate::specs::ReportReaders::counts_at))]
fn counts(bytes: &[u8], from: usize) -> Option<(TraceCounts, usize)>
    requires { HasLineFeed bytes.now from }
    ensures read { option_map (λ found. (found.0, drop found.1 bytes.now)) result ≡ spec.counts_at (drop from bytes.now) }
    ensures within { IfSome result (λ found. found.1 ≤ length bytes.now) }
{
    let (unknown, at) = field(bytes, from)?;
    let (not_requestable, at) = field(bytes, at)?;
    let (late, at) = field(bytes, at)?;
    let at = line_feed(bytes, at)?;
    let counts = TraceCounts {
        unknown,
        not_requestable,
        late,
    };
    Some((counts, at))
}
