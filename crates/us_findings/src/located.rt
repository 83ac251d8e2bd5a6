use crate::drafts::Draft;
use crate::findings::{Finding, Source, What, by_place};
use crate::lines::line_and_column;
use crate::lists::Drafts;
use crate::sentences::Sentence;
use crate::shown::Shown;
use crate::spots::Spot;
use crate::values::{amiss, kind_of};
use crate::walks::spots_of;
use std::alloc::Global;
use us_slots::NoMemory;

/// Findings of a configuration, by their lines. All are looked for in one walk over the text.
pub(crate) fn located(
    alloc: Global,
    text: &[u8],
    drafts: &Drafts<'_>,
) -> Result<Vec<Finding>, NoMemory> {
    if drafts.lacks_memory {
        return Err(NoMemory);
    }
    let spots = spots_of(alloc, str::from_utf8(text).unwrap_or(""), &drafts.paths)?;
    findings_at(alloc, text, &drafts.kept, &spots)
}

/// Findings at these places, in the order of the text. Those at one place stay in their order.
fn findings_at(
    alloc: Global,
    text: &[u8],
    drafts: &[Draft<'_>],
    spots: &[Spot],
) -> Result<Vec<Finding>, NoMemory> {
    let other = spot_at(spots, drafts.len());
    let mut findings = Vec::new(alloc);
    for (place, draft) in drafts.iter().enumerate() {
        add_finding(
            &mut findings,
            alloc,
            text,
            spot_at(spots, place),
            draft,
            other,
        )?;
    }
    by_place(&mut findings)?;
    Ok(findings)
}

/// The spot at a place among these.
fn spot_at(spots: &[Spot], place: usize) -> Spot {
    spots.get(place).copied().unwrap_or(Spot::of(0))
}

/// Adds a finding at a place.
fn add_finding(
    findings: &mut Vec<Finding>,
    alloc: Global,
    text: &[u8],
    spot: Spot,
    draft: &Draft<'_>,
    other: Spot,
) -> Result<(), NoMemory> {
    let (line, column) = line_and_column(text, spot.at.min(text.len()));
    let (comma, value, words) = behind(text, spot, draft, other);
    Ok(findings.push(Finding {
        source: Source::Config,
        what: What::Config(draft.fault),
        line,
        column,
        text: format!(in alloc; "{draft}{comma}{value}{words}")?,
    })?)
}

/// What stands behind the problem: the value with what is wrong with it, or the line of the other key.
fn behind<'a>(
    text: &'a [u8],
    spot: Spot,
    draft: &Draft<'_>,
    other: Spot,
) -> (&'static str, Shown<'a>, Sentence) {
    let Some((rule, value)) = draft.value else {
        return ("", Shown(b""), beside(text, draft, other));
    };
    // What stands at several places has no place in the text.
    let shown = match text.get(spot.from..spot.to).unwrap_or(&[]) {
        [] => kind_of(value).as_bytes(),
        written => written,
    };
    (", ", Shown(shown), amiss(rule, value))
}

/// The line of the key of another table, if a finding names one.
fn beside(text: &[u8], draft: &Draft<'_>, other: Spot) -> Sentence {
    if draft.other.is_none() {
        return Sentence::plain("");
    }
    let (line, _) = line_and_column(text, other.at.min(text.len()));
    Sentence::of(", in line #", line as u64)
}
