ghost use Rattle.std.specs.Prelude.{◌≡◌, ◌+◌, ◌^◌, ◌<◌, ◌≤◌, true, nat_le, All, Contains, if◌then◌else◌};
ghost use Rattle.std.specs.List.Sorted.{IsNonDecreasing, IsPermutation};
ghost use Rattle.us_lawful.specs.CalendarLines.{channel_entries};
ghost use Rattle.us_reports.specs.Breaches.{Any, IsFirstFailure};
ghost use Rattle.us_map_rules.specs.Failures as spec;

use crate::listed::ChannelEntry;
use crate::runs::JudgedRun;
use crate::told::OpenLine;
use crate::windows::{closing, ideal};
use us_reports::{Place, earlier};

/// Puts numbers in order. Lines mostly tell them so.
pub(crate) fn put_in_order(numbers: &mut Vec<u64>)
    ensures moved { IsPermutation numbers.old.items numbers.new.items }
    ensures rising { IsNonDecreasing numbers.new.items }
{
    if !numbers.is_sorted() {
        numbers.sort_unstable();
    }
}

/// Where the first occurrence of an entry closes that isn't named once. Of those that come each before `next` is named, and
/// the others are named besides. The windows of an entry close one after another, so that no later one closes in an earlier
/// round.
pub(crate) fn closing_breach(
    run: &JudgedRun<'_>,
    of: &ChannelEntry,
    next: u64,
    others: &[u64],
) -> Option<Place>
    requires entry { Contains (channel_entries run.now.tables) of.now }
    requires rising { IsNonDecreasing others.now }
    ensures { All (λ n. spec.comes_in run.now of.now n ≡ true) others.now →
        IsFirstFailure run.now.tables.channels (spec.ClosingFails run.now of.now (spec.times_named next others.now)) result }
{
    let number = first_wrong(run, of, next, others);
    let of = *of;
    let round = closing(run, &of.entry, ideal(&of.entry, number))?;
    Some(Place {
        round,
        channel: u64::from(of.channel.id),
        third: u64::from(of.entry.id),
    })
}

/// The first line of an open occurrence that another line names too.
pub(crate) fn doubled_breach(
    run: &JudgedRun<'_>,
    next: u64,
    others: &[u64],
    open_lines: &[OpenLine],
) -> Option<Place>
    requires { IsNonDecreasing others.now }
    ensures { IsFirstFailure run.now.tables.channels (Any (spec.OpenFails (spec.times_named next others.now)) open_lines.now) result }
{
    let mut first = None;
    for line in open_lines {
        let breach = unless(is_once(next, others, line.number), line.at);
        first = earlier(run.channels(), first, breach);
    }
    first
}

/// The place of a test, unless it holds.
pub(crate) fn unless(holds: bool, at: Place) -> Option<Place>
    ensures { result ≡ (if holds then None else Some at) }
{
    if holds { None } else { Some(at) }
}

/// Whether a number is named at most once, where each below `next` is named, and the others, which rise, besides.
fn is_once(next: u64, others: &[u64], number: u64) -> bool
    requires { IsNonDecreasing others.now }
    ensures { result ≡ nat_le (spec.times_named next others.now number) 1 }
{
    let first = others.partition_point(|other| *other < number);
    match others.get(first + usize::from(number >= next)) {
        Some(other) => *other != number,
        None => true,
    }
}

/// The number of the first occurrence of an entry that comes and isn't named once.
fn first_wrong(run: &JudgedRun<'_>, of: &ChannelEntry, next: u64, others: &[u64]) -> u128
    requires entry { Contains (channel_entries run.now.tables) of.now }
    requires rising { IsNonDecreasing others.now }
    ensures first { All (λ n. spec.comes_in run.now of.now n ≡ true) others.now →
        spec.IsFirstWrong (spec.comes_in run.now of.now) (spec.times_named next others.now) result }
    ensures few { result < 2 ^ 65 }
{
    let mut at = u128::from(next);
    for number in others {
        let number = u128::from(*number);
        if number < at {
            return number; // it is named twice
        }
        if number > at {
            let due = coming(run, of, at);
            if number > due {
                return due; // it isn't named
            }
        }
        at = number + 1;
    }
    coming(run, of, at)
}

/// The first occurrence of an entry from a number on that comes. All of its interval come while the flow is active, and of
/// the next one the first does.
pub(crate) fn coming(run: &JudgedRun<'_>, of: &ChannelEntry, number: u128) -> u128
    requires entry { Contains (channel_entries run.now.tables) of.now }
    requires few { number ≤ 2 ^ 64 }
    ensures due { spec.IsDue (spec.comes_in run.now of.now) number result }
    ensures few { result < 2 ^ 65 }
{
    let entry = of.entry;
    let grants = u128::from(entry.grants);
    if number % grants == 0 || run.speaks_in(of, ideal(&entry, number)) {
        return number;
    }
    (number / grants + 1) * grants
}
