ghost use Rattle.std.specs.Prelude.{◌≡◌, true, IfOk};
ghost use Rattle.us_lawful.specs.Runs.{Judged, run_in};
ghost use Rattle.us_lawful.specs.Finals.{activities_hold, is_same_activity};
ghost use Rattle.us_reports.specs.Breaches.{IsFirstBreach};
ghost use Rattle.us_credit_rules.specs.Activities as spec;
ghost use Rattle.us_credit_rules.specs.CreditLines.{AreKept};
ghost use Rattle.us_credit_rules.specs.Ends.{first_of};
ghost use Rattle.us_credit_rules.specs.Tellings.{is_once};

use crate::credit_lines::CreditLines;
use crate::ends::unless;
use crate::talkers::{Talker, Talkers, line_of};
use crate::told::Told;
use std::alloc::Global;
use us_activity::Activities;
use us_flows::{Channel, Config};
use us_reports::{Place, earlier};
use us_requests::Trace;
use us_round::FinalActivity;
use us_slots::NoMemory;

/// Where the A lines first fail: one of a flow that doesn't tell its activity, or such a flow without one, with several, or
/// with one that tells something else than its last mark says. The round of a place is that behind the last one, its channel
/// 0, and its third number the id of a flow.
pub fn activities_breach(
    alloc: Global,
    config: &Config,
    trace: &Trace,
    lines: &CreditLines,
) -> Result<Option<Place>, NoMemory>
    ensures { IfOk result (λ first. (judged : Judged) → AreKept config.now trace.now judged.lines lines.now →
        IsFirstBreach config.now.channels (λ p. activities_hold (run_in config.now trace.now) judged p ≡ true) first) }
{
    let activities = Activities::of(alloc, config, trace)?;
    let talkers = &lines.talkers;
    let untold = first_untold(config.channels(), &activities, trace.rounds(), talkers);
    Ok(earlier(config.channels(), talkers.told.strange, untold))
}

/// Where a flow first has not its own A line.
fn first_untold(
    channels: &[Channel],
    activities: &Activities,
    rounds: u32,
    talkers: &Talkers,
) -> Option<Place>
    ensures { result ≡ first_of channels.now
        (spec.talker_place activities.now rounds talkers.now.told.told.items) talkers.now.all.items }
{
    let mut first = None;
    for talker in &talkers.all {
        first = earlier(
            channels,
            first,
            untold_place(activities, rounds, talkers, talker),
        );
    }
    first
}

/// The place of a flow that has not its own A line.
fn untold_place(
    activities: &Activities,
    rounds: u32,
    talkers: &Talkers,
    talker: &Talker,
) -> Option<Place>
    ensures { result ≡ spec.talker_place activities.now rounds talkers.now.told.told.items talker.now }
{
    let told = talkers.told.of(usize::from(talker.id()));
    let right = is_told(told, line_of(activities, rounds, talker));
    unless(right, rounds, u64::from(talker.id()))
}

/// Whether what is told is this, once.
fn is_told(told: Told<FinalActivity>, activity: FinalActivity) -> bool
    ensures { result ≡ is_once (is_same_activity activity) told }
{
    match told {
        Told::Once(line) => activity == line,
        Told::Nothing | Told::Several => false,
    }
}
