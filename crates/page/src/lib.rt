//! The scheduler as a module for web pages: each export is a call of `us_page`, and states its clause again.
//!
//! A hand is 16 bytes that are 0 at first. A text is its place and its length; of an empty one the place is not null either.
#![tactic(auto)]

ghost use Rattle.std.specs.Prelude.{◌≡◌, None};
ghost use Rattle.us_page.specs.Calls as spec;
ghost use Rattle.us_page.specs.Lints as lint_spec;

use std::alloc::Global;
use us_page::{Hand, close, copy_fault, copy_maps, copy_report, lint, run};

/// Replays the trace of a text with the configuration of another, for so many rounds. Status 0: the hand holds the maps file
/// and the report of the schedule; 1: nothing, since memory was wanting; 2: the line of the configuration's fault; 3: that of
/// the fault of the rounds or of the trace.
#[unsafe(no_mangle)]
pub extern "C" fn page_run(
    alloc: Global,
    hand: &mut Hand,
    config: &[u8],
    trace: &[u8],
    rounds: u32,
) -> u32
    ensures { spec.StandsAs config.now trace.now rounds result hand.new.held }
{
    run(alloc, hand, config, trace, rounds).code()
}

/// Has a hand hold the errors of two texts, a line each. Status 0: neither has one; 1: memory was wanting; 2: those of the
/// configuration; 3: those of the trace. `page_fault` copies the lines.
#[unsafe(no_mangle)]
pub extern "C" fn page_lint(alloc: Global, hand: &mut Hand, config: &[u8], trace: &[u8]) -> u32
    ensures { lint_spec.LintedAs config.now trace.now result hand.new.held }
{
    lint(alloc, hand, config, trace).code()
}

/// Copies the maps file that a hand holds to a place, as far as there is room, and answers its whole length.
#[unsafe(no_mangle)]
pub extern "C" fn page_maps(alloc: Global, hand: &mut Hand, place: &mut [u8]) -> usize
    ensures copied { spec.Copied (spec.maps_of hand.old.held) place.old place.new result }
    ensures held { hand.new.held ≡ hand.old.held }
{
    copy_maps(alloc, hand, place)
}

/// The same of the report.
#[unsafe(no_mangle)]
pub extern "C" fn page_report(alloc: Global, hand: &mut Hand, place: &mut [u8]) -> usize
    ensures copied { spec.Copied (spec.report_of hand.old.held) place.old place.new result }
    ensures held { hand.new.held ≡ hand.old.held }
{
    copy_report(alloc, hand, place)
}

/// The same of the line of a fault, which has no line feed, or of the lines of errors. Of a hand that holds nothing it is the
/// line of want of memory.
#[unsafe(no_mangle)]
pub extern "C" fn page_fault(alloc: Global, hand: &mut Hand, place: &mut [u8]) -> usize
    ensures copied { spec.Copied (spec.line_of hand.old.held) place.old place.new result }
    ensures held { hand.new.held ≡ hand.old.held }
{
    copy_fault(alloc, hand, place)
}

/// Gives up what a hand holds: it is as at first then.
#[unsafe(no_mangle)]
pub extern "C" fn page_close(alloc: Global, hand: &mut Hand)
    ensures { hand.new.held ≡ None }
{
    close(alloc, hand)
}
