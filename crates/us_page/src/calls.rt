ghost use Rattle.std.specs.Prelude.{◌≡◌, None};
ghost use Rattle.us_page.specs.Calls as spec;
ghost use Rattle.us_page.specs.Runs.{refused_by};

use crate::faults::PageFault;
use crate::hands::Hand;
use crate::runs::Run;
use std::alloc::Global;

/// How a run ended.
#[derive(Clone, Copy, Debug, PartialEq, Eq)]
pub enum Status {
    /// The texts of the schedule stand.
    Given,
    /// Memory was wanting.
    NoMemory,
    /// The configuration has a fault.
    Config,
    /// The number of rounds has a fault, or the trace.
    Replay,
}

impl Status {
    /// Its number.
    pub fn code(self) -> u32
        ensures { result ≡ spec.code_of self }
    {
        match self {
            Status::Given => 0,
            Status::NoMemory => 1,
            Status::Config => 2,
            Status::Replay => 3,
        }
    }
}

impl PageFault {
    /// The status that tells it.
    fn status(self) -> Status
        ensures { result ≡ spec.status_of self }
    {
        match self {
            PageFault::NoMemory => Status::NoMemory,
            PageFault::Config(_) => Status::Config,
            PageFault::Replay(_) => Status::Replay,
        }
    }
}

/// Replays the trace of a text with the configuration of another, for so many rounds. The hand holds the maps file and the
/// report then, or the line of the fault, or nothing where memory is wanting. What it held before is given up first.
#[tactic(auto, using(crate::proofs::CallLemmas::stands_given, crate::proofs::CallLemmas::stands_refused))]
pub fn run(alloc: Global, hand: &mut Hand, config: &[u8], trace: &[u8], rounds: u32) -> Status
    ensures { spec.Stands config.now trace.now rounds result hand.new.held }
{
    drop(hand.take(alloc));
    match Run::of(alloc, config, trace, rounds) {
        Ok(run) => hold(alloc, hand, run, Status::Given),
        Err(fault) => hold_fault(alloc, hand, fault),
    }
}

/// Has a hand that is empty hold a run, and answers this status, unless memory is wanting.
pub(crate) fn hold(alloc: Global, hand: &mut Hand, run: Run, status: Status) -> Status
    requires { hand.old.held ≡ None }
    ensures { spec.IsHeld run status result hand.new.held }
{
    match Box::new(alloc, run) {
        Ok(run) => {
            hand.put(run);
            status
        }
        Err(_) => Status::NoMemory,
    }
}

/// Has a hand that is empty hold the line of a fault.
fn hold_fault(alloc: Global, hand: &mut Hand, fault: PageFault) -> Status
    requires { hand.old.held ≡ None }
    ensures { spec.IsHeldFault fault result hand.new.held }
{
    match fault {
        PageFault::NoMemory => Status::NoMemory,
        PageFault::Config(_) | PageFault::Replay(_) => hold_line(alloc, hand, fault),
    }
}

/// The same of a fault that isn't want of memory.
fn hold_line(alloc: Global, hand: &mut Hand, fault: PageFault) -> Status
    requires { hand.old.held ≡ None }
    ensures { spec.IsHeld (refused_by fault) (spec.status_of fault) result hand.new.held }
{
    match Run::refused(alloc, fault) {
        Ok(run) => hold(alloc, hand, run, fault.status()),
        Err(_) => Status::NoMemory,
    }
}

/// Copies the maps file that a hand holds to a place, as far as there is room, and answers its whole length.
pub fn copy_maps(alloc: Global, hand: &mut Hand, place: &mut [u8]) -> usize
    ensures copied { spec.Copied (spec.maps_of hand.old.held) place.old place.new result }
    ensures held { hand.new.held ≡ hand.old.held }
{
    let Some(run) = hand.take(alloc) else {
        return 0;
    };
    let length = copy(run.maps(), place);
    hand.put(run);
    length
}

/// The same of the report.
pub fn copy_report(alloc: Global, hand: &mut Hand, place: &mut [u8]) -> usize
    ensures copied { spec.Copied (spec.report_of hand.old.held) place.old place.new result }
    ensures held { hand.new.held ≡ hand.old.held }
{
    let Some(run) = hand.take(alloc) else {
        return 0;
    };
    let length = copy(run.report(), place);
    hand.put(run);
    length
}

/// The same of the line of a fault, which has no line feed, or of the lines of errors. Of a hand that holds nothing it is the
/// line of want of memory.
pub fn copy_fault(alloc: Global, hand: &mut Hand, place: &mut [u8]) -> usize
    ensures copied { spec.Copied (spec.line_of hand.old.held) place.old place.new result }
    ensures held { hand.new.held ≡ hand.old.held }
{
    let Some(run) = hand.take(alloc) else {
        return copy(MEMORY_LINE, place);
    };
    let length = copy(run.line(), place);
    hand.put(run);
    length
}

/// Gives up what a hand holds.
pub fn close(alloc: Global, hand: &mut Hand)
    ensures { hand.new.held ≡ None }
{
    drop(hand.take(alloc));
}

/// The line of want of memory, for which no memory is taken.
const MEMORY_LINE: &[u8] = b"fault memory";

/// Copies as much of a text to a place as there is room for, and answers the length of the text.
fn copy(text: &[u8], place: &mut [u8]) -> usize
    ensures { spec.Copied text.now place.old place.new result }
{
    let count = text.len().min(place.len());
    place[..count].copy_from_slice(&text[..count]);
    text.len()
}
