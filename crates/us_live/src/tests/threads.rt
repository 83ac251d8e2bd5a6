ghost use Rattle.std.specs.Prelude.{◌≡◌, ◌≤◌};
ghost use Rattle.std.specs.Thread.{IsSync};
ghost use Rattle.us_live.specs.Lives.{Feeds};

use super::base::{BONDED, open, same};
use crate::{Live, LiveFault};
use std::alloc::Global;
use std::sync::Wait;
use std::thread::{Threads, join};
use us_crew::OpenGate;
use us_intake::{Intake, Seat};

/// Submits 1,225 bytes of the first cluster, by many calls.
fn submit_all(intake: &Intake, mut seat: Seat)
    requires own { seat.intake ≡ intake.now }
    requires some { 1 ≤ intake.now.clusters }
{
    for bytes in 0..50u32 {
        let _ = intake.submit(&mut seat, 0, bytes);
    }
}

/// Makes so many rounds.
fn make<R: Threads + Wait + Sync>(
    rt: &R,
    alloc: Global,
    mut live: Live,
    intake: &Intake,
    mut seat: Seat,
    rounds: u32,
) -> (Live, Seat)
    requires { Feeds live intake.now seat }
    ensures { Feeds result.0 intake.now result.1 }
{
    for _ in 0..rounds {
        let _ = live.next_round(rt, alloc, intake, &mut seat, 1, &OpenGate);
    }
    (live, seat)
}

/// How many rounds a log has, and the bytes of the first cluster in it.
fn logged(log: &[Vec<u64>]) -> (u64, u64) {
    let mut sum = 0_u64;
    for cut in log {
        sum = sum.wrapping_add(cut.first().copied().unwrap_or(0));
    }
    (log.len() as u64, sum)
}

/// A round here; then one thread has the scheduler with its seat, and makes rounds while another submits; and one more here
/// once all is submitted. Tells of the log.
fn run<R: Threads + Wait + Sync>(
    rt: &R,
    alloc: Global,
    live: Live,
    intake: &Intake,
    first: Seat,
    second: Seat,
) -> (u64, u64)
    requires feeds { Feeds live intake.now first }
    requires own { second.intake ≡ intake.now }
    requires some { 1 ≤ intake.now.clusters }
{
    let (live, first) = make(rt, alloc, live, intake, first, 1);
    let ((live, first), ()) = join(
        rt,
        move || -> (Live, Seat)
            requires { IsSync R.row × Feeds live intake.now first }
            ensures { Feeds result.0 intake.entry.now result.1 }
        { make(rt, alloc, live, intake, first, 18) },
        move || submit_all(intake, second),
    );
    let (live, _) = make(rt, alloc, live, intake, first, 1);
    logged(live.cut_log())
}

/// The most rounds that a scheduler of rounds of 320 ticks has.
const ROUNDS: u32 = 209_715;

fn life<R: Threads + Wait + Sync>(rt: &R, alloc: Global) -> Result<(u64, u64), LiveFault> {
    let (live, intake, first, second) = open(alloc, 2, BONDED, ROUNDS)?;
    Ok(run(rt, alloc, live, &intake, first, second))
}

/// A scheduler goes to another thread between two rounds, and back. The log has all that a thread submits meanwhile, once.
#[test]
fn schedulers_go_to_threads(rt: HostRuntime) {
    for _ in 0..20 {
        same(&rt, life(&rt, rt.alloc()), Ok((20, 1_225)));
    }
}
