//! Two threads submit requests while a third makes rounds of them: a program to copy.
//!
//! It reads a configuration from standard input, and prints how many bytes were submitted to its first cluster, and how
//! many of them were cut by the rounds or are left. Which round finds which request differs from run to run; what is
//! printed does not.
#![tactic(auto)]

ghost use Rattle.std.specs.Prelude.{◌≡◌, ◌≤◌, IfOk};
ghost use Rattle.std.specs.Thread.{IsSync};
ghost use Rattle.us_intake.specs.Seats.{seat_after_split};
ghost use Rattle.us_live.specs.Lives.{Feeds};

use std::alloc::Global;
use std::io::Read;
use std::sync::Wait;
use std::thread::{Threads, join};
use us_crew::OpenGate;
use us_flows::Config;
use us_intake::{Intake, IntakeFault, Seat};
use us_live::Live;

const ROUNDS: u32 = 20;

/// All that may ever be submitted, and what each of the two threads may, in bytes.
const QUOTA: u64 = 10_000;

const QUOTA_OF_THREAD: u64 = 3_000;

fn main(rt: HostRuntime) -> anyhow::Result<()> {
    let mut text = Vec::new(rt.alloc());
    rt.stdin().read_to_end(&mut text)?;
    let config = Config::read(rt.alloc(), &text)?;
    let (live, intake, seat) = Live::open(rt.alloc(), config, ROUNDS, QUOTA)?;
    let (seat, first) = split(rt.alloc(), &intake, seat)?;
    let (seat, second) = split(rt.alloc(), &intake, seat)?;
    let (live, seat) = run(&rt, rt.alloc(), &intake, live, seat, first, second);
    // Every seat was joined into this one, so that nobody can submit any more.
    if seat.is_whole(&intake) {
        let closed = intake.close(rt.alloc(), seat)?;
        let found = first_cluster(live.cut_log()).wrapping_add(of_first(&closed.left));
        println!(rt; "{} rounds", live.cut_log().len())?;
        println!(rt;
            "{} bytes submitted, {found} cut or left",
            of_first(&closed.submitted)
        )?;
    }
    Ok(())
}

/// Splits a seat for one more thread off.
fn split(alloc: Global, intake: &Intake, seat: Seat) -> Result<(Seat, Seat), IntakeFault>
    requires { seat.intake ≡ intake.now }
    ensures rest { IfOk result (λ both. both.0 ≡ seat_after_split seat QUOTA_OF_THREAD) }
    ensures own { IfOk result (λ both. both.1.intake ≡ intake.now) }
{
    match intake.split(alloc, seat, QUOTA_OF_THREAD) {
        Ok(both) => Ok(both),
        Err((_, fault)) => Err(fault),
    }
}

/// Makes all rounds in this thread, while two others submit. In the end all seats are one again.
fn run<R: Threads + Wait + Sync>(
    rt: &R,
    alloc: Global,
    intake: &Intake,
    live: Live,
    seat: Seat,
    first: Seat,
    second: Seat,
) -> (Live, Seat)
    requires feeds { Feeds live intake.now seat }
    requires own { (first.intake ≡ intake.now) × (second.intake ≡ intake.now) }
    requires some { 1 ≤ intake.now.clusters }
    ensures { result.1.intake ≡ intake.now }
{
    let ((first, second), (live, seat)) = join(
        rt,
        move || -> (Seat, Seat)
            requires { IsSync R.row × (first.intake ≡ intake.now) × (second.intake ≡ intake.now)
                × (1 ≤ intake.now.clusters) }
            ensures { (result.0.intake ≡ intake.entry.now) × (result.1.intake ≡ intake.entry.now) }
        {
            join(
                rt,
                move || submit_all(intake, first),
                move || submit_all(intake, second),
            )
        },
        move || -> (Live, Seat)
            requires { IsSync R.row × Feeds live intake.now seat }
            ensures { Feeds result.0 intake.entry.now result.1 }
        { make_rounds(rt, alloc, intake, live, seat) },
    );
    (live, intake.join(intake.join(seat, first), second))
}

/// Makes all rounds, by two workers.
fn make_rounds<R: Threads + Wait + Sync>(
    rt: &R,
    alloc: Global,
    intake: &Intake,
    mut live: Live,
    mut seat: Seat,
) -> (Live, Seat)
    requires { Feeds live intake.now seat }
    ensures { Feeds result.0 intake.now result.1 }
{
    for _ in 0..ROUNDS {
        // Here a CMTS would wait until the round is due, and send the MAPs of the answer to the modems. A fault here is
        // want of memory, and then no round is made any more.
        if live
            .next_round(rt, alloc, intake, &mut seat, 2, &OpenGate)
            .is_err()
        {
            break;
        }
    }
    (live, seat)
}

/// Submits the requests of one thread, 1,225 bytes in all.
fn submit_all(intake: &Intake, mut seat: Seat) -> Seat
    requires { (seat.intake ≡ intake.now) × (1 ≤ intake.now.clusters) }
    ensures { result.intake ≡ intake.now }
{
    for bytes in 0..50 {
        // The seat's quota allows all of them.
        let _ = intake.submit(&mut seat, 0, bytes);
    }
    seat
}

/// The bytes of the first cluster that the rounds cut.
fn first_cluster(log: &[Vec<u64>]) -> u64 {
    let mut sum: u64 = 0;
    for cut in log {
        sum = sum.wrapping_add(of_first(cut));
    }
    sum
}

/// The bytes of the first cluster.
fn of_first(bytes: &[u64]) -> u64 {
    bytes.first().copied().unwrap_or(0)
}
