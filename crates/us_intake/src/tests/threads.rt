ghost use Rattle.std.specs.Prelude.{◌≡◌};
ghost use Rattle.std.specs.Thread.{IsSync};

use super::base::{same, two_seats};
use crate::{Closing, Intake, Seat};
use std::alloc::Global;
use std::thread::{Threads, join};

/// Submits bytes to both clusters, many times.
fn submit_all(intake: &Intake, mut seat: Seat) -> Seat
    requires { (seat.intake ≡ intake.now) × (intake.now.clusters ≡ 2) }
    ensures { result.intake ≡ intake.now }
{
    for bytes in 0..50u32 {
        let _ = intake.submit(&mut seat, 0, bytes);
        let _ = intake.submit(&mut seat, 1, 1);
    }
    seat
}

/// Cuts many times, where the seat takes.
fn cut_all(intake: &Intake, mut seat: Seat) -> Seat
    requires { (seat.intake ≡ intake.now) × (intake.now.clusters ≡ 2) }
    ensures { result.intake ≡ intake.now }
{
    for _ in 0..100 {
        let mut cuts = [0u64; 2];
        if seat.takes() {
            intake.cut(&mut seat, &mut cuts);
        }
    }
    seat
}

/// Two threads submit.
fn submit_both<R: Threads + Sync>(
    rt: &R,
    intake: &Intake,
    second: Seat,
    third: Seat,
) -> (Seat, Seat)
    requires { (second.intake ≡ intake.now) × (third.intake ≡ intake.now) × (intake.now.clusters ≡ 2) }
    ensures { (result.0.intake ≡ intake.now) × (result.1.intake ≡ intake.now) }
{
    join(
        rt,
        move || submit_all(intake, second),
        move || submit_all(intake, third),
    )
}

/// One thread cuts while two others submit.
fn run<R: Threads + Sync>(rt: &R, intake: &Intake, first: Seat, second: Seat, third: Seat) -> Seat
    requires own { (first.intake ≡ intake.now) × (second.intake ≡ intake.now) × (third.intake ≡ intake.now) }
    requires clusters { intake.now.clusters ≡ 2 }
    ensures { result.intake ≡ intake.now }
{
    let (first, (second, third)) = join(
        rt,
        move || cut_all(intake, first),
        move || -> (Seat, Seat)
            requires { IsSync R.row × (second.intake ≡ intake.now) × (third.intake ≡ intake.now)
                × (intake.now.clusters ≡ 2) }
            ensures { (result.0.intake ≡ intake.entry.now) × (result.1.intake ≡ intake.entry.now) }
        { submit_both(rt, intake, second, third) },
    );
    intake.join(intake.join(first, second), third)
}

/// Whether what is left and what was taken are what was submitted.
fn is_balanced(closing: &Closing) -> bool {
    let found = closing
        .left
        .iter()
        .zip(closing.taken.iter())
        .map(|(left, taken)| left.wrapping_add(*taken));
    found.eq(closing.submitted.iter().copied())
}

/// Whether an intake balances in the end, and was told of all that two threads submit.
fn balances<R: Threads + Sync>(rt: &R, alloc: Global) -> Option<bool> {
    let (intake, first, second) = two_seats(alloc, 2).ok()?;
    let (second, third) = intake.split(alloc, second, 2_000).ok()?;
    let seat = run(rt, &intake, first, second, third);
    if !seat.is_whole(&intake) {
        return Some(false);
    }
    let closing = intake.close(alloc, seat).ok()?;
    Some(is_balanced(&closing) && closing.submitted.as_slice() == [2_450, 100].as_slice())
}

#[test]
fn threads_balance(rt: HostRuntime) {
    for _ in 0..20 {
        if balances(&rt, rt.alloc()) != Some(true) {
            same(&rt, "lost or counted twice", "balanced");
        }
    }
}
