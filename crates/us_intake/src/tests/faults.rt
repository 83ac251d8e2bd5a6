ghost use Rattle.std.specs.Prelude.{◌≡◌, ◌<◌, IfOk};

use super::base::{same, two_seats};
use crate::{Intake, IntakeFault, Seat};
use std::alloc::{AllocError, Global};
use std::fmt::Write;

/// Tells whether bytes are submitted to the first cluster, or why not.
fn tell_submit(
    text: &mut String,
    intake: &Intake,
    seat: &mut Seat,
    bytes: u32,
) -> Result<(), AllocError>
    requires { (seat.old.intake ≡ intake.now) × (0 < intake.now.clusters) }
    ensures { seat.new.intake ≡ intake.now }
{
    match intake.submit(seat, 0, bytes) {
        Ok(()) => write!(text, "submitted {bytes}\n")?,
        Err(fault) => write!(text, "{fault}\n")?,
    }
    Ok(())
}

/// Splits a seat, and tells why not. The seat that is left is answered, or the one that came back.
fn tell_split(
    alloc: Global,
    text: &mut String,
    intake: &Intake,
    seat: Seat,
    quota: u64,
) -> Result<Seat, AllocError>
    requires { seat.intake ≡ intake.now }
    ensures { IfOk result (λ left. left.intake ≡ intake.now) }
{
    match intake.split(alloc, seat, quota) {
        Ok((first, _)) => Ok(first),
        Err((seat, fault)) => {
            write!(text, "{fault}\n")?;
            Ok(seat)
        }
    }
}

/// A seat of 4,000 bytes submits one more, and then all.
fn over_quota(alloc: Global, text: &mut String) -> Result<(), AllocError> {
    if let Ok((intake, _, mut second)) = two_seats(alloc, 1) {
        tell_submit(text, &intake, &mut second, 4_001)?;
        tell_submit(text, &intake, &mut second, 4_000)?;
        tell_submit(text, &intake, &mut second, 1)?;
    }
    Ok(())
}

/// Splits that can't be, after each of which the seat is as it was.
fn bad_splits(alloc: Global, text: &mut String) -> Result<(), AllocError> {
    if let Ok((intake, seat)) = Intake::open(alloc, 1, 10_000) {
        let seat = tell_split(alloc, text, &intake, seat, 0)?;
        let mut seat = tell_split(alloc, text, &intake, seat, 10_000)?;
        tell_submit(text, &intake, &mut seat, 7_000)?;
        let mut seat = tell_split(alloc, text, &intake, seat, 3_001)?;
        tell_submit(text, &intake, &mut seat, 3_000)?;
    }
    Ok(())
}

/// Quotas of no intake, and the greatest one.
fn bad_quotas(alloc: Global, text: &mut String) -> Result<(), AllocError> {
    for quota in [0, 1 << 62, (1 << 62) - 1] {
        match Intake::open(alloc, 2_048, quota) {
            Ok(_) => write!(text, "opened\n")?,
            Err(fault) => write!(text, "{fault}\n")?,
        }
    }
    write!(text, "{}", IntakeFault::NoMemory)?;
    Ok(())
}

#[test]
fn texts(rt: HostRuntime) -> Result<(), AllocError> {
    let mut text = String::new(rt.alloc());
    over_quota(rt.alloc(), &mut text)?;
    bad_splits(rt.alloc(), &mut text)?;
    bad_quotas(rt.alloc(), &mut text)?;
    same(&rt, text.as_str(), TEXTS);
    Ok(())
}

const TEXTS: &str = "\
I1: the bytes are over what the seat's quota leaves
submitted 4000
I1: the bytes are over what the seat's quota leaves
I2: the quota is none that can be given
I2: the quota is none that can be given
submitted 7000
I2: the quota is none that can be given
submitted 3000
I2: the quota is none that can be given
I2: the quota is none that can be given
opened
I3: out of memory";
