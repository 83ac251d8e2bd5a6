ghost use Rattle.std.specs.Prelude.{◌≡◌};

use super::base::{same, two_seats};
use crate::{Intake, Seat};
use std::alloc::{AllocError, Global};
use std::fmt::Write;

/// Tells of a seat.
fn tell(text: &mut String, seat: &Seat) -> Result<(), AllocError> {
    write!(text, "{}/{} {}, ", seat.spent(), seat.quota(), seat.takes())?;
    Ok(())
}

/// Cuts the one cluster, where the seat takes, and tells what was there.
fn tell_cut(text: &mut String, intake: &Intake, seat: &mut Seat) -> Result<(), AllocError>
    requires { (seat.old.intake ≡ intake.now) × (intake.now.clusters ≡ 1) }
    ensures { seat.new.intake ≡ intake.now }
{
    let mut cuts = [0u64];
    if seat.takes() {
        intake.cut(seat, &mut cuts);
    }
    write!(text, "{}, ", cuts[0])?;
    Ok(())
}

/// Tells what an intake comes to in its first cluster, where the seat is whole.
fn tell_closing(
    alloc: Global,
    text: &mut String,
    intake: Intake,
    seat: Seat,
) -> Result<(), AllocError>
    requires { seat.intake ≡ intake }
{
    if !seat.is_whole(&intake) {
        return Ok(());
    }
    if let Ok(closing) = intake.close(alloc, seat) {
        let (left, submitted, taken) = (&closing.left, &closing.submitted, &closing.taken);
        write!(text, "{left:?} {submitted:?} {taken:?}")?;
    }
    Ok(())
}

/// Two seats submit 500 and 700 bytes and are joined, and the words are cut twice.
fn joined(alloc: Global, text: &mut String) -> Result<(), AllocError> {
    let Ok((intake, mut first, mut second)) = two_seats(alloc, 1) else {
        return Ok(());
    };
    let _ = intake.submit(&mut first, 0, 500);
    let _ = intake.submit(&mut second, 0, 700);
    tell(text, &first)?;
    tell(text, &second)?;
    let mut seat = intake.join(second, first);
    tell(text, &seat)?;
    tell_cut(text, &intake, &mut seat)?;
    tell_cut(text, &intake, &mut seat)?;
    tell_closing(alloc, text, intake, seat)
}

/// The first seat cuts what the second one has submitted.
fn not_joined(alloc: Global, text: &mut String) -> Result<(), AllocError> {
    let Ok((intake, mut first, mut second)) = two_seats(alloc, 1) else {
        return Ok(());
    };
    let _ = intake.submit(&mut second, 0, 500);
    tell_cut(text, &intake, &mut first)?;
    tell_cut(text, &intake, &mut first)
}

#[test]
fn worked_numbers(rt: HostRuntime) -> Result<(), AllocError> {
    let mut text = String::new(rt.alloc());
    joined(rt.alloc(), &mut text)?;
    text.push_str("; ")?;
    not_joined(rt.alloc(), &mut text)?;
    same(
        &rt,
        text.as_str(),
        "500/6000 true, 700/4000 false, 1200/10000 true, 1200, 0, [0] [1200] [1200]; 500, 0, ",
    );
    Ok(())
}
