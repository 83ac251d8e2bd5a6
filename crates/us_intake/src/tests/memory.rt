ghost use Rattle.std.specs.Prelude.{◌≡◌};

use super::base::same;
use crate::{Intake, IntakeFault, Seat};
use std::alloc::Global;

/// Submits 500 and 700 bytes by two seats, which are joined.
fn submit_both(alloc: Global, intake: &Intake, seat: Seat) -> Seat
    requires { (seat.intake ≡ intake.now) × (intake.now.clusters ≡ 1) }
    ensures { result.intake ≡ intake.now }
{
    match intake.split(alloc, seat, 4_000) {
        Ok((mut first, mut second)) => {
            let _ = intake.submit(&mut first, 0, 500);
            let _ = intake.submit(&mut second, 0, 700);
            intake.join(first, second)
        }
        Err((seat, _)) => seat,
    }
}

/// Cuts the one cluster twice. None: the seat isn't whole.
fn cut_twice(intake: &Intake, seat: &mut Seat) -> Option<(u64, u64)>
    requires { (seat.old.intake ≡ intake.now) × (intake.now.clusters ≡ 1) }
    ensures { seat.new.intake ≡ intake.now }
{
    let (mut first, mut second) = ([0u64], [0u64]);
    if !seat.is_whole(intake) {
        return None;
    }
    intake.cut(seat, &mut first);
    intake.cut(seat, &mut second);
    Some((first[0], second[0]))
}

/// Whether an intake's life comes to what it has to, or its fault.
fn life(alloc: Global) -> Result<bool, IntakeFault> {
    let (intake, seat) = Intake::open(alloc, 1, 10_000)?;
    let mut seat = submit_both(alloc, &intake, seat);
    let cuts = cut_twice(&intake, &mut seat);
    if !seat.is_whole(&intake) {
        return Ok(false);
    }
    let closing = intake.close(alloc, seat)?;
    let tallies = [&closing.left, &closing.submitted, &closing.taken];
    let found = tallies.map(|tally| tally.first().copied());
    Ok(cuts == Some((1_200, 0)) && found == [Some(0), Some(1_200), Some(1_200)])
}

/// Run by `tools/refuse-memory` too, where each allocation is refused in turn. A refused one is answered as
/// want of memory. A split takes no memory, nor does what stands between opening and closing.
#[test]
fn refused_memory(rt: HostRuntime) {
    match life(rt.alloc()) {
        Ok(true) | Err(IntakeFault::NoMemory) => (),
        Ok(false) => same(&rt, "other bytes", "1,200 bytes, all taken"),
        Err(_) => same(&rt, "another fault", "want of memory"),
    }
}
