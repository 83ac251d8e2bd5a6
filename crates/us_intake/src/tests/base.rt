ghost use Rattle.std.specs.Prelude.{◌≡◌, ◌≤◌, IfOk};

use crate::{Intake, IntakeFault, Seat};
use std::alloc::Global;
use std::process::Abort;

/// The one assertion of these tests, since each costs the proof of the function that it stands in.
pub(super) fn same(rt: &impl Abort, found: &str, wanted: &str) {
    assert_eq!(rt; found, wanted);
}

/// An intake of 10,000 bytes, with its first seat and one of 4,000 bytes that is split off.
pub(super) fn two_seats(alloc: Global, clusters: u16) -> Result<(Intake, Seat, Seat), IntakeFault>
    requires { (1 ≤ clusters) × (clusters ≤ 2048) }
    ensures own { IfOk result (λ made. (made.1.intake ≡ made.0) × (made.2.intake ≡ made.0)) }
    ensures clusters { IfOk result (λ made. made.0.clusters ≡ clusters) }
{
    let (intake, seat) = Intake::open(alloc, clusters, 10_000)?;
    match intake.split(alloc, seat, 4_000) {
        Ok((first, second)) => Ok((intake, first, second)),
        Err((_, fault)) => Err(fault),
    }
}
