ghost use Rattle.std.specs.Prelude.{◌≡◌};
ghost use Rattle.us_credit_rules.specs.Ends as spec;

use us_reports::Place;

/// The place of a flow behind the last round, where a test has to pass.
pub(crate) fn unless(holds: bool, rounds: u32, id: u64) -> Option<Place>
    ensures { result ≡ spec.unless holds (spec.end_place rounds id) }
{
    if holds {
        return None;
    }
    Some(Place {
        round: u64::from(rounds),
        channel: 0,
        third: id,
    })
}
