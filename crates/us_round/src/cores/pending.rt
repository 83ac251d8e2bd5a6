ghost use Rattle.std.specs.Prelude.{◌≡◌, ◌++◌, filter_map, option_to_list, OnOk};
ghost use Rattle.us_round.specs.Cores as spec;

use us_flows::Config;
use us_output::{PendingSid, first_sid_of};
use us_slots::NoMemory;

/// Lists where the turns at these places are pending.
pub(super) fn list_pendings(
    pendings: &mut Vec<PendingSid>,
    config: &Config,
    places: &[u16],
) -> Result<(), NoMemory>
    ensures { OnOk result (pendings.new.items ≡ filter_map (spec.first_sid_at config.now) places.now) }
{
    pendings.clear();
    for place in places {
        list_pending(pendings, config, usize::from(*place))?;
    }
    Ok(())
}

/// Lists where the turn at a place is pending.
fn list_pending(
    pendings: &mut Vec<PendingSid>,
    config: &Config,
    place: usize,
) -> Result<(), NoMemory>
    ensures { OnOk result (pendings.new.items ≡
        pendings.old.items ++ option_to_list (spec.first_sid_at config.now place)) }
{
    if let Some(pending) = first_sid_at(config, place) {
        pendings.push(pending)?;
    }
    Ok(())
}

/// Where the turn at a place is pending, if there is one.
fn first_sid_at(config: &Config, place: usize) -> Option<PendingSid>
    ensures { result ≡ spec.first_sid_at config.now place }
{
    match config.turns().get(place) {
        Some(turn) => first_sid_of(config, turn),
        None => None,
    }
}
