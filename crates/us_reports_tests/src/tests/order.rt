use super::base::{same, two_channels};
use us_flows::Channel;
use us_reports::{Place, earlier, goes_before};

/// A round, a channel and a third number.
type At = (u64, u64, u64);

/// Places, each of which goes before all behind it: by round; in a round 0, the channels 5 and 2 of the table, and then
/// those that it lacks, by number; on one channel by the third number.
static IN_ORDER: [At; 14] = [
    (0, 0, 0),
    (0, 0, u64::MAX),
    (0, 5, 0),
    (0, 5, 1),
    (0, 2, 0),
    (0, 2, 4_095),
    (0, 1, 7),
    (0, 4, 0),
    (0, 261, 0),
    (0, u64::MAX, 3),
    (1, 0, 0),
    (2, 2, 9),
    (2, 7, 0),
    (u64::MAX, 5, 0),
];

fn place_of(at: &At) -> Place {
    Place {
        round: at.0,
        channel: at.1,
        third: at.2,
    }
}

/// The first two of the places that aren't told in this order: their indices.
fn first_wrong(channels: &[Channel]) -> Option<(usize, usize)> {
    for (i, a) in IN_ORDER.iter().enumerate() {
        for (j, b) in IN_ORDER.iter().enumerate() {
            if goes_before(channels, place_of(a), place_of(b)) != (i < j) {
                return Some((i, j));
            }
        }
    }
    None
}

/// The first two of the places of which `earlier` answers another one than that which stands first.
fn first_other(channels: &[Channel]) -> Option<(usize, usize)> {
    for (i, a) in IN_ORDER.iter().enumerate() {
        for (j, b) in IN_ORDER.iter().enumerate() {
            let wanted = place_of(if i < j { a } else { b });
            if earlier(channels, Some(place_of(a)), Some(place_of(b))) != Some(wanted) {
                return Some((i, j));
            }
        }
    }
    None
}

#[test]
fn order(rt: HostRuntime) {
    let config = two_channels(rt.alloc());
    let found = config.as_ref().map(|config| (
        first_wrong(config.channels()),
        first_other(config.channels()),
    ));
    same(&rt, &found, &Some((None, None)), "order");
}

/// Of one place that is answered, and of none none.
#[test]
fn of_one(rt: HostRuntime) {
    let place = place_of(&IN_ORDER[2]);
    let found = (
        earlier(&[], None, Some(place)),
        earlier(&[], Some(place), None),
        earlier(&[], None, None),
    );
    same(&rt, &found, &(Some(place), Some(place), None), "of one");
}
