ghost use Rattle.std.specs.Prelude.{◌≡◌};
ghost use Rattle.us_reports.specs.Order as spec;

use crate::place::Place;
use us_flows::Channel;

/// Whether a place goes before another one: by round; in a round by channel, 0 first, then those of the table in its
/// order, then others by number; and on a channel by the third number.
pub fn goes_before(channels: &[Channel], a: Place, b: Place) -> bool
    ensures { result ≡ spec.goes_before channels.now a b }
{
    if a.round != b.round {
        return a.round < b.round;
    }
    if a.channel != b.channel {
        return rank_goes_before(rank_of(channels, a.channel), rank_of(channels, b.channel));
    }
    a.third < b.third
}

/// Of two places, where there are two, the one that goes before the other; the first one, where neither does.
pub fn earlier(channels: &[Channel], a: Option<Place>, b: Option<Place>) -> Option<Place>
    ensures { result ≡ spec.earlier channels.now a b }
{
    let Some(first) = a else {
        return b;
    };
    match b {
        Some(other) if goes_before(channels, other, first) => b,
        _ => a,
    }
}

/// Whether a rank is below another one.
fn rank_goes_before(a: (u8, u64), b: (u8, u64)) -> bool
    ensures { result ≡ spec.rank_goes_before a b }
{
    if a.0 != b.0 {
        return a.0 < b.0;
    }
    a.1 < b.1
}

/// Where a channel stands in the order, by its id: what kind of id that is, and which of them.
fn rank_of(channels: &[Channel], id: u64) -> (u8, u64)
    ensures { result ≡ spec.rank_of channels.now id }
{
    if id == 0 {
        return (0, 0);
    }
    match place_of(channels, id) {
        Some(place) => (1, place as u64),
        None => (2, id),
    }
}

/// The place in the table of the channel with this id.
fn place_of(channels: &[Channel], id: u64) -> Option<usize>
    ensures { result ≡ spec.place_of channels.now id }
{
    channels
        .iter()
        .position(|channel| u64::from(channel.id) == id)
}
