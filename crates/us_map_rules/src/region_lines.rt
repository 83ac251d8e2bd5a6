ghost use Rattle.std.specs.Prelude.{◌≡◌, ◌==◌, ◌<◌, map, option_map, position, length, IfSome};
ghost use Rattle.us_flows.specs.Lawful.{AreApart};
ghost use Rattle.us_lawful.specs.Regions as rule;
ghost use Rattle.us_map_rules.specs.LackedPlaces as places;
ghost use Rattle.us_map_rules.specs.RegionLines as spec;

use crate::regions::Region;
use us_flows::{Channel, Config};
use us_reports::Place;
use us_requests::Trace;
use us_round::{Grant, Row};

/// The round and the channel of a G or M line, as a place.
pub(crate) fn place_told(line: &Row) -> Option<Place>
    ensures { result ≡ places.place_told line.now }
{
    let (round, channel) = match line {
        Row::Granted(grant) => (grant.round, grant.channel),
        Row::Missed(missed) => (missed.round, missed.channel),
        Row::Final(_) | Row::Activity(_) | Row::Counts(_) => return None,
    };
    Some(Place {
        round,
        channel,
        third: 0,
    })
}

/// The number of the MAP that a G line is for, by round and then by channel in table order; `None` of another line, and
/// where the run lacks its round or its channel.
pub fn map_of(config: &Config, trace: &Trace, line: &Row) -> Option<u64>
    ensures { result ≡ option_map (λ one. one.map) (spec.placed_line config.now trace.now.rounds line.now) }
{
    match line {
        Row::Granted(grant) => map_at(config, trace.rounds(), 0, grant.round, grant.channel),
        _ => None,
    }
}

/// The number of the MAP of a round and of the channel with this id, if the run has both. The channel is looked for first
/// in the place `near` of the table.
pub(crate) fn map_at(
    config: &Config,
    rounds: u32,
    near: usize,
    round: u64,
    channel: u64,
) -> Option<u64>
    ensures { result ≡ spec.map_at config.now rounds round channel }
{
    if round >= u64::from(rounds) {
        return None;
    }
    let place = place_near(config.channels(), near, channel)?;
    Some(map_number(config, round, place))
}

/// The place in the table of the channel with this id, looked for first in the place `near`.
fn place_near(channels: &[Channel], near: usize, id: u64) -> Option<usize>
    requires { AreApart (map (λ c. c.id) channels.now) }
    ensures value { result ≡ position (λ channel. channel.id == id) channels.now }
    ensures inside { IfSome result (λ place. place < length channels.now) }
{
    if near < channels.len() && u64::from(channels[near].id) == id {
        return Some(near);
    }
    channels
        .iter()
        .position(|channel| u64::from(channel.id) == id)
}

/// The number of the MAP of a round and of the channel at a place of the table.
fn map_number(config: &Config, round: u64, place: usize) -> u64
    requires round { round < 4294967296 }
    requires place { place < length config.now.channels }
    ensures { result ≡ spec.map_number config.now round place }
{
    round * config.channels().len() as u64 + place as u64
}

/// The minislots of a grant.
pub(crate) fn region_of(grant: &Grant) -> Region
    ensures { result ≡ rule.region_of grant.now }
{
    Region {
        start: grant.start,
        slots: grant.slots,
        sid: grant.sid,
        iuc: grant.iuc,
    }
}
