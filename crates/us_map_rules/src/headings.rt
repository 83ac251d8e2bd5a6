ghost use Rattle.std.specs.Prelude.{◌≡◌, ◌+◌, ◌*◌, ◌≤◌, ◌↔◌, IsTrue, slice_get, Some, true};
ghost use Rattle.us_flows.specs.Tables.{rounds_fit, max_run_ticks};
ghost use Rattle.us_flows.specs.Lawful.{IsChannel};
ghost use Rattle.us_channel.specs.Maps;
ghost use Rattle.us_lawful.specs.Runs.{run_in};
ghost use Rattle.us_lawful.specs.Headings as rule;
ghost use Rattle.us_map_rules.specs.MapsReading.{Answers};
ghost use Rattle.us_map_rules.specs.Headings.{IsOtherWith, heading_read};

use crate::maps_faults::MapsFault;
use crate::maps_reading::{MapHeading, first_heading};
use us_codec::Head;
use us_flows::{Channel, Config};
use us_reports::Place;
use us_requests::Trace;

/// The first MAP of a maps file that doesn't say of itself what the MAP of its number in the run must say, that is missing, or
/// that is one too many. Its number, from 0, is the third number of the place. The error is the first record that is none:
/// one that is cut, or whose body isn't in the grammar. All records are looked at before any MAP is answered.
#[inline(never)]
pub fn headings_breach(
    config: &Config,
    trace: &Trace,
    file: &[u8],
) -> Result<Option<Place>, MapsFault>
    requires { rounds_fit config.now trace.now.rounds ≡ true }
    ensures { Answers (run_in config.now trace.now) file.now result }
{
    let mut number = 0;
    let mut other = None;
    let mut rest = file;
    while !rest.is_empty() {
        let Some((heading, behind)) = first_heading(rest) else {
            return Err(MapsFault {
                record: number as u64,
            });
        };
        other = other_with(other, config, trace, number, &heading);
        number += 1;
        rest = behind;
    }
    if let Some(other) = other {
        return Ok(Some(place_of(other)));
    }
    if number < trace.rounds() as usize * config.channels().len() {
        return Ok(Some(place_of(number)));
    }
    Ok(None)
}

/// The number of the first MAP that isn't that of the run: `other` of the MAPs before this one, or else that of this one.
fn other_with(
    other: Option<usize>,
    config: &Config,
    trace: &Trace,
    number: usize,
    heading: &MapHeading,
) -> Option<usize>
    requires { rounds_fit config.now trace.now.rounds ≡ true }
    ensures { IsOtherWith (run_in config.now trace.now) number (heading_read heading.now) other result }
{
    if other.is_some() {
        return other;
    }
    if is_map_of_run(config, trace, number, heading) {
        None
    } else {
        Some(number)
    }
}

/// The place of the MAP of this number.
fn place_of(number: usize) -> Place
    ensures { result ≡ record { round = 0; channel = 0; third = number } }
{
    Place {
        round: 0,
        channel: 0,
        third: number as u64,
    }
}

/// Whether the run has a MAP of this number, by round and then by channel, and this one says of itself what that must say.
fn is_map_of_run(config: &Config, trace: &Trace, number: usize, heading: &MapHeading) -> bool
    requires { rounds_fit config.now trace.now.rounds ≡ true }
    ensures { IsTrue result ↔
        (slice_get (rule.headings_of (run_in config.now trace.now)) number ≡ Some (heading_read heading.now)) }
{
    let channels = config.channels();
    let round = number / channels.len();
    let channel = &channels[number % channels.len()];
    round < trace.rounds() as usize && is_map_of(config, round as u32, channel, heading)
}

/// Whether a MAP says of itself what that of a channel's round must say.
fn is_map_of(config: &Config, round: u32, channel: &Channel, heading: &MapHeading) -> bool
    requires lawful { IsChannel config.now channel.now }
    requires time { (round + 1) * config.now.round_ticks ≤ max_run_ticks }
    ensures { IsTrue result ↔ (heading_read heading.now ≡ rule.heading_of config.now round channel.now) }
{
    heading.round == round
        && heading.head == head_of(config, round, channel)
        && heading.len == config.map_len(channel)
}

/// What stands before the elements of the MAP of a channel's round.
#[tactic(auto, unfolding(us_channel::specs::Maps::head_of))]
fn head_of(config: &Config, round: u32, channel: &Channel) -> Head
    requires lawful { IsChannel config.now channel.now }
    requires time { (round + 1) * config.now.round_ticks ≤ max_run_ticks }
    ensures { result ≡ Maps.head_of config.now round channel.now }
{
    let start = round * config.round_ticks();
    let [ranging_start, ranging_end] = channel.ranging_backoff;
    let [data_start, data_end] = channel.data_backoff;
    Head {
        channel: channel.id,
        ucd_count: channel.ucd_count,
        alloc_start: round * config.map_len(channel),
        ack: start.saturating_sub(config.lead_ticks()) / channel.bursts.time().minislot_ticks(),
        backoffs: [ranging_start, ranging_end, data_start, data_end],
    }
}
