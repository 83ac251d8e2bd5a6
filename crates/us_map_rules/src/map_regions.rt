ghost use Rattle.std.specs.Prelude.{◌≡◌, ◌++◌, IfOk, OnOk, option_to_list};
ghost use Rattle.us_codec.specs.Faults.{elements_at};
ghost use Rattle.us_flows.specs.Lawful.{IsChannel};
ghost use Rattle.us_flows.specs.Tables.{map_len};
ghost use Rattle.us_lawful.specs.Regions as rule;
ghost use Rattle.us_lawful.specs.Regions.{element_regions, minislot_holds, reserve_regions};
ghost use Rattle.us_map_rules.specs.Minislots.{AreSideBySide, IsFirstFailing};
ghost use Rattle.us_map_rules.specs.Gathered.{IsFirstWith, number_holds};
ghost use Rattle.us_map_rules.specs.MapRegions as spec;

use crate::minislots::first_failing;
use crate::regions::{BROADCAST, INITIAL_MAINTENANCE, REQUEST, Region};
use us_flows::{Channel, Config};
use us_slots::NoMemory;

/// Keeps the first minislot that isn't what it must be, as the number of its MAP and the minislot: `first` of the MAPs before
/// this one, or else that of this one. `regions` are those of its lines, to which others may be put, and `elements` the bytes
/// of its elements.
pub(crate) fn keep_first(
    first: &mut Option<(u64, u64)>,
    config: &Config,
    number: u64,
    regions: &mut Vec<Region>,
    elements: &[u8],
) -> Result<(), NoMemory>
    ensures { OnOk result (AreSideBySide 0 (element_regions (elements_at elements.now)) →
        IsFirstWith (number_holds config.now number regions.old.items (element_regions (elements_at elements.now)))
        number first.old first.new) }
{
    if first.is_some() {
        return Ok(());
    }
    if let Some(third) = number_failing(config, number, regions, elements)? {
        *first = Some((number, third));
    }
    Ok(())
}

/// The first minislot of the MAP of this number that isn't what it must be.
fn number_failing(
    config: &Config,
    number: u64,
    regions: &mut Vec<Region>,
    elements: &[u8],
) -> Result<Option<u64>, NoMemory>
    ensures { IfOk result (λ first. AreSideBySide 0 (element_regions (elements_at elements.now)) →
        IsFirstFailing (number_holds config.now number regions.old.items (element_regions (elements_at elements.now))) first) }
{
    let channels = config.channels();
    let count = channels.len() as u64;
    let channel = &channels[(number % count) as usize];
    map_failing(config, channel, number / count, regions, elements)
}

/// The first such minislot of the MAP of a round and channel.
fn map_failing(
    config: &Config,
    channel: &Channel,
    round: u64,
    regions: &mut Vec<Region>,
    elements: &[u8],
) -> Result<Option<u64>, NoMemory>
    requires { IsChannel config.now channel.now }
    ensures { IfOk result (λ first. AreSideBySide 0 (element_regions (elements_at elements.now)) →
        IsFirstFailing (minislot_holds channel.now (map_len config.now channel.now)
        (reserve_regions config.now round channel.now ++ regions.old.items) (element_regions (elements_at elements.now))) first) }
{
    put_reserves(regions, config, channel, round)?;
    let len = u64::from(config.map_len(channel));
    first_failing(channel, len, regions, elements)
}

/// Puts the reserves where they stand in lawful MAPs: maintenance before the lines, and contention behind them.
fn put_reserves(
    regions: &mut Vec<Region>,
    config: &Config,
    channel: &Channel,
    round: u64,
) -> Result<(), NoMemory>
    requires { IsChannel config.now channel.now }
    ensures { OnOk result (regions.new.items ≡
        spec.maintenance_region round channel.now ++ regions.old.items ++ spec.contention_region config.now channel.now) }
{
    let slots = channel.contention_minislots;
    let start = u64::from(config.map_len(channel)).saturating_sub(u64::from(slots));
    if let Some(contention) = reserve(start, slots, REQUEST) {
        regions.push(contention)?;
    }
    if round.is_multiple_of(u64::from(channel.maintenance_every))
        && let Some(maintenance) = reserve(0, channel.maintenance_minislots, INITIAL_MAINTENANCE)
    {
        regions.insert(0, maintenance)?;
    }
    Ok(())
}

/// A reserve, if it has a minislot.
fn reserve(start: u64, slots: u16, iuc: u64) -> Option<Region>
    ensures { option_to_list result ≡ rule.reserve_region start slots iuc }
{
    if slots == 0 {
        return None;
    }
    Some(Region {
        start,
        slots: u64::from(slots),
        sid: BROADCAST,
        iuc,
    })
}
