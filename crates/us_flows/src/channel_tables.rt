ghost use Rattle.std.specs.Prelude.{◌≡◌, ◌+◌, ◌*◌, ◌<◌, ◌≤◌, ◌++◌, ◌^◌, nat_lt, codes, length, Some, SomeIff, IfOk, IfErr, IfNone, false};
ghost use Rattle.toml.specs.Data.{item, no_items};
ghost use Rattle.toml.specs.View.{view, table_view, items_view};
ghost use Rattle.us_slots.specs.Times.{IsTiming};
ghost use Rattle.us_slots.specs.Bursts.{IsBurstProfile, IsChannelBursts};
ghost use Rattle.us_flows.specs.Tables.{has_channel};
ghost use Rattle.us_flows.specs.Lawful.{IsBackoff};
ghost use Rattle.us_flows.specs.Ranges.{max_codeword};
ghost use Rattle.us_flows.specs.Keys.{keys_of};
ghost use Rattle.us_flows.specs.Documents;
ghost use Rattle.us_flows.specs.Checks;
ghost use Rattle.us_slots.specs.Lists.{first_of};
ghost use Rattle.us_flows.specs.Checks.{channel_shape, channel_rules, channel_fault, channels_fault, in_turn};
ghost use Rattle.us_flows.specs.Reading;
ghost use Rattle.us_flows.specs.Answers.{Judged};

use crate::channels::Channel;
use crate::documents::{
    flag_at, items_at, number_at, number_in, table_at, u8_at, u16_at, u32_at, value_at,
};
use crate::faults::{ConfigFault, Place, TOP, TableName};
use crate::keys::{Key, channel_keys, profile_keys, short_keys};
use crate::limits::is_too_long;
use crate::listed::Channels;
use crate::ranges::MAX_CODEWORD;
use crate::shapes::{lacks, strays};
use std::alloc::Global;
use toml::{Table, Value};
use us_slots::{BurstSet, ChannelTime, Profile};

/// The channels of a list, or their first fault.
pub(crate) fn channels_of(
    alloc: Global,
    round_ticks: u32,
    items: &[Value],
) -> Result<Channels, ConfigFault>
    requires { length items.now < 2 ^ 32 }
    ensures { Judged result (channels_fault round_ticks (items_view items.now))
        (λ channels. channels ≡ Reading.all_of Reading.channel_of (items_view items.now)) }
{
    let mut channels = Channels::new(alloc);
    for value in items {
        push_channel(round_ticks, &mut channels, value)?;
    }
    Ok(channels)
}

/// Puts the channel of a value behind these others, or answers its first fault.
fn push_channel(round_ticks: u32, channels: &mut Channels, value: &Value) -> Result<(), ConfigFault>
    requires { length channels.old < 2 ^ 32 }
    ensures { Judged result (in_turn Reading.channel_of (channel_fault round_ticks) channels.old
        (item (view value.now) no_items))
        (λ _. channels.new ≡ channels.old ++ Reading.all_of Reading.channel_of (item (view value.now) no_items)) }
{
    match value.as_table() {
        Some(table) => {
            let channel = channel_in(round_ticks, channels, table)?;
            Ok(channels.push(channel)?)
        }
        None => Err(ConfigFault::Range(TOP)),
    }
}

/// The channel of a table that stands behind these others, or its first fault.
#[tactic(auto, unfolding(crate::specs::Checks::channel_fault))]
fn channel_in(round_ticks: u32, earlier: &Channels, table: &Table) -> Result<Channel, ConfigFault>
    requires { length earlier.now < 2 ^ 32 }
    ensures judged { Judged result (channel_fault round_ticks earlier.now (table_view table.now))
        (λ channel. channel ≡ Reading.channel_of (table_view table.now)) }
    // No memory is taken here.
    ensures fault { IfErr result (λ fault.
        channel_fault round_ticks earlier.now (table_view table.now) ≡ Some fault) }
    ensures other_id { IfOk result (λ channel. has_channel earlier.now channel.id ≡ false) }
{
    let place = Place {
        table: TableName::Channel,
        index: earlier.len() as u32,
    };
    if let Some(fault) = shape_fault(place, table) {
        return Err(fault);
    }
    let channel = channel_of(table);
    match rules_fault(place, round_ticks, earlier, &channel) {
        Some(fault) => Err(fault),
        None => Ok(channel),
    }
}

/// The first fault in the shape of a channel's table.
fn shape_fault(place: Place, table: &Table) -> Option<ConfigFault>
    ensures { result ≡ first_of (channel_shape place (table_view table.now)) }
{
    if channel_lacks(table) {
        return Some(ConfigFault::Missing(place));
    }
    if channel_strays(table) {
        return Some(ConfigFault::Range(place));
    }
    None
}

/// Whether a channel or one of its profiles lacks a key.
#[tactic(auto, unfolding(crate::specs::Checks::channel_lacks))]
fn channel_lacks(channel: &Table) -> bool
    ensures { result ≡ Checks.channel_lacks (table_view channel.now) }
{
    lacks(channel_keys(), channel)
        || lacks_within(profile_keys(), channel, "long")
        || lacks_within(short_keys(), channel, "short")
        || lacks_within(profile_keys(), channel, "unsolicited")
}

/// Whether the value of a key is a table that lacks a key.
fn lacks_within(keys: &[Key], table: &Table, key: &str) -> bool
    ensures { result ≡ Checks.lacks_within (keys_of keys.now) key.now (table_view table.now) }
{
    match value_at(table, key) {
        Some(value) => is_table_without(keys, value),
        None => false,
    }
}

/// Whether a value is a table that lacks a key.
fn is_table_without(keys: &[Key], value: &Value) -> bool
    ensures { result ≡ Checks.is_table_without (keys_of keys.now) (view value.now) }
{
    match value.as_table() {
        Some(table) => lacks(keys, table),
        None => false,
    }
}

/// Whether a channel or one of its profiles has a key or a value that it must not have.
#[tactic(auto, unfolding(crate::specs::Checks::channel_strays))]
fn channel_strays(channel: &Table) -> bool
    ensures { result ≡ Checks.channel_strays (table_view channel.now) }
{
    strays(channel_keys(), channel)
        || strays_within(profile_keys(), channel, "long")
        || strays_within(short_keys(), channel, "short")
        || strays_within(profile_keys(), channel, "unsolicited")
}

/// The same of one profile.
fn strays_within(keys: &[Key], channel: &Table, key: &str) -> bool
    ensures { result ≡ Checks.profile_strays (keys_of keys.now) (Documents.table_at key.now (table_view channel.now)) }
{
    match table_at(channel, key) {
        Some(profile) => strays(keys, profile) || has_long_codeword(profile),
        None => false,
    }
}

/// The channel of a table whose shape has no fault.
fn channel_of(table: &Table) -> Channel
    requires whole { Checks.channel_lacks (table_view table.now) ≡ false }
    requires ranged { Checks.channel_strays (table_view table.now) ≡ false }
    ensures { result ≡ Reading.channel_of (table_view table.now) }
{
    let bursts = match bursts_of(table) {
        Some(bursts) => bursts,
        None => unreachable!(),
    };
    let id = u8_at(table, "id");
    let ucd_count = u8_at(table, "ucd_count");
    let ranging_backoff = backoff_at(table, "ranging_backoff");
    let data_backoff = backoff_at(table, "data_backoff");
    let request_minislots = u8_at(table, "request_minislots");
    let contention_minislots = u16_at(table, "contention_minislots");
    let maintenance_minislots = u16_at(table, "maintenance_minislots");
    let maintenance_every = u32_at(table, "maintenance_every");
    let station_minislots = u8_at(table, "station_minislots");
    Channel {
        id,
        bursts,
        ucd_count,
        ranging_backoff,
        data_backoff,
        request_minislots,
        contention_minislots,
        maintenance_minislots,
        maintenance_every,
        station_minislots,
    }
}

/// The two exponents of a key's list.
fn backoff_at(table: &Table, key: &str) -> [u8; 2]
    requires { IsBackoff (Documents.pair_at key.now (table_view table.now)) }
    ensures { result ≡ Documents.pair_at key.now (table_view table.now) }
{
    let items = items_at(table, key);
    [number_in(items, 0) as u8, number_in(items, 1) as u8]
}

/// The time and the profiles of a channel, `None` out of range.
fn bursts_of(channel: &Table) -> Option<BurstSet>
    ensures { SomeIff result (IsChannelBursts (Reading.bursts_of (table_view channel.now)))
        (Reading.bursts_of (table_view channel.now)) }
{
    let time = time_of(channel)?;
    let long = profile_at(channel, "long")?;
    let short = profile_at(channel, "short")?;
    let short_max = short_max_of(channel)?;
    let unsolicited = profile_at(channel, "unsolicited")?;
    BurstSet::new(time, long, short, short_max, unsolicited)
}

/// The burst profile of a key, `None` out of range.
fn profile_at(channel: &Table, key: &str) -> Option<Profile>
    ensures { SomeIff result (IsBurstProfile (Reading.profile_of (Documents.table_at key.now (table_view channel.now))))
        (Reading.profile_of (Documents.table_at key.now (table_view channel.now))) }
{
    profile_of(table_at(channel, key)?)
}

/// The most minislots of a short data grant, `None` past 16 bits. Without its table it is 0, as a missing number is
/// read; a channel that lacks the table was refused before.
fn short_max_of(channel: &Table) -> Option<u16>
    ensures { SomeIff result (Documents.number_at (codes "max_minislots")
        (Documents.table_at (codes "short") (table_view channel.now)) ≤ 65535)
        (Documents.number_at (codes "max_minislots") (Documents.table_at (codes "short") (table_view channel.now))) }
{
    match table_at(channel, "short") {
        Some(short) => u16::try_from(number_at(short, "max_minislots")).ok(),
        None => Some(0),
    }
}

/// The time of a channel, `None` out of range.
fn time_of(channel: &Table) -> Option<ChannelTime>
    ensures { SomeIff result (IsTiming (Reading.time_of (table_view channel.now)))
        (Reading.time_of (table_view channel.now)) }
{
    let minislot_log2 = u8::try_from(number_at(channel, "minislot_log2")).ok()?;
    let rate_log2 = u8::try_from(number_at(channel, "rate_log2")).ok()?;
    ChannelTime::new(minislot_log2, rate_log2)
}

/// A burst profile, `None` out of range.
fn profile_of(profile: &Table) -> Option<Profile>
    ensures { SomeIff result (IsBurstProfile (Reading.profile_of (table_view profile.now)))
        (Reading.profile_of (table_view profile.now)) }
{
    let bits = u8::try_from(number_at(profile, "bits")).ok()?;
    let preamble = u16::try_from(number_at(profile, "preamble")).ok()?;
    let guard = u16::try_from(number_at(profile, "guard")).ok()?;
    let fec_t = u8::try_from(number_at(profile, "fec_t")).ok()?;
    let fec_k = u8::try_from(number_at(profile, "fec_k")).ok()?;
    Profile::new(
        bits,
        preamble,
        guard,
        fec_t,
        fec_k,
        flag_at(profile, "shortened"),
    )
}

/// The first fault of a channel's values beside the channels before it and the length of a round.
fn rules_fault(
    place: Place,
    round_ticks: u32,
    earlier: &Channels,
    channel: &Channel,
) -> Option<ConfigFault>
    ensures value { result ≡ first_of (channel_rules place round_ticks earlier.now channel.now) }
    ensures other_id { IfNone result (has_channel earlier.now channel.now.id ≡ false) }
{
    if earlier.has(channel.id) {
        return Some(ConfigFault::DuplicateId(place));
    }
    if round_ticks % channel.bursts.time().minislot_ticks() != 0 {
        return Some(ConfigFault::RoundNotMultiple(place));
    }
    let reserves = u32::from(channel.maintenance_minislots)
        + u32::from(channel.contention_minislots);
    if is_too_long(round_ticks, channel, reserves) {
        return Some(ConfigFault::ReservesTooLong(place));
    }
    None
}

/// Whether a profile has codewords that are too long.
fn has_long_codeword(profile: &Table) -> bool
    ensures { result ≡ nat_lt max_codeword (Documents.number_at (codes "fec_k") (table_view profile.now)
        + 2 * Documents.number_at (codes "fec_t") (table_view profile.now)) }
{
    let parity = number_at(profile, "fec_t").saturating_mul(2);
    number_at(profile, "fec_k").saturating_add(parity) > MAX_CODEWORD
}
