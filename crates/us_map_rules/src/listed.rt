ghost use Rattle.std.specs.Prelude.{◌≡◌, ◌+◌, ◌*◌, ◌^◌, ◌<◌, ◌≤◌, ◌++◌, ◌==◌, ℕ, List, length, Some, None, if◌then◌else◌, slice_index_or, map, option_map, OnOk, IfOk};
ghost use Rattle.us_flows.specs.Lawful.{AreTables, IsChannel};
ghost use Rattle.us_calendar.specs.Entries as calendar;
ghost use Rattle.us_lawful.specs.CalendarLines as lawful;
ghost use Rattle.us_map_rules.specs.Listed as spec;

use std::alloc::{AllocError, Global};
use std::marker::Model;
use us_calendar::{Entry, Kind, entries_of};
use us_flows::{Channel, Config};
use us_round::EntryWord;
use us_slots::NoMemory;

/// How many kinds of entries there are.
const KINDS: u8 = 5;

/// An entry of a calendar, and the channel that it is on.
#[derive(Clone, Copy)]
pub(crate) struct ChannelEntry {
    pub(crate) channel: Channel,
    pub(crate) entry: Entry,
}

impl Model for ChannelEntry {
    ghost Value = { lawful.ChannelEntry };

    ghost view = { λ l. record { channel = l.channel; entry = l.entry } };

    ghost inverse = { λ l. record { channel = l.channel; entry = l.entry } };
}

/// The entries of all channels, found by what lines tell of them.
pub(crate) struct Listed {
    entries: Vec<ChannelEntry>,
    // by the keys of entries
    places: Vec<Option<u16>>,
}

/// Gives it up. It is written out so that it is one step wherever it ends.
impl Drop for Listed {
    fn drop(self) {
        let Listed {
            entries: _,
            places: _,
        } = self;
    }
}

impl Model for Listed {
    ghost Value = { List lawful.ChannelEntry };

    ghost view = { λ l. l.entries.items };

    ghost invariant = { λ l. spec.ArePlaces l.entries.items (length l.entries.items) l.places.items };
}

impl Listed {
    /// Those of a configuration.
    pub(crate) fn of(alloc: Global, config: &Config) -> Result<Listed, NoMemory>
        ensures { IfOk result (spec.AreListed config.now) }
    {
        let entries = all_entries(alloc, config)?;
        let places = places_of(alloc, &entries)?;
        Ok(Listed { entries, places })
    }

    /// All of them.
    pub(crate) fn entries(&self) -> &[ChannelEntry]
        ensures { result.now ≡ self.now }
    {
        &self.entries
    }

    /// The place of the one that a word and an id call.
    pub(crate) fn called(&self, word: EntryWord, id: u64) -> Option<usize>
        ensures { spec.IsPlace word id self.now result }
    {
        let key = key_called(word, id)?;
        let place = place_at(&self.places, key)?;
        Some(usize::from(place))
    }
}

/// The places of entries by their keys.
fn places_of(alloc: Global, entries: &[ChannelEntry]) -> Result<Vec<Option<u16>>, AllocError>
    requires { length entries.now < 2 ^ 16 }
    ensures { IfOk result (λ places. spec.ArePlaces entries.now (length entries.now) places.items) }
{
    let mut places = Vec::new(alloc);
    for (place, listed) in entries.iter().enumerate() {
        put(&mut places, key_of(&listed.entry), place as u16)?;
    }
    Ok(places)
}

/// The place of this key, if it has one.
fn place_at(places: &[Option<u16>], key: u128) -> Option<u16>
    ensures { result ≡ slice_index_or places.now key None }
{
    if key < places.len() as u128 {
        return places[key as usize];
    }
    None
}

/// Gives a key a place.
fn put(places: &mut Vec<Option<u16>>, key: usize, place: u16) -> Result<(), AllocError>
    requires { key < 2 ^ 19 }
    ensures { OnOk result ((other : ℕ) → slice_index_or places.new.items other None ≡
        (if key == other then Some place else slice_index_or places.old.items other None)) }
{
    grow(places, key + 1)?;
    places[key] = Some(place);
    Ok(())
}

/// Makes room for so many keys, which have no places.
fn grow(places: &mut Vec<Option<u16>>, count: usize) -> Result<(), AllocError>
    ensures same { OnOk result ((key : ℕ) →
        slice_index_or places.new.items key None ≡ slice_index_or places.old.items key None) }
    ensures long { OnOk result (count ≤ length places.new.items) }
{
    for _key in places.len()..count {
        places.push(None)?;
    }
    Ok(())
}

/// What an entry is listed by.
fn key_of(entry: &Entry) -> usize
    ensures value { result ≡ spec.key_of entry.now }
    ensures few { result < 2 ^ 19 }
{
    let rank = match entry.kind {
        Kind::Unsolicited => 0,
        Kind::Activity => 1,
        Kind::RealTimePoll => 2,
        Kind::NonRealTimePoll => 3,
        Kind::Station => 4,
    };
    usize::from(entry.id) * usize::from(KINDS) + rank
}

/// What an entry that is called so is listed by; nothing for a request.
fn key_called(word: EntryWord, id: u64) -> Option<u128>
    ensures { result ≡ option_map (λ rank. id * 5 + rank) (spec.rank_called word) }
{
    let rank = rank_called(word);
    if rank == KINDS {
        return None;
    }
    Some(u128::from(id) * u128::from(KINDS) + u128::from(rank))
}

/// The rank of the kind that a word calls, and behind all ranks that of a request.
fn rank_called(word: EntryWord) -> u8
    ensures { spec.rank_called word ≡ (if result == 5 then None else Some result) }
{
    match word {
        EntryWord::Unsolicited => 0,
        EntryWord::Activity => 1,
        EntryWord::RealTimePoll => 2,
        EntryWord::NonRealTimePoll => 3,
        EntryWord::Station => 4,
        EntryWord::Requested => KINDS,
    }
}

/// The entries of all channels, channel by channel.
fn all_entries(alloc: Global, config: &Config) -> Result<Vec<ChannelEntry>, NoMemory>
    ensures value { IfOk result (λ entries. entries.items ≡ lawful.channel_entries config.now) }
    ensures few { IfOk result (λ entries. length entries.items < 2 ^ 16) }
    ensures lawful { AreTables config.now }
{
    let mut entries = Vec::new(alloc);
    for channel in config.channels() {
        push_entries(alloc, config, channel, &mut entries)?;
    }
    Ok(entries)
}

/// Puts the entries of a channel behind those before them.
fn push_entries(
    alloc: Global,
    config: &Config,
    channel: &Channel,
    entries: &mut Vec<ChannelEntry>,
) -> Result<(), NoMemory>
    requires { IsChannel config.now channel.now }
    ensures few { OnOk result (length entries.new.items ≤ length entries.old.items + 1280) }
    ensures value { OnOk result (entries.new.items ≡ entries.old.items
        ++ map (λ e. record { channel = channel.now; entry = e }) (calendar.entries config.now channel.now)) }
{
    for entry in &entries_of(alloc, config, channel)? {
        entries.push(ChannelEntry {
            channel: *channel,
            entry: *entry,
        })?;
    }
    Ok(())
}
