ghost use Rattle.std.specs.Prelude.{◌≡◌, List, ◌++◌, [], ◌∷◌, false, length, map, IfOk, OnOk, option_map};
ghost use Rattle.us_flows.specs.Tables.{has_channel, channel_with};
ghost use Rattle.std.specs.Map.{values_of};
ghost use Rattle.us_flows.specs.Lawful.{AreApart};
ghost use Rattle.us_flows.specs.Listed.{by_id};
ghost use Rattle.us_flows.specs.declared.channels.Channel.{Channel};

use crate::channels::Channel;
use indexmap::IndexMap;
use std::alloc::{AllocError, Global};
use std::marker::Model;

/// Channels in table order, found by id.
pub(crate) struct Channels {
    map: IndexMap<u8, Channel>,
}

impl Model for Channels {
    ghost Value = { List Channel };

    ghost view = { λ c. values_of c.map.entries };

    ghost invariant = { λ c. c.map.entries ≡ by_id (λ channel. channel.id) (values_of c.map.entries) };
}

/// Gives the channels up. It is written out so that it is one step wherever they end.
impl Drop for Channels {
    fn drop(self) {
        let Channels { map: _ } = self;
    }
}

impl Channels {
    /// No channel.
    pub(crate) fn new(alloc: Global) -> Channels
        ensures { result ≡ [] }
    {
        Channels {
            map: IndexMap::new(alloc),
        }
    }

    /// Whether a channel has this id.
    pub(crate) fn has(&self, id: u8) -> bool
        ensures { result ≡ has_channel self.now id }
    {
        self.map.contains_key(&id)
    }

    /// The channel with this id.
    pub(crate) fn get(&self, id: u8) -> Option<&Channel>
        ensures { option_map (λ c. c.now) result ≡ channel_with self.now id }
    {
        self.map.get(&id)
    }

    /// How many there are.
    pub(crate) fn len(&self) -> usize
        ensures { result ≡ length self.now }
    {
        self.map.len()
    }

    /// Puts a channel last.
    pub(crate) fn push(&mut self, channel: Channel) -> Result<(), AllocError>
        requires { has_channel self.old channel.id ≡ false }
        ensures { OnOk result (self.new ≡ self.old ++ channel ∷ []) }
    {
        self.map.insert(channel.id, channel)?;
        Ok(())
    }

    /// These channels in this order, in memory of their own.
    pub(crate) fn copied(alloc: Global, channels: &[Channel]) -> Result<Channels, AllocError>
        requires { AreApart (map (λ channel. channel.id) channels.now) }
        ensures { IfOk result (λ copy. copy ≡ channels.now) }
    {
        let mut copy = Channels::new(alloc);
        for channel in channels {
            copy.push(*channel)?;
        }
        Ok(copy)
    }

    /// All of them in table order.
    pub(crate) fn all(&self) -> &[Channel]
        ensures { result.now ≡ self.now }
    {
        self.map.values().as_slice()
    }
}
