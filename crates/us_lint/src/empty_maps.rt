ghost use Rattle.std.specs.Prelude.{◌≡◌, ℕ, ◌+◌, ◌≤◌, ◌<◌, ◌↔◌, IsTrue};
ghost use Rattle.us_flows.specs.Lawful.{IsChannel};
ghost use Rattle.us_lint.specs.Windows as spec;

use std::marker::Model;
use us_flows::{Channel, Config};

/// The MAPs of a channel, with their reserves and nothing else.
#[derive(Clone, Copy)]
pub struct EmptyMaps {
    /// The minislots of each.
    pub len: u32,
    /// Those of the reserve at the start of each MAP in so many.
    pub maintenance: u32,
    pub maintenance_every: u32,
    /// Those of the reserve at the end of each MAP.
    pub contention: u32,
}

impl Model for EmptyMaps {
    ghost Value = { spec.EmptyMaps };

    ghost view = { λ m. record {
      len = m.len;
      maintenance = m.maintenance;
      maintenance_every = m.maintenance_every;
      contention = m.contention;
    } };

    ghost invariant = { λ m. spec.AreMaps (record {
      len = m.len;
      maintenance = m.maintenance;
      maintenance_every = m.maintenance_every;
      contention = m.contention;
    }) };

    ghost inverse = { λ m. record {
      len = m.len;
      maintenance = m.maintenance;
      maintenance_every = m.maintenance_every;
      contention = m.contention;
    } };
}

impl EmptyMaps {
    /// Those of a channel of the table.
    pub fn of(config: &Config, channel: &Channel) -> EmptyMaps
        requires { IsChannel config.now channel.now }
        ensures { result ≡ spec.maps_of config.now channel.now }
    {
        EmptyMaps {
            len: config.map_len(channel),
            maintenance: u32::from(channel.maintenance_minislots),
            maintenance_every: channel.maintenance_every,
            contention: u32::from(channel.contention_minislots),
        }
    }

    /// Whether a grant of so many minislots, at least one, has room in a MAP if it starts in one of these, which are
    /// counted from the start of the run. Of the MAPs behind the first, two tell of all: one of these has no maintenance, or
    /// each MAP has.
    pub fn have_room(&self, slots: u32, first: u32, last: u32) -> bool
        requires { 1 ≤ slots }
        ensures { IsTrue result ↔ ((map : ℕ) × spec.HasRoom self.now map slots first last) }
    {
        let from = u64::from(first / self.len);
        self.has_room(from, slots, first, last)
            || self.has_room(from + 1, slots, first, last)
            || self.has_room(from + 2, slots, first, last)
    }

    /// The same in one MAP.
    fn has_room(&self, map: u64, slots: u32, first: u32, last: u32) -> bool
        requires { map ≤ 4294967297 }
        ensures { IsTrue result ↔ spec.HasRoom self.now map slots first last }
    {
        let begin = map * u64::from(self.len);
        let reserve = self.reserve_of(map);
        let start = u64::from(first).max(begin + u64::from(reserve));
        let end = begin + u64::from(self.len - self.contention);
        start <= u64::from(last) && start + u64::from(slots) <= end
    }

    /// The minislots of the reserve at the start of a MAP.
    fn reserve_of(&self, map: u64) -> u32
        ensures { result ≡ spec.reserve_of self.now map }
    {
        if map % u64::from(self.maintenance_every) == 0 {
            self.maintenance
        } else {
            0
        }
    }
}
