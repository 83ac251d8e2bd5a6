ghost use Rattle.std.specs.Prelude.{◌≡◌, SomeIff};
ghost use Rattle.us_slots.specs.Bursts.{ChannelBursts, IsChannelBursts};

use crate::channel_times::ChannelTime;
use crate::profiles::Profile;
use std::marker::Model;

/// The greatest short maximum burst, in minislots (ours).
const MAX_SHORT_MAX: u16 = 255;

/// A channel's time and burst profiles: all that the cost of its bursts depends on.
#[derive(Clone, Copy, Debug, PartialEq, Eq, Hash)]
pub struct BurstSet {
    time: ChannelTime,
    long: Profile,
    short: Profile,
    short_max: u16,
    unsolicited: Profile,
}

impl Model for BurstSet {
    ghost Value = { ChannelBursts };

    ghost view = { λ b. record {
      time = b.time;
      long = b.long;
      short = b.short;
      short_max = b.short_max;
      unsolicited = b.unsolicited;
    } };

    ghost invariant = { λ b. IsChannelBursts (record {
      time = b.time;
      long = b.long;
      short = b.short;
      short_max = b.short_max;
      unsolicited = b.unsolicited;
    }) };

    ghost inverse = { λ b. record {
      time = b.time;
      long = b.long;
      short = b.short;
      short_max = b.short_max;
      unsolicited = b.unsolicited;
    } };
}

impl BurstSet {
    /// The bursts of a channel. `short_max` is the most minislots of a short data grant, 1 to 255, else `None`.
    pub fn new(
        time: ChannelTime,
        long: Profile,
        short: Profile,
        short_max: u16,
        unsolicited: Profile,
    ) -> Option<BurstSet>
        ensures { let bursts : ChannelBursts = record {
          time = time;
          long = long;
          short = short;
          short_max = short_max;
          unsolicited = unsolicited;
        } in
            SomeIff result (IsChannelBursts bursts) bursts }
    {
        if (1..=MAX_SHORT_MAX).contains(&short_max) {
            Some(BurstSet {
                time,
                long,
                short,
                short_max,
                unsolicited,
            })
        } else {
            None
        }
    }

    /// The channel's time.
    pub fn time(&self) -> &ChannelTime
        ensures value { result.now ≡ self.now.time }
        ensures in_range { IsChannelBursts self.now }
    {
        &self.time
    }

    /// The profile of long data grants, IUC 10.
    pub fn long(&self) -> &Profile
        ensures value { result.now ≡ self.now.long }
        ensures in_range { IsChannelBursts self.now }
    {
        &self.long
    }

    /// The profile of short data grants, IUC 9.
    pub fn short(&self) -> &Profile
        ensures value { result.now ≡ self.now.short }
        ensures in_range { IsChannelBursts self.now }
    {
        &self.short
    }

    /// The most minislots of a short data grant, 1 to 255.
    pub fn short_max(&self) -> u16
        ensures value { result ≡ self.now.short_max }
        ensures in_range { IsChannelBursts self.now }
    {
        self.short_max
    }

    /// The profile of unsolicited grants, IUC 11.
    pub fn unsolicited(&self) -> &Profile
        ensures value { result.now ≡ self.now.unsolicited }
        ensures in_range { IsChannelBursts self.now }
    {
        &self.unsolicited
    }
}
