ghost use Rattle.std.specs.Prelude.{◌≡◌, SomeIff};
ghost use Rattle.us_slots.specs.Times.{Timing, IsTiming, minislot_ticks, quarters_per_tick, symbols_per_minislot};

use std::marker::Model;

/// A tick of 6.25 microseconds (the standard's), in quarter microseconds.
pub const QUARTERS_PER_TICK: u64 = 25;

/// The longest minislot is 2^7 ticks (ours).
const MAX_MINISLOT_LOG2: u8 = 7;

/// The highest symbol rate is 160 * 2^5 = 5,120 ksym/s (ours).
const MAX_RATE_LOG2: u8 = 5;

/// A channel's time: the length of its minislots and its symbol rate.
///
/// A tick is 6.25 microseconds, a minislot a power of two of them, and the symbol rate a power of two times
/// 160 ksym/s, at which a tick holds one symbol.
#[derive(Clone, Copy, Debug, PartialEq, Eq, Hash)]
pub struct ChannelTime {
    minislot_log2: u8,
    rate_log2: u8,
}

impl Model for ChannelTime {
    ghost Value = { Timing };

    ghost view = { λ t. record { minislot_log2 = t.minislot_log2; rate_log2 = t.rate_log2 } };

    ghost invariant = { λ t. IsTiming (record { minislot_log2 = t.minislot_log2; rate_log2 = t.rate_log2 }) };

    ghost inverse = { λ t. record { minislot_log2 = t.minislot_log2; rate_log2 = t.rate_log2 } };
}

impl ChannelTime {
    /// Minislots of `2^minislot_log2` ticks (0 to 7) at `160 * 2^rate_log2` ksym/s (0 to 5), `None` out of range.
    pub fn new(minislot_log2: u8, rate_log2: u8) -> Option<ChannelTime>
        ensures { let time : Timing = record { minislot_log2 = minislot_log2; rate_log2 = rate_log2 } in
            SomeIff result (IsTiming time) time }
    {
        if minislot_log2 <= MAX_MINISLOT_LOG2 && rate_log2 <= MAX_RATE_LOG2 {
            Some(ChannelTime {
                minislot_log2,
                rate_log2,
            })
        } else {
            None
        }
    }

    /// The ticks of a minislot, 1 to 128.
    pub fn minislot_ticks(&self) -> u32
        ensures value { result ≡ minislot_ticks self.now }
        ensures in_range { IsTiming self.now }

        // The constant is that of the definitions.
        ensures quarters { QUARTERS_PER_TICK ≡ quarters_per_tick }
    {
        1 << self.minislot_log2
    }

    /// The symbols of a minislot, 1 to 4,096.
    pub fn symbols_per_minislot(&self) -> u32
        ensures value { result ≡ symbols_per_minislot self.now }
        ensures in_range { IsTiming self.now }
    {
        1 << (self.minislot_log2 + self.rate_log2)
    }
}
