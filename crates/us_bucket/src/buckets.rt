ghost use Rattle.std.specs.Prelude.{◌≡◌, ◌≤◌, ◌^◌};
ghost use Rattle.us_bucket.specs.Levels.{Level, IsLevel, full, refilled, spent, limited, bytes_in, reserve_in, units_in, Has};

use std::marker::Model;

/// The units of a byte. A tick of 6.25 microseconds adds as many units as the rate has bit/s, since a second has
/// 160,000 ticks and a byte 8 bits.
pub const UNITS_PER_BYTE: u64 = 1_280_000;

/// The most ticks of a refill: some seven minutes.
pub const MAX_REFILL_TICKS: u32 = 67_108_864;

/// What a flow may still be granted: a token bucket.
///
/// It gains the flow's maximum sustained rate, and never holds more than its maximum burst. It counts in units of
/// 1/1,280,000 byte, so that a refill loses nothing by rounding. At a rate of 0 there is no limit.
///
/// A second one, of the flow's minimum rate and the same burst, has what is still reserved of the flow. At a rate of 0 that
/// is nothing ([`Bucket::reserve`]).
#[derive(Clone, Copy, Debug, PartialEq, Eq)]
pub struct Bucket {
    rate: u32,
    burst: u32,
    units: u64,
}

impl Model for Bucket {
    ghost Value = { Level };

    ghost view = { λ b. record { rate = b.rate; burst = b.burst; units = b.units } };

    ghost invariant = { λ b. IsLevel (record { rate = b.rate; burst = b.burst; units = b.units }) };

    ghost inverse = { λ l. record { rate = l.rate; burst = l.burst; units = l.units } };
}

impl Bucket {
    /// The bucket of round 0, with `burst` bytes in it. The `rate` is in bit/s, and 0 is no limit.
    pub fn full(rate: u32, burst: u32) -> Bucket
        ensures { result ≡ full rate burst }
    {
        Bucket {
            rate,
            burst,
            units: u64::from(burst) * UNITS_PER_BYTE,
        }
    }

    /// A round starts, `ticks` ticks of 6.25 microseconds after the one before, at most [`MAX_REFILL_TICKS`].
    #[tactic(auto, unfolding(crate::specs::Levels::refilled))]
    pub fn refill(&mut self, ticks: u32)
        requires { ticks ≤ MAX_REFILL_TICKS }
        ensures value { self.new ≡ refilled ticks self.old }
        ensures known { IsLevel self.old }

        // The limit that the condition names, and the units of a byte.
        ensures limit { MAX_REFILL_TICKS ≡ 2 ^ 26 }
        ensures units { UNITS_PER_BYTE ≡ 1280000 }
    {
        let cap = u64::from(self.burst) * UNITS_PER_BYTE;
        let grown = self.units + u64::from(ticks) * u64::from(self.rate);
        self.units = grown.min(cap);
    }

    /// The whole bytes in the bucket, `None` where the rate is 0 and there is no limit.
    #[tactic(auto, unfolding(crate::specs::Levels::bytes_in))]
    pub fn bytes(&self) -> Option<u64>
        ensures { result ≡ bytes_in self.now }
    {
        self.limited(self.units / UNITS_PER_BYTE)
    }

    /// The whole bytes that are reserved, where the bucket's rate is a minimum: those in the bucket, 0 where the rate is 0.
    /// The bucket has them, so that they can be spent.
    #[tactic(auto, unfolding(crate::specs::Levels::reserve_in))]
    pub fn reserve(&self) -> u64
        ensures { result ≡ reserve_in self.now }
    {
        match self.bytes() {
            Some(bytes) => bytes,
            None => 0,
        }
    }

    /// The units in the bucket, [`UNITS_PER_BYTE`] a byte, `None` where the rate is 0 and there is no limit.
    #[tactic(auto, unfolding(crate::specs::Levels::units_in))]
    pub fn units(&self) -> Option<u64>
        ensures { result ≡ units_in self.now }
    {
        self.limited(self.units)
    }

    /// So many bytes are granted, and leave the bucket. It must have them, as [`Bucket::bytes`] says. Where there is no
    /// limit, any bytes will do, and the bucket stays as it is.
    #[tactic(auto, unfolding(crate::specs::Levels::spent, crate::specs::Levels::bytes_in))]
    pub fn spend(&mut self, bytes: u64)
        requires { Has self.old bytes }
        ensures { self.new ≡ spent bytes self.old }
    {
        if self.rate != 0 {
            self.units -= bytes * UNITS_PER_BYTE;
        }
    }

    /// An amount, `None` where there is no limit.
    fn limited(&self, amount: u64) -> Option<u64>
        ensures { result ≡ limited self.now amount }
    {
        if self.rate == 0 { None } else { Some(amount) }
    }
}
