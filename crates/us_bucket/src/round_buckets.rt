ghost use Rattle.std.specs.Prelude.{◌≡◌, ◌≤◌, ◌-◌, ◌*◌};
ghost use Rattle.us_bucket.specs.Levels.{bytes_in, reserve_in, Has};
ghost use Rattle.us_bucket.specs.RoundBuckets.{Kept, full_at_first, level_in, brought_to, less};

use crate::buckets::{Bucket, MAX_REFILL_TICKS};
use std::marker::Model;

/// A bucket, and the round as of which it stands: it is refilled when it is asked for, once for all rounds since.
#[derive(Clone, Copy)]
pub struct RoundBucket {
    bucket: Bucket,
    as_of: u32,
}

impl Model for RoundBucket {
    ghost Value = { Kept };

    ghost view = { λ b. record { level = b.bucket; as_of = b.as_of } };

    ghost inverse = { λ k. record { bucket = k.level; as_of = k.as_of } };
}

impl RoundBucket {
    /// The bucket of round 0, with `burst` bytes in it. The `rate` is in bit/s, and 0 is no limit.
    pub fn full(rate: u32, burst: u32) -> RoundBucket
        ensures { result ≡ full_at_first rate burst }
    {
        RoundBucket {
            bucket: Bucket::full(rate, burst),
            as_of: 0,
        }
    }

    /// The bucket as it is in `round`, which may be a later one, where a round has `ticks` ticks of 6.25 microseconds. The
    /// rounds until then have at most [`MAX_REFILL_TICKS`].
    pub fn level_in(&self, round: u32, ticks: u32) -> Bucket
        requires later { self.now.as_of ≤ round }
        requires fits { (round - self.now.as_of) * ticks ≤ MAX_REFILL_TICKS }
        ensures { result ≡ level_in ticks round self.now }
    {
        let mut bucket = self.bucket;
        bucket.refill((round - self.as_of) * ticks);
        bucket
    }

    /// Brings the bucket up to `round`, as [`RoundBucket::level_in`] has it. Where it stands as of that round nothing is reckoned.
    #[tactic(auto, using(crate::proofs::RoundLemmas::stands))]
    pub fn refill_to(&mut self, round: u32, ticks: u32)
        requires later { self.old.as_of ≤ round }
        requires fits { (round - self.old.as_of) * ticks ≤ MAX_REFILL_TICKS }
        ensures { self.new ≡ brought_to ticks round self.old }
    {
        if self.as_of < round {
            self.bucket = self.level_in(round, ticks);
            self.as_of = round;
        }
    }

    /// The whole bytes in the bucket in the round as of which it stands, `None` where the rate is 0 and there is no limit.
    pub fn bytes(&self) -> Option<u64>
        ensures { result ≡ bytes_in self.now.level }
    {
        self.bucket.bytes()
    }

    /// The whole bytes that are reserved in the round as of which the bucket stands, where its rate is a minimum; 0 where the
    /// rate is 0. The bucket has them, so that they can be spent.
    pub fn reserve(&self) -> u64
        ensures { result ≡ reserve_in self.now.level }
    {
        self.bucket.reserve()
    }

    /// So many bytes are granted in the round as of which the bucket stands, and leave it. It must have them, as
    /// [`RoundBucket::bytes`] says. Where there is no limit, any bytes will do, and the bucket stays as it is.
    pub fn spend(&mut self, bytes: u64)
        requires { Has self.old.level bytes }
        ensures { self.new ≡ less bytes self.old }
    {
        self.bucket.spend(bytes);
    }

    /// The round as of which the bucket stands.
    pub fn as_of(&self) -> u32
        ensures { result ≡ self.now.as_of }
    {
        self.as_of
    }
}
