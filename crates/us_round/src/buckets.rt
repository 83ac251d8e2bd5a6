ghost use Rattle.std.specs.Prelude.{◌≡◌, ◌-◌, ◌*◌, ◌<◌, ◌≤◌, length, slice_index_or, slice_set, IfOk};
ghost use Rattle.std.specs.List.{AllByRecursion};
ghost use Rattle.us_flows.specs.Tables.{max_run_ticks};
ghost use Rattle.us_bucket.specs.Levels.{Has, Level, bytes_in, full, reserve_in, spent};
ghost use Rattle.us_bucket.specs.RoundBuckets.{brought_to};
ghost use Rattle.us_round.specs.Buckets as spec;
ghost use Rattle.us_round.specs.Cores.{left_in};

use std::alloc::Global;
use std::marker::Model;
use us_bucket::{Bucket, RoundBucket};
use us_flows::Config;
use us_slots::NoMemory;

/// The buckets of all flows as they are in a round. Each is refilled when it is asked for, for all rounds since it last was.
pub(crate) struct Buckets {
    kept: Vec<RoundBucket>,
    ticks: u32,
    round: u32,
}

impl Model for Buckets {
    ghost Value = { spec.Buckets };

    ghost view = { λ b. record {
      levels = spec.levels_in b.ticks b.round b.kept.items;
      ticks = b.ticks;
      round = b.round;
    } };

    ghost invariant = { λ b. spec.AreKept b.ticks b.round b.kept.items };
}

/// Gives the buckets up. It is written out so that it is one step wherever they end.
impl Drop for Buckets {
    fn drop(self) {
        let Buckets {
            kept: _,
            ticks: _,
            round: _,
        } = self;
    }
}

impl Buckets {
    /// Before round 0 every bucket is full.
    pub(crate) fn full(alloc: Global, config: &Config) -> Result<Buckets, NoMemory>
        ensures { IfOk result (λ buckets. buckets ≡ spec.full_buckets config.now) }
    {
        let flows = config.flows();
        let mut kept = Vec::with_capacity(alloc, flows.len())?;
        for flow in flows {
            kept.push(RoundBucket::full(flow.rate(), flow.burst()))?;
        }
        Ok(Buckets::at_first(kept, config.round_ticks()))
    }

    /// Before round 0 those of minimum rates are full too.
    pub(crate) fn full_reserves(alloc: Global, config: &Config) -> Result<Buckets, NoMemory>
        ensures { IfOk result (λ buckets. buckets ≡ spec.full_reserves config.now) }
    {
        let flows = config.flows();
        let mut kept = Vec::with_capacity(alloc, flows.len())?;
        for flow in flows {
            kept.push(RoundBucket::full(flow.min_rate(), flow.burst()))?;
        }
        Ok(Buckets::at_first(kept, config.round_ticks()))
    }

    /// Buckets as they are before round 0.
    fn at_first(kept: Vec<RoundBucket>, ticks: u32) -> Buckets
        requires { AllByRecursion (λ k. k.as_of ≤ 0) kept.items }
        ensures { result ≡ spec.at_first ticks kept.items }
    {
        let round = 0;
        Buckets { kept, ticks, round }
    }

    /// The round of this number begins, which is the next one: in every round but the first each bucket grows by what a
    /// round's ticks bring.
    pub(crate) fn begin(&mut self, round: u32)
        requires next { self.old.round ≡ round - 1 }
        requires time { round * self.old.ticks ≤ max_run_ticks }
        ensures { self.new ≡ spec.begun_buckets round self.old }
    {
        self.round = round;
    }

    /// The bytes that the bucket of the flow at this place allows.
    pub(crate) fn bytes(&mut self, place: usize) -> Option<u64>
        requires { place < length self.old.levels }
        ensures value { (d : Level) → result ≡ bytes_in (slice_index_or self.old.levels place d) }
        ensures same { self.new ≡ self.old }
    {
        let round = self.round;
        let ticks = self.ticks;
        let kept = self.kept.as_mut_slice();
        brought(kept, place, round, ticks).bytes()
    }

    /// So many bytes, which it has, leave the bucket of the flow at this place.
    pub(crate) fn spend(&mut self, place: usize, bytes: u64)
        requires place { place < length self.old.levels }
        requires has { (d : Level) → Has (slice_index_or self.old.levels place d) bytes }
        ensures levels { (d : Level) →
            self.new.levels ≡ slice_set self.old.levels place (spent bytes (slice_index_or self.old.levels place d)) }
        ensures ticks { self.new.ticks ≡ self.old.ticks }
        ensures round { self.new.round ≡ self.old.round }
    {
        let round = self.round;
        let ticks = self.ticks;
        let kept = self.kept.as_mut_slice();
        let mut bucket = brought(kept, place, round, ticks);
        bucket.spend(bytes);
        kept[place] = bucket;
    }

    /// The bytes that the bucket of the flow at this place reserves, if its rate is a minimum. One of rate 0 reserves none,
    /// and nothing is refilled for that.
    pub(crate) fn reserve(&self, place: usize) -> u64
        requires { place < length self.now.levels }
        ensures { (d : Level) → result ≡ reserve_in (slice_index_or self.now.levels place d) }
    {
        let bucket = self.kept[place];
        match bucket.bytes() {
            Some(_) => bucket.level_in(self.round, self.ticks).reserve(),
            None => 0,
        }
    }

    /// The bucket of the flow at this place reserves no more than so many bytes from now on; the others leave it.
    pub(crate) fn leave(&mut self, place: usize, left: u64)
        requires { place < length self.old.levels }
        ensures levels { self.new.levels ≡ slice_set self.old.levels place
            (left_in left (slice_index_or self.old.levels place (full 0 0))) }
        ensures ticks { self.new.ticks ≡ self.old.ticks }
        ensures round { self.new.round ≡ self.old.round }
    {
        let reserve = self.reserve(place);
        if left < reserve {
            self.spend(place, reserve - left);
        }
    }

    /// All of them, as they are in the round.
    pub(crate) fn levels(&self, alloc: Global) -> Result<Vec<Bucket>, NoMemory>
        ensures { IfOk result (λ levels. levels.items ≡ self.now.levels) }
    {
        let mut levels = Vec::with_capacity(alloc, self.kept.len())?;
        for bucket in &self.kept {
            levels.push(bucket.level_in(self.round, self.ticks))?;
        }
        Ok(levels)
    }
}

/// Brings the bucket at a place up to a round, and copies it.
fn brought(kept: &mut [RoundBucket], place: usize, round: u32, ticks: u32) -> RoundBucket
    requires place { place < length kept.old }
    requires kept { spec.AreKept ticks round kept.old }
    ensures value { result ≡ brought_to ticks round (slice_index_or kept.old place result) }
    ensures kept { kept.new ≡ slice_set kept.old place result }
{
    let mut bucket = kept[place];
    bucket.refill_to(round, ticks);
    kept[place] = bucket;
    bucket
}
