//! The token bucket that limits what a service flow is granted: its maximum sustained rate and its maximum burst. A second
//! one, of its minimum rate, holds what is reserved of it.
//!
//! ```
//! let mut bucket = Bucket::full(1_280_000, 1_522); // 1.28 Mbit/s, and bursts of at most 1,522 bytes
//! bucket.spend(1_522); // all of it, in round 0
//! bucket.refill(320); // round 1 starts, 320 ticks of 6.25 microseconds later
//! bucket.bytes() // Some(320)
//! ```
//!
//! What these words mean stands in `specs/`, in the order of its `Lib.antt`.
#![tactic(auto)]

// What a bucket holds, and how it is refilled and spent.
mod buckets;

// A bucket that is refilled when it is asked for.
mod round_buckets;

// Rounds and credits of a flow.
mod events;

// What may be credited after them.
mod allowances;

// And what is reserved.
mod reserves;

// What a bucket is for: laws over every list of rounds and credits.
mod laws;

pub use allowances::{OverBound, allowance};
pub use buckets::{Bucket, MAX_REFILL_TICKS, UNITS_PER_BYTE};
pub use events::Event;
pub use laws::{
    bringing_keeps_levels, bucket_has_reserve, bucket_is_allowance, bucket_is_reserve,
    bucket_keeps_bound, next_round_refills, refills_are_one, rounds_are_one_refill,
};
pub use reserves::reserve;
pub use round_buckets::RoundBucket;

#[cfg(test)]
mod tests;
