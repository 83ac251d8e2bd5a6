//! Laws of the definitions of this crate, each as the contract of a function that does nothing.

ghost use Rattle.us_bucket.specs.Laws.{BucketKeepsBound, BucketIsAllowance, BucketIsReserve, BucketHasReserve};
ghost use Rattle.us_bucket.specs.RoundBuckets.{RefillsAreOne, RoundsAreOneRefill, NextRoundRefills, BringingKeepsLevels};

/// Under a limit, the credits whose bytes the bucket has, each when it comes, are those that keep the bound over every
/// span of rounds.
pub fn bucket_keeps_bound()
    ensures { BucketKeepsBound }
{}

/// What the bucket holds after events that keep the bound is what may be credited then.
pub fn bucket_is_allowance()
    ensures { BucketIsAllowance }
{}

/// What the bucket of a minimum rate holds after events of which what was planned first keeps the bound is what is reserved
/// then; nothing is where there is no minimum rate.
pub fn bucket_is_reserve()
    ensures { BucketIsReserve }
{}

/// The bucket has what is reserved.
pub fn bucket_has_reserve()
    ensures { BucketHasReserve }
{}

/// Two refills are one refill, by the ticks of both.
pub fn refills_are_one()
    ensures { RefillsAreOne }
{}

/// Rounds without a spend are one refill, by the ticks of all.
pub fn rounds_are_one_refill()
    ensures { RoundsAreOneRefill }
{}

/// The level of the next round is that of this one, refilled.
pub fn next_round_refills()
    ensures { NextRoundRefills }
{}

/// As of whatever round a bucket stands, the levels of later rounds are the same.
pub fn bringing_keeps_levels()
    ensures { BringingKeepsLevels }
{}
