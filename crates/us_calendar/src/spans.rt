ghost use Rattle.std.specs.Prelude.{◌≡◌, ◌+◌, ◌*◌, ◌≤◌};
ghost use Rattle.us_slots.specs.Times.{minislot_ticks, quarters_per_tick, start_of};
ghost use Rattle.us_flows.specs.Tables.{max_run_ticks};
ghost use Rattle.us_calendar.specs.Occurrences.{end_of};
ghost use Rattle.us_calendar.specs.Kept.{IsPace};

use crate::paces::Pace;
use us_slots::QUARTERS_PER_TICK;

/// A round of a channel, worked out once. Times are in quarter microseconds.
#[derive(Clone, Copy)]
pub(crate) struct Span {
    pub(crate) pace: Pace,
    pub(crate) round: u32,
    /// How many minislots it has.
    pub(crate) len: u32,
    /// When it begins.
    pub(crate) begin: u32,
    /// When it ends.
    pub(crate) end: u32,
    /// How long a minislot is.
    pub(crate) minislot: u32,
    ghost known: { IsPace pace },
    ghost time: { (round + 1) * (pace.len * minislot_ticks pace.time) ≤ max_run_ticks },
    ghost lasts: { len ≡ pace.len },
    ghost begins: { begin ≡ start_of pace.time (round * pace.len) },
    ghost ends: { end ≡ end_of pace round },
    ghost minislots: { minislot ≡ quarters_per_tick * minislot_ticks pace.time },
}

impl Span {
    /// A round that ends at tick 2^26 or before.
    pub(crate) fn new(pace: Pace, round: u32) -> Span
        requires { (round + 1) * (pace.len * minislot_ticks pace.time) ≤ max_run_ticks }
        ensures pace { result.pace ≡ pace }
        ensures round { result.round ≡ round }
    {
        let minislot = QUARTERS_PER_TICK as u32 * pace.time.minislot_ticks();
        let len = pace.len;
        let long = len * minislot;
        let begin = round * long;
        Span {
            pace,
            round,
            len,
            begin,
            end: begin + long,
            minislot,
        }
    }
}
