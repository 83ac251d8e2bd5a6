ghost use Rattle.us_calendar.specs.Occurrences as spec;
ghost use Rattle.us_calendar.specs.Kept.{IsPace};

use std::marker::Model;
use us_slots::ChannelTime;

/// What turns minislots of a channel into time.
#[derive(Clone, Copy)]
pub(crate) struct Pace {
    pub(crate) time: ChannelTime,
    pub(crate) len: u32,
}

impl Model for Pace {
    ghost Value = { spec.Pace };

    ghost view = { λ p. record { time = p.time; len = p.len } };

    ghost invariant = { λ p. IsPace (record { time = p.time; len = p.len }) };

    ghost inverse = { λ p. record { time = p.time; len = p.len } };
}
