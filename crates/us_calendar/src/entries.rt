ghost use Rattle.std.specs.Prelude.{◌≡◌, ◌≤◌};
ghost use Rattle.us_calendar.specs.Entries as spec;

use crate::kinds::Kind;
use crate::silences::Silence;
use std::marker::Model;
use us_holes::Owner;
use us_slots::Iuc;

/// An entry of the calendar: so many grants of `slots` minislots in each interval. Times are in quarter microseconds.
#[derive(Clone, Copy)]
pub struct Entry {
    /// What it is.
    pub kind: Kind,
    /// The id of its flow, or of its station.
    pub id: u16,
    /// The SID, and the IUC of its kind.
    pub owner: Owner,
    /// The minislots of each grant, at least one.
    pub slots: u32,
    /// When its first interval begins.
    pub start: u32,
    /// How long an interval is.
    pub interval: u32,
    /// How late in an interval a grant may start, which is less than the interval.
    pub jitter: u32,
    /// How many grants there are in an interval, 1 to 127.
    pub grants: u8,
    /// What it has while its flow is silent, where the flow's activity is detected.
    pub silence: Option<Silence>,
}

impl Model for Entry {
    ghost Value = { spec.Entry };

    ghost view = { λ e. record {
      kind = e.kind;
      id = e.id;
      owner = e.owner;
      slots = e.slots;
      start = e.start;
      interval = e.interval;
      jitter = e.jitter;
      grants = e.grants;
      silence = e.silence;
    } };

    ghost invariant = { λ e. spec.IsEntry (record {
      kind = e.kind;
      id = e.id;
      owner = e.owner;
      slots = e.slots;
      start = e.start;
      interval = e.interval;
      jitter = e.jitter;
      grants = e.grants;
      silence = e.silence;
    }) };

    ghost inverse = { λ e. record {
      kind = e.kind;
      id = e.id;
      owner = e.owner;
      slots = e.slots;
      start = e.start;
      interval = e.interval;
      jitter = e.jitter;
      grants = e.grants;
      silence = e.silence;
    } };
}

impl Entry {
    /// The minislots of a grant, where the flow is active, or of a poll, where it is silent.
    pub fn slots_of(&self, active: bool) -> u32
        ensures value { result ≡ spec.slots_of self.now active }
        ensures some { 1 ≤ result }
    {
        if active {
            return self.slots;
        }
        match self.silence {
            None => self.slots,
            Some(silence) => silence.slots,
        }
    }

    /// Whom these are for.
    pub fn owner_of(&self, active: bool) -> Owner
        ensures { result ≡ spec.owner_of self.now active }
    {
        if active {
            self.owner
        } else {
            Owner::new(self.owner.sid(), Iuc::request())
        }
    }
}
