ghost use Rattle.us_requests.specs.Asks.{Request};

use std::marker::Model;

/// What a request of a trace tells.
#[derive(Clone, Copy, Debug, PartialEq, Eq)]
pub enum Kind {
    /// That a cluster asks for some units.
    Request,
    /// That a flow falls silent.
    Silent,
    /// That a flow is active.
    Active,
}

/// A request of a trace, or a mark of a flow's activity.
#[derive(Clone, Copy, Debug, PartialEq, Eq)]
pub struct Request {
    /// When it arrives.
    pub tick: u32,
    /// The id of the channel on which it arrives.
    pub channel: u8,
    /// The SID that asks.
    pub sid: u16,
    /// The units that it asks for, none by a mark.
    pub units: u16,
    /// What it tells.
    pub kind: Kind,
}

impl Model for Request {
    ghost Value = { Request };

    ghost view = { λ q. record { tick = q.tick; channel = q.channel; sid = q.sid; units = q.units; kind = q.kind } };

    ghost inverse = { λ q. record { tick = q.tick; channel = q.channel; sid = q.sid; units = q.units; kind = q.kind } };
}
