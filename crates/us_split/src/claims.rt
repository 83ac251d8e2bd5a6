ghost use Rattle.std.specs.Prelude.{◌≡◌};
ghost use Rattle.us_split.specs.Claims as spec;
ghost use Rattle.us_split.specs.Claims.{is_at};

use std::marker::Model;
use us_slots::Iuc;

/// The SID cluster that a claim is of.
#[derive(Clone, Copy)]
pub struct Claimant {
    /// The number of its word.
    pub cluster: u16,
    /// The place of its flow among the flows.
    pub place: u16,
    /// The id of its flow.
    pub flow: u16,
    /// Its place among the clusters of the flow.
    pub list: u8,
}

impl Model for Claimant {
    ghost Value = { spec.Claimant };

    ghost view = { λ c. record { cluster = c.cluster; place = c.place; flow = c.flow; list = c.list } };

    ghost inverse = { λ c. record { cluster = c.cluster; place = c.place; flow = c.flow; list = c.list } };
}

/// A share of a turn on a channel, above 0, and what a grant of it takes there.
#[derive(Clone, Copy)]
pub struct Claim {
    /// Whose it is.
    pub claimant: Claimant,
    /// The place of its turn among the turns of a round.
    pub turn: u16,
    /// The bytes of a segment header there.
    pub header: u8,
    /// The place of the channel among those of the flow.
    pub position: u8,
    /// The SID of the cluster on the channel.
    pub sid: u16,
    /// Whether a grant is a short or a long data grant.
    pub iuc: Iuc,
    /// The bytes that are planned there, without the header.
    pub share: u32,
    /// The minislots of a grant of both.
    pub slots: u32,
}

impl Model for Claim {
    ghost Value = { spec.Claim };

    ghost view = { λ c. record {
      claimant = c.claimant;
      turn = c.turn;
      position = c.position;
      sid = c.sid;
      header = c.header;
      share = c.share;
      slots = c.slots;
      iuc = c.iuc;
    } };

    ghost inverse = { λ c. record {
      claimant = c.claimant;
      turn = c.turn;
      position = c.position;
      sid = c.sid;
      header = c.header;
      share = c.share;
      slots = c.slots;
      iuc = c.iuc;
    } };
}

impl Claim {
    /// Whether it is of the turn at this place, on its flow's channel at this position.
    pub(crate) fn is_at(&self, turn: usize, position: usize) -> bool
        ensures { result ≡ is_at turn position self.now }
    {
        usize::from(self.turn) == turn && usize::from(self.position) == position
    }
}
