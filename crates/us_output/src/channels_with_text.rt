ghost use Rattle.std.specs.Prelude.{◌≡◌, ◌+◌, ◌*◌, ◌<◌, ◌≤◌, length, slice_get, IfOk, IfSome, OnOk};
ghost use Rattle.std.specs.List.{AllByRecursion};
ghost use Rattle.us_flows.specs.Lawful.{IsChannel};
ghost use Rattle.us_flows.specs.Tables.{map_len, max_run_ticks};
ghost use Rattle.us_calendar.specs.Calendars.{pace_of};
ghost use Rattle.us_split.specs.Claims.{IsClaimOn};
ghost use Rattle.us_channel.specs.Channels as spec;
ghost use Rattle.us_output.specs.Ahead.{AreOf};

use crate::ahead::Ahead;
use std::alloc::Global;
use std::marker::Model;
use us_channel::ChannelRound;
use us_flows::Config;
use us_slots::NoMemory;
use us_split::Claim;

/// A channel from round to round, with room for what of the texts of its rounds needs no other channel. Whoever has the
/// channel, such as a worker, may write that ahead; where nobody did, it is written when the texts are made. A reader of
/// the channel can't tell the difference.
#[derive(Drop)]
pub struct ChannelWithText {
    channel: ChannelRound,
    ahead: Box<Ahead>,
}

impl Model for ChannelWithText {
    ghost use Rattle.std.specs.Prelude.{IfSome};
    ghost use Rattle.us_channel.specs.Channels as spec;
    ghost use Rattle.us_output.specs.Ahead.{AreOf};

    ghost Value = { spec.Built };

    ghost view = { λ c. c.channel };

    ghost invariant = { λ c. IfSome c.ahead.value.round (λ round. AreOf round c.channel c.ahead.value) };
}

impl ChannelWithText {
    /// The channel at this place of the table, before round 0.
    pub fn new(alloc: Global, config: &Config, place: usize) -> Result<ChannelWithText, NoMemory>
        requires { place < length config.now.channels }
        ensures { IfOk result (λ made. IfSome (slice_get config.now.channels place)
            (λ c. made ≡ spec.opening config.now c)) }
    {
        let channel = ChannelRound::new(alloc, config, place)?;
        let ahead = Box::new(alloc, Ahead::new(alloc))?;
        Ok(ChannelWithText { channel, ahead })
    }

    /// Takes in a round's cut, in bytes by word, before the round: its calendar hears which flows are active and which are
    /// silent. All else stays.
    pub fn hear(&mut self, cut: &[u64])
        ensures { self.new ≡ spec.heard cut.now self.old }
    {
        self.ahead.round = None;
        self.channel.hear(cut);
    }

    /// Puts the reserves of a round on the board, and settles what is due then; no claim is granted yet. The fault is want
    /// of memory, and nothing is said of board, calendar and lists then.
    pub fn fill(&mut self, config: &Config, round: u32) -> Result<(), NoMemory>
        requires channel { IsChannel config.now self.old.channel }
        requires pace { self.old.calendar.pace ≡ pace_of config.now self.old.channel }
        requires next { self.old.calendar.next_round ≡ round }
        requires time { (round + 1) * config.now.round_ticks ≤ max_run_ticks }
        ensures value { OnOk result
            (self.new ≡ spec.ungranted (spec.fill config.now round self.old.channel self.old.calendar)) }
        ensures len { OnOk result (length self.new.board.cells ≡ map_len config.now self.old.channel) }
        ensures channel { self.new.channel ≡ self.old.channel }
    {
        self.ahead.round = None;
        self.channel.fill(config, round)
    }

    /// Places claims. What was granted before is told no more. It needs no memory.
    pub fn place_claims(&mut self, claims: &[Claim])
        requires { AllByRecursion (IsClaimOn self.old.channel) claims.now }
        ensures value { self.new ≡ spec.build_on claims.now (spec.filled_part self.old) }
        ensures len { length self.new.board.cells ≡ length self.old.board.cells }
    {
        self.ahead.round = None;
        self.channel.place_claims(claims);
    }

    /// Writes ahead what of the texts of a round needs this channel alone. The fault is want of memory, and nothing is
    /// written then.
    pub fn write_ahead(&mut self, round: u32) -> Result<(), NoMemory>
        ensures { self.new ≡ self.old }
    {
        self.ahead.write(&self.channel, round)
    }

    /// The channel.
    pub fn channel_round(&self) -> &ChannelRound
        ensures { result.now ≡ self.now }
    {
        &self.channel
    }

    /// What was written ahead of this round, if anything was.
    pub(crate) fn ahead(&self, round: u32) -> Option<&Ahead>
        ensures { IfSome result (λ ahead. AreOf round self.now ahead.now) }
    {
        if self.ahead.round == Some(round) {
            Some(&self.ahead)
        } else {
            None
        }
    }
}
