ghost use Rattle.std.specs.Prelude.{◌≡◌, ◌+◌, ◌*◌, ◌<◌, ◌≤◌, length, slice_get, IfOk, IfSome, OnOk};
ghost use Rattle.std.specs.List.{AllByRecursion};
ghost use Rattle.us_flows.specs.Lawful.{IsChannel};
ghost use Rattle.us_flows.specs.Tables.{map_len, max_run_ticks};
ghost use Rattle.us_calendar.specs.Calendars.{activity_in, pace_of};
ghost use Rattle.us_holes.specs.Boards.{free_count};
ghost use Rattle.us_split.specs.Claims.{IsClaimOn};
ghost use Rattle.us_channel.specs.Channels as spec;

use crate::granting::grant_all;
use crate::placing::PlacedClaim;
use crate::reserving::reserves;
use std::alloc::Global;
use std::marker::Model;
use us_calendar::{Calendar, Settled};
use us_flows::{Channel, Config};
use us_holes::{Board, MAX_ASSIGNMENTS};
use us_slots::NoMemory;
use us_split::Claim;

/// What a channel has of its own in memory. It stays where it stands while the channel goes from list to list.
pub(crate) struct Track {
    pub calendar: Calendar,
    pub board: Board,
    pub settled: Vec<Settled>,
    pub grants: Vec<PlacedClaim>,
}

/// Gives all of it up. It is written out so that it is one step wherever a channel ends.
impl Drop for Track {
    fn drop(self) {
        let Track {
            calendar: _,
            board: _,
            settled: _,
            grants: _,
        } = self;
    }
}

/// A channel from round to round, with all memory that its rounds need: its calendar, its board, and the lists of what
/// the calendar settles and of what claims are granted. What stands there is of the last round.
#[derive(Drop)]
pub struct ChannelRound {
    channel: Channel,
    track: Box<Track>,
}

impl Model for ChannelRound {
    ghost use Rattle.us_channel.specs.Channels as spec;
    ghost use Rattle.us_channel.specs.Tracks.{IsTrack};

    ghost Value = { spec.Built };

    ghost view = { λ r. record {
      channel = r.channel;
      board = r.track.value.board;
      calendar = r.track.value.calendar;
      settled = r.track.value.settled.items;
      grants = r.track.value.grants.items;
    } };

    ghost invariant = { λ r. IsTrack r.channel r.track.value };
}

impl ChannelRound {
    /// The channel at this place of the table, before round 0.
    pub fn new(alloc: Global, config: &Config, place: usize) -> Result<ChannelRound, NoMemory>
        requires { place < length config.now.channels }
        ensures { IfOk result (λ made. IfSome (slice_get config.now.channels place)
            (λ c. made ≡ spec.opening config.now c)) }
    {
        let channel = config.channels()[place];
        let calendar = Calendar::new(alloc, config, place)?;
        let board = Board::new(alloc, config.map_len(&channel))?;
        let settled = Vec::new(alloc);
        let grants = Vec::with_capacity(alloc, MAX_ASSIGNMENTS as usize)?;
        let track = Box::new(
            alloc,
            Track {
                calendar,
                board,
                settled,
                grants,
            },
        )?;
        Ok(ChannelRound { channel, track })
    }

    /// Takes in a round's cut, in bytes by word, before the round: its calendar hears which flows are active and which are
    /// silent. All else stays.
    pub fn hear(&mut self, cut: &[u64])
        ensures { self.new ≡ spec.heard cut.now self.old }
    {
        self.track.calendar.hear(cut);
    }

    /// Puts the reserves of a round on the board, and settles what is due then; no claim is granted yet. The fault is want
    /// of memory, and nothing is said of board, calendar and lists then.
    pub fn fill(&mut self, config: &Config, round: u32) -> Result<(), NoMemory>
        requires channel { IsChannel config.now self.old.channel }
        requires pace { self.old.calendar.pace ≡ pace_of config.now self.old.channel }
        requires next { self.old.calendar.next_round ≡ round }
        requires time { (round + 1) * config.now.round_ticks ≤ max_run_ticks }
        ensures value { OnOk result
            (self.new ≡ spec.ungranted (spec.fill config.now round self.old.channel self.old.calendar)) }
        ensures len { OnOk result (length self.new.board.cells ≡ map_len config.now self.old.channel) }
        ensures channel { self.new.channel ≡ self.old.channel }
    {
        let Track {
            calendar,
            board,
            settled,
            grants,
        } = self.track.as_mut();
        grants.clear();
        reserves(board, &self.channel, round);
        calendar.settle_into(round, board, settled)
    }

    /// Places claims. What was granted before is told no more. It needs no memory.
    pub fn place_claims(&mut self, claims: &[Claim])
        requires { AllByRecursion (IsClaimOn self.old.channel) claims.now }
        ensures value { self.new ≡ spec.build_on claims.now (spec.filled_part self.old) }
        ensures len { length self.new.board.cells ≡ length self.old.board.cells }
    {
        let Track {
            calendar,
            board,
            settled: _,
            grants,
        } = self.track.as_mut();
        // Asked for what it tells of the calendar: how many ticks a MAP has.
        let _ = calendar.next_round();
        grant_all(&self.channel, claims, board, grants);
    }

    /// How many minislots are idle.
    pub fn idle(&self) -> u32
        ensures value { result ≡ free_count self.now.board.cells }
        ensures known { spec.IsBuilt self.now }
    {
        // Asked for what it tells of the calendar, as in `grants`.
        let _ = self.track.calendar.next_round();
        self.track.board.free_count()
    }

    /// The channel.
    pub fn channel(&self) -> &Channel
        ensures { result.now ≡ self.now.channel }
    {
        &self.channel
    }

    /// Its board.
    pub fn board(&self) -> &Board
        ensures { result.now ≡ self.now.board }
    {
        &self.track.board
    }

    /// Whether the flow with this id is active, as its calendar heard last. `None` where the channel's calendar has no entry of
    /// a flow with this id, or where nobody detects the flow's activity.
    pub fn activity(&self, id: u16) -> Option<bool>
        ensures { result ≡ activity_in id self.now.calendar }
    {
        self.track.calendar.activity(id)
    }

    /// What its calendar settled, granted or missed, in the order of the calendar.
    pub fn settled(&self) -> &[Settled]
        ensures { result.now ≡ self.now.settled }
    {
        &self.track.settled
    }

    /// What its claims are granted, in the order of turns.
    pub fn grants(&self) -> &[PlacedClaim]
        ensures value { result.now ≡ self.now.grants }
        ensures known { spec.IsBuilt self.now }
    {
        let _ = self.track.calendar.next_round();
        &self.track.grants
    }
}
