ghost use Rattle.std.specs.Prelude.{◌≡◌, ◌≤◌, ◌<◌, ◌*◌, ◌+◌, length, map, Some, IfOk, true, false};
ghost use Rattle.std.specs.List.{AllByRecursion};
ghost use Rattle.us_slots.specs.Times.{minislot_ticks};
ghost use Rattle.us_flows.specs.Tables;
ghost use Rattle.us_flows.specs.Tables.{Tables};
ghost use Rattle.us_flows.specs.Turns.{turn_at};
ghost use Rattle.us_flows.specs.Clusters;
ghost use Rattle.us_flows.specs.Clusters.{words_of, turns_of};
ghost use Rattle.us_flows.specs.Ranges.{max_round_ticks, max_clusters};
ghost use Rattle.us_flows.specs.Lawful.{AreTables, IsChannel};
ghost use Rattle.us_flows.specs.Ranks.{IsConfig};

use crate::channels::Channel;
use crate::flows::Flow;
use crate::found::Found;
use crate::limits::map_len;
use crate::listed::{Channels, Flows, Stations};
use crate::stations::Station;
use crate::turns::{Turn, turns_of};
use std::alloc::{AllocError, Global};
use std::marker::Model;
use us_slots::{MAX_MAP_TICKS, NoMemory};

/// The most ticks of a run (ours).
const MAX_RUN_TICKS: u64 = 67_108_864;

/// A configuration without a fault.
pub struct Config {
    round_ticks: u32,
    lead_ticks: u32,
    channels: Channels,
    flows: Flows,
    stations: Stations,
    turns: Vec<Turn>,
}

impl Model for Config {
    ghost Value = { Tables };

    ghost view = { λ c. record {
      round_ticks = c.round_ticks;
      lead_ticks = c.lead_ticks;
      channels = c.channels;
      flows = c.flows;
      stations = c.stations;
    } };

    ghost invariant = { λ c. IsConfig (record {
      round_ticks = c.round_ticks;
      lead_ticks = c.lead_ticks;
      channels = c.channels;
      flows = c.flows;
      stations = c.stations;
    }) c.turns.items };
}

/// Gives the tables up. It is written out so that it is one step wherever a configuration ends.
impl Drop for Config {
    fn drop(self) {
        let Config {
            round_ticks: _,
            lead_ticks: _,
            channels: _,
            flows: _,
            stations: _,
            turns: _,
        } = self;
    }
}

impl Config {
    /// The configuration of these tables. Its turns are sorted here.
    pub(crate) fn new(
        alloc: Global,
        round_ticks: u32,
        lead_ticks: u32,
        channels: Channels,
        flows: Flows,
        stations: Stations,
    ) -> Result<Config, AllocError>
        requires { AreTables (record {
          round_ticks = round_ticks;
          lead_ticks = lead_ticks;
          channels = channels;
          flows = flows;
          stations = stations;
        }) }
        ensures { IfOk result (λ config. config ≡ record {
          round_ticks = round_ticks;
          lead_ticks = lead_ticks;
          channels = channels;
          flows = flows;
          stations = stations;
        }) }
    {
        let turns = turns_of(alloc, flows.all())?;
        Ok(Config {
            round_ticks,
            lead_ticks,
            channels,
            flows,
            stations,
            turns,
        })
    }

    /// The same tables in memory of their own. Where memory is wanting, what was copied is given up.
    pub fn copy(&self, alloc: Global) -> Result<Config, NoMemory>
        ensures value { IfOk result (λ copy. copy ≡ self.now) }
        ensures lawful { AreTables self.now }
    {
        let channels = Channels::copied(alloc, self.channels.all())?;
        let flows = Flows::copied(alloc, self.flows.all())?;
        let stations = Stations::copied(alloc, self.stations.all())?;
        let turns = Vec::from_slice(alloc, &self.turns)?;
        Ok(Config {
            round_ticks: self.round_ticks,
            lead_ticks: self.lead_ticks,
            channels,
            flows,
            stations,
            turns,
        })
    }

    /// The length of a round in ticks, 1 to 4,096.
    pub fn round_ticks(&self) -> u32
        ensures value { result ≡ self.now.round_ticks }
        ensures lawful { AreTables self.now }
    {
        self.round_ticks
    }

    /// The least time from a request to the start of a MAP that serves it, in ticks, 1 to 65,536.
    pub fn lead_ticks(&self) -> u32
        ensures value { result ≡ self.now.lead_ticks }
        ensures lawful { AreTables self.now }
    {
        self.lead_ticks
    }

    /// The channels in table order.
    pub fn channels(&self) -> &[Channel]
        ensures value { result.now ≡ self.now.channels }
        ensures lawful { AreTables self.now }
    {
        self.channels.all()
    }

    /// The flows in table order.
    pub fn flows(&self) -> &[Flow]
        ensures value { result.now ≡ self.now.flows }
        ensures lawful { AreTables self.now }
    {
        self.flows.all()
    }

    /// The stations in table order.
    pub fn stations(&self) -> &[Station]
        ensures value { result.now ≡ self.now.stations }
        ensures lawful { AreTables self.now }
    {
        self.stations.all()
    }

    /// The minislots of a channel's MAPs, 1 to 4,096.
    pub fn map_len(&self, channel: &Channel) -> u32
        requires { IsChannel self.now channel.now }
        ensures value { result ≡ Tables.map_len self.now channel.now }
        ensures some { 1 ≤ result }
        ensures most { result ≤ max_round_ticks }
        ensures ticks { result * minislot_ticks channel.now.bursts.time ≤ MAX_MAP_TICKS }
        ensures lawful { AreTables self.now }
    {
        map_len(self.round_ticks, channel)
    }

    /// Whether so many rounds, at least one, fit into a run.
    pub fn rounds_fit(&self, rounds: u32) -> bool
        ensures value { result ≡ Tables.rounds_fit self.now rounds }
        ensures lawful { AreTables self.now }
    {
        rounds >= 1 && u64::from(rounds) * u64::from(self.round_ticks) <= MAX_RUN_TICKS
    }

    /// The most rounds that fit into a run.
    pub fn most_rounds(&self) -> u32
        ensures fits { Tables.rounds_fit self.now result ≡ true }
        ensures most { Tables.rounds_fit self.now (result + 1) ≡ false }
        ensures lawful { AreTables self.now }
    {
        (MAX_RUN_TICKS / u64::from(self.round_ticks)) as u32
    }

    /// The turns of each round, in order: by priority falling, then by flow id rising, then by cluster.
    #[tactic(auto, using(crate::proofs::TurnLaws::config_numbers))]
    pub fn turns(&self) -> &[Turn]
        ensures value { map (turn_at self.now) result.now ≡ map Some (turns_of self.now) }
        ensures numbers { AllByRecursion (λ turn. turn.cluster < length (words_of self.now)) result.now }
        ensures lawful { AreTables self.now }
    {
        &self.turns
    }

    /// How many words there are: one for each SID cluster that makes requests, and two for each flow that tells its activity.
    pub fn clusters(&self) -> usize
        ensures value { result ≡ length (words_of self.now) }
        ensures few { result ≤ max_clusters }
        ensures lawful { AreTables self.now }
    {
        self.flows.words()
    }

    /// What a SID asks for on a channel: a SID cluster or a flow's activity, by the number of its word in table order, or
    /// an unsolicited grant.
    #[tactic(auto, unfolding(crate::specs::Clusters::lookup))]
    pub fn lookup(&self, channel: u8, sid: u16) -> Option<Found>
        ensures value { result ≡ Clusters.lookup self.now channel sid }
        ensures lawful { AreTables self.now }
    {
        self.flows.lookup(channel, sid)
    }
}
