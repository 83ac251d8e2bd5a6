ghost use Rattle.std.specs.Prelude.{◌≡◌, ◌+◌, ◌-◌, ◌*◌, ◌^◌, ◌<◌, ◌≤◌, filter_map, length, zip, IfOk, OnOk};
ghost use Rattle.std.specs.List.{AllByRecursion};
ghost use Rattle.std.specs.Arc.{arc_value};
ghost use Rattle.us_flows.specs.Tables.{max_run_ticks};
ghost use Rattle.us_flows.specs.Clusters.{words_of};
ghost use Rattle.us_flows.specs.Lawful.{AreTables};
ghost use Rattle.us_split.specs.Plans.{IsIdle};
ghost use Rattle.us_channel.specs.Channels.{IsBuilt};
ghost use Rattle.us_round.specs.Buckets.{full_reserves};
ghost use Rattle.us_round.specs.Rounds.{all_grants};
ghost use Rattle.us_round.specs.Cores as spec;
ghost use Rattle.us_round.specs.States.{Covers};

use crate::buckets::Buckets;
use std::alloc::Global;
use std::marker::Model;
use std::sync::Arc;
use us_bucket::Bucket;
use us_flows::Config;
use us_output::{ChannelWithText, PendingSid};
use us_slots::NoMemory;
use us_split::{Askers, Planner};

// What those who ask are allowed.
mod allowing;

// What grants take of it.
mod crediting;

// Who is pending.
mod pending;

// What is reserved.
mod reserving;

use allowing::{allow, note_idle};
use crediting::credit_all;
use pending::list_pendings;
use reserving::{leave, reserve};

/// What a core has in memory. It stays where it stands while the core goes through the stages of a round.
pub(crate) struct Kept {
    // The workers of a round have it too, while the core goes through the stages.
    config: Arc<Config>,
    round: u32,
    askers: Askers,
    buckets: Buckets,
    reserves: Buckets,
    planner: Planner,

    // room for what a plan is made of: allowances and what is reserved, by flow, and idle minislots by channel; none for what
    // is reserved where no flow has a minimum rate
    allowances: Vec<Option<u64>>,
    left: Vec<u64>,
    idle: Vec<u32>,
}

/// Gives all of it up. It is written out so that it is one step wherever a core ends.
impl Drop for Kept {
    fn drop(self) {
        let Kept {
            config: _,
            round: _,
            askers: _,
            buckets: _,
            reserves: _,
            planner: _,
            allowances: _,
            left: _,
            idle: _,
        } = self;
    }
}

/// All that a round starts from but the channels: the configuration, the number of the round, what is outstanding by word, and
/// of each flow its bucket and that of its minimum rate; and the planner, which has the claims of the round.
pub(crate) struct Core {
    kept: Box<Kept>,
}

impl Model for Core {
    ghost Value = { spec.Core };

    ghost view = { λ s. spec.core_of (arc_value s.kept.value.config) s.kept.value.round s.kept.value.askers s.kept.value.buckets
        s.kept.value.reserves s.kept.value.planner };

    ghost invariant = { λ s. spec.AreKept (arc_value s.kept.value.config) s.kept.value.askers s.kept.value.buckets s.kept.value.reserves
        s.kept.value.planner s.kept.value.allowances.items s.kept.value.left.items };
}

/// Gives the core up. It is written out so that it is one step wherever a core ends.
impl Drop for Core {
    fn drop(self) {
        let Core { kept: _ } = self;
    }
}

impl Core {
    /// Before round 0: nothing is outstanding, and every bucket is full.
    pub(crate) fn new(alloc: Global, config: Config) -> Result<Core, NoMemory>
        ensures { IfOk result (λ core. core ≡ spec.opening_core config) }
    {
        let askers = Askers::new(alloc, &config)?;
        let buckets = Buckets::full(alloc, &config)?;
        let reserves = Buckets::full_reserves(alloc, &config)?;
        let planner = Planner::new(alloc, &config)?;
        let flows = config.flows().len();
        let allowances = no_limits(alloc, flows)?;
        let left = room_for_reserves(alloc, &config)?;
        let config = Arc::new(alloc, config)?;
        let kept = Box::new(
            alloc,
            Kept {
                config,
                round: 0,
                askers,
                buckets,
                reserves,
                planner,
                allowances,
                left,
                idle: Vec::new(alloc),
            },
        )?;
        Ok(Core { kept })
    }

    /// The configuration.
    pub(crate) fn config(&self) -> &Config
        ensures value { result.now ≡ self.now.tables }
        ensures known { spec.IsCore self.now }
    {
        &self.kept.config
    }

    /// A share of the configuration, which may outlive the core.
    pub(crate) fn share_config(&self) -> Result<Arc<Config>, NoMemory>
        ensures { IfOk result (λ config. arc_value config ≡ self.now.tables) }
    {
        Ok(self.kept.config.clone()?)
    }

    /// The number of the next round.
    pub(crate) fn round(&self) -> u32
        ensures { result ≡ self.now.round }
    {
        self.kept.round
    }

    /// What is outstanding, by word.
    pub(crate) fn outstanding(&self) -> &[u64]
        ensures { result.now ≡ self.now.outstanding }
    {
        self.kept.askers.outstanding()
    }

    /// The bucket of each flow.
    pub(crate) fn buckets(&self, alloc: Global) -> Result<Vec<Bucket>, NoMemory>
        ensures { IfOk result (λ buckets. buckets.items ≡ self.now.buckets) }
    {
        self.kept.buckets.levels(alloc)
    }

    /// The claims on each channel.
    pub(crate) fn planner(&self) -> &Planner
        ensures { result.now.claims ≡ self.now.claims }
    {
        &self.kept.planner
    }

    /// Begins the round: each cluster asks for the bytes that the cut has of its word, and in every round but the first the
    /// buckets grow.
    pub(crate) fn begin(&mut self, cuts: &[u64])
        requires words { length cuts.now ≡ length (words_of self.old.tables) }
        requires room { AllByRecursion (λ pair. pair.0 + pair.1 < 2 ^ 62) (zip self.old.outstanding cuts.now) }
        requires told { self.old.told ≡ self.old.round - 1 }
        requires time { (self.old.round + 1) * self.old.tables.round_ticks ≤ max_run_ticks }
        ensures value { self.new ≡ spec.begun_core self.old cuts.now }
        ensures lawful { AreTables self.old.tables }
    {
        let Kept {
            round,
            askers,
            buckets,
            reserves,
            ..
        } = self.kept.as_mut();
        askers.add_all(cuts);
        buckets.begin(*round);
        reserves.begin(*round);
    }

    /// Plans the round, over channels with reserves and calendars. What the plan reserves of flows leaves the buckets of their
    /// minimum rates, whether it is placed or not.
    pub(crate) fn plan(&mut self, channels: &[ChannelWithText]) -> Result<(), NoMemory>
        requires room { IsIdle self.old.tables (spec.idle_of channels.now) }
        ensures { OnOk result (self.new ≡ spec.planned_core self.old channels.now) }
    {
        let Kept {
            config,
            askers,
            buckets,
            reserves,
            planner,
            allowances,
            left,
            idle,
            ..
        } = self.kept.as_mut();
        note_idle(idle, channels)?;
        let turns = config.turns();
        let asking = askers.asking();
        let allowances = allowances.as_mut_slice();
        let left = left.as_mut_slice();
        allow(turns, asking, buckets, allowances);
        reserve(turns, asking, reserves, left);
        planner.plan(asking, askers.outstanding(), allowances, left, idle)?;
        leave(turns, asking, reserves, left);
        Ok(())
    }

    /// Ends the round: what was granted leaves the outstanding bytes and the buckets.
    pub(crate) fn close(&mut self, built: &[ChannelWithText])
        requires covers { Covers self.old.outstanding self.old.buckets (all_grants built.now) }
        requires round { self.old.round + 1 < 2 ^ 32 }
        ensures value { self.new ≡ spec.credited_core self.old built.now }
        ensures known { AllByRecursion IsBuilt built.now }
    {
        let Kept {
            round,
            askers,
            buckets,
            ..
        } = self.kept.as_mut();
        credit_all(askers, buckets, built);
        askers.settle();
        *round += 1;
    }

    /// Lists who was pending in the round before.
    pub(crate) fn list_pendings(&self, pendings: &mut Vec<PendingSid>) -> Result<(), NoMemory>
        ensures { OnOk result (pendings.new.items ≡ filter_map (spec.first_sid_at self.now.tables) self.now.pending) }
    {
        list_pendings(pendings, &self.kept.config, self.kept.askers.pending())
    }
}

/// An allowance without limit for so many flows.
fn no_limits(alloc: Global, flows: usize) -> Result<Vec<Option<u64>>, NoMemory>
    ensures { IfOk result (λ all. length all.items ≡ flows) }
{
    Ok(vec![in alloc; None; flows]?)
}

/// Room for what is reserved, flow by flow; an empty list where no flow has a minimum rate, so that a round has nothing to look
/// at.
fn room_for_reserves(alloc: Global, config: &Config) -> Result<Vec<u64>, NoMemory>
    ensures { IfOk result (λ all. spec.IsRoom (full_reserves config.now).levels all.items) }
{
    let flows = config.flows();
    for flow in flows {
        if flow.min_rate() > 0 {
            return Ok(vec![in alloc; 0; flows.len()]?);
        }
    }
    Ok(Vec::new(alloc))
}
