ghost use Rattle.std.specs.Prelude.{◌≡◌, ℕ, List, Option, [], ◌-◌, length, map, slice_index, slice_index_or, IfOk, OnOk};
ghost use Rattle.us_flows.specs.Clusters.{turns_of, words_of};
ghost use Rattle.us_split.specs.Plans.{IsIdle, plan_for, reserved_for};
ghost use Rattle.us_split.specs.Claims.{AreClaims, all_claims};
ghost use Rattle.us_split.specs.PlanLaws.{AreWithinReserves, IsLawfulPlan};
ghost use Rattle.us_split.specs.Asking.{AgreeOn, asking_in, turns_at};
ghost use Rattle.us_split.specs.Planners.{before_planning};

use crate::by_places::clear_all;
use crate::channel_plans::ChannelPlan;
use crate::claims::Claim;
use crate::row_plans::plan_passes;
use crate::shares::Shares;
use crate::turn_rows::{TurnRow, rows_of};
use std::alloc::Global;
use std::marker::Model;
use std::snapshot::Snapshot;
use us_flows::Config;
use us_slots::NoMemory;

/// Plans rounds, one after another, by what is made once of the tables. The claims keep their memory, so that most rounds
/// take none.
pub struct Planner {
    tables: Snapshot<Config>,
    rows: Vec<TurnRow>,
    channels: Vec<ChannelPlan>,

    // the first shares of a round
    firsts: Vec<Shares>,
}

impl Model for Planner {
    ghost use Rattle.std.specs.Prelude.{map};
    ghost use Rattle.us_split.specs.Planners as spec;
    ghost use Rattle.us_split.specs.TurnRows.{IsPlanning};

    ghost Value = { spec.Planner };

    ghost view = { λ p. record { tables = p.tables.value; claims = map (λ c. c.claims) p.channels.items } };

    ghost invariant = { λ p. IsPlanning p.tables.value p.rows.items p.channels.items };
}

/// Gives all lists up. It is written out so that it is one step wherever a planner ends.
impl Drop for Planner {
    fn drop(self) {
        let Planner {
            tables: _,
            rows: _,
            channels: _,
            firsts: _,
        } = self;
    }
}

impl Planner {
    /// A planner of these tables; nothing is planned yet.
    pub fn new(alloc: Global, config: &Config) -> Result<Planner, NoMemory>
        ensures { IfOk result (λ planner. planner ≡ before_planning config.now) }
    {
        let rows = rows_of(alloc, config)?;
        let channels = channels_of(alloc, config)?;
        Ok(Planner {
            tables: Snapshot::of(config),
            rows,
            channels,
            firsts: Vec::new(alloc),
        })
    }

    /// Plans a round, of the turns at these places: those of which bytes are outstanding. The claims of the round before
    /// are told no more.
    ///
    /// `allowances` has what the bucket of each flow allows, in table order, and `reserves` what is reserved for it, 0
    /// where nothing is listed; an empty list spares a look at each turn. What the plan takes of reserves, in first shares,
    /// is taken off; of flows without a minimum rate it takes nothing. What both lists have of other flows than those of
    /// the turns isn't read, and nothing is said of allowances afterwards. After want of memory nothing is said of
    /// reserves and claims either.
    pub fn plan(
        &mut self,
        askers: &[u16],
        outstanding: &[u64],
        allowances: &mut [Option<u64>],
        reserves: &mut [u64],
        idle: &[u32],
    ) -> Result<(), NoMemory>
        requires words { length outstanding.now ≡ length (words_of self.old.tables) }
        requires flows { length allowances.old ≡ length self.old.tables.flows }
        requires idle { IsIdle self.old.tables idle.now }
        requires askers { askers.now ≡ asking_in self.old.tables outstanding.now }

        // The claims of all turns, for all allowances and reserves that say the same of the flows of those who ask.
        ensures claims { (allowed : List (Option ℕ)) (kept : List ℕ) →
            AgreeOn (turns_at (turns_of self.old.tables) askers.now) allowances.old allowed reserves.old kept →
            OnOk result (self.new.claims ≡
            all_claims self.old.tables (plan_for self.old.tables outstanding.now allowed kept idle.now)) }

        // What these leave of reserves.
        ensures reserves { (allowed : List (Option ℕ)) (kept : List ℕ) →
            AgreeOn (turns_at (turns_of self.old.tables) askers.now) allowances.old allowed reserves.old kept →
            OnOk result ((flow : ℕ) → slice_index reserves.new flow ≡
            slice_index reserves.old flow - reserved_for self.old.tables outstanding.now allowed kept idle.now flow) }

        // No channel, cluster or flow gives more than it has,
        ensures law { (allowed : List (Option ℕ)) (kept : List ℕ) →
            IsLawfulPlan self.old.tables outstanding.now allowed idle.now
            (plan_for self.old.tables outstanding.now allowed kept idle.now) }

        // nor than is reserved for it in the first pass, in which a flow without a minimum rate gets nothing,
        ensures within { (allowed : List (Option ℕ)) (kept : List ℕ) →
            AreWithinReserves self.old.tables outstanding.now allowed kept idle.now }

        // and each claim on a channel is a burst there, at its cost.
        ensures bursts { (allowed : List (Option ℕ)) (kept : List ℕ) → AreClaims self.old.tables
            (plan_for self.old.tables outstanding.now allowed kept idle.now) }
        ensures tables { self.new.tables ≡ self.old.tables }
        ensures flows { length allowances.new ≡ length allowances.old }
    {
        let channels = self.channels.as_mut_slice();
        clear_all(channels, idle);
        plan_passes(
            &self.rows,
            channels,
            askers,
            outstanding,
            allowances,
            reserves,
            &mut self.firsts,
        )?;
        Ok(())
    }

    /// The channels with their claims.
    pub(crate) fn into_channels(self) -> Vec<ChannelPlan>
        ensures { map (λ c. c.claims) result.items ≡ self.claims }
    {
        let Planner {
            tables: _,
            rows: _,
            channels,
            firsts: _,
        } = self;
        channels
    }

    /// The claims on the channel at this place of the table, in the order of turns; none where there is no such channel.
    pub fn claims(&self, channel: usize) -> &[Claim]
        ensures { result.now ≡ slice_index_or self.now.claims channel [] }
    {
        match self.channels.get(channel) {
            Some(plan) => plan.claims(),
            None => &[],
        }
    }
}

/// All channels, each with a table of what minislots carry there, up to those of its MAPs.
fn channels_of(alloc: Global, config: &Config) -> Result<Vec<ChannelPlan>, NoMemory>
    ensures channels { IfOk result (λ channels. map (λ c. c.channel) channels.items ≡ config.now.channels) }
    ensures claims { IfOk result (λ channels. map (λ c. c.claims) channels.items ≡ map (λ c. []) config.now.channels) }
{
    let mut channels = Vec::with_capacity(alloc, config.channels().len())?;
    for channel in config.channels() {
        let most = config.map_len(channel);
        channels.push(ChannelPlan::tabled(alloc, *channel, most)?)?;
    }
    Ok(channels)
}
