ghost use Rattle.std.specs.Prelude.{◌≡◌, ℕ, ◌<◌, ◌-◌, [], length, map, slice_index, slice_index_or, IfOk};
ghost use Rattle.us_flows.specs.Clusters.{words_of};
ghost use Rattle.us_flows.specs.Lawful.{AreTables};
ghost use Rattle.us_split.specs.Plans.{IsIdle, plan_for, reserved_for};
ghost use Rattle.us_split.specs.Claims.{AreClaims, all_claims, share_of};
ghost use Rattle.us_split.specs.PlanLaws.{AreWithinReserves, IsLawfulPlan};

use crate::asking::places_of_askers;
use crate::planner::Planner;
use crate::plans::Plan;
use crate::row_plans::reserve_of;
use std::alloc::Global;
use us_flows::Config;
use us_slots::NoMemory;

/// Plans a round: how many bytes each turn may send on each of its flow's channels.
///
/// `outstanding` has the bytes of each SID cluster, at the number of its word; `allowances` what the bucket of each flow
/// allows, in table order, `None` where it has no limit; `reserves` what is reserved for each flow, 0 where nothing is
/// listed; `idle` the idle minislots of each channel, in table order.
///
/// First each turn of a flow with a minimum rate asks for the outstanding bytes of its cluster, as far as its flow's
/// reserve and allowance go, and they are divided over its channels by what these can carry in the minislots that the
/// turns before it left. A flow without a minimum rate has no part in it, whatever is listed for it. Then each turn asks
/// for the rest, as far as its flow's allowance goes, and has what that and its first shares take together.
#[tactic(auto, using(crate::proofs::TwoPassLaws::plan_facts))]
pub fn plan(
    alloc: Global,
    config: &Config,
    outstanding: &[u64],
    allowances: &[Option<u64>],
    reserves: &[u64],
    idle: &[u32],
) -> Result<Plan, NoMemory>
    requires words { length outstanding.now ≡ length (words_of config.now) }
    requires flows { length allowances.now ≡ length config.now.flows }
    requires idle { IsIdle config.now idle.now }
    ensures value { IfOk result (λ plan. plan.claims ≡
        all_claims config.now (plan_for config.now outstanding.now allowances.now reserves.now idle.now)) }

    // What it takes of each flow's reserve; it tells that of the table's flows and of no others.
    ensures flows { IfOk result (λ plan. length plan.reserved ≡ length config.now.flows) }
    ensures reserved { IfOk result (λ plan. (flow : ℕ) → flow < length config.now.flows →
        slice_index plan.reserved flow ≡
        reserved_for config.now outstanding.now allowances.now reserves.now idle.now flow) }

    // No channel, cluster or flow gives more than it has,
    ensures law { IsLawfulPlan config.now outstanding.now allowances.now idle.now
        (plan_for config.now outstanding.now allowances.now reserves.now idle.now) }

    // nor than is reserved for it in the first pass, in which a flow without a minimum rate gets nothing.
    ensures within { AreWithinReserves config.now outstanding.now allowances.now reserves.now idle.now }

    // Each claim on a channel is a burst there, at its cost.
    ensures claims { AreClaims config.now
        (plan_for config.now outstanding.now allowances.now reserves.now idle.now) }

    // The share of each turn on each of its channels, whether it is above 0 or not.
    ensures shares { IfOk result (λ plan. (turn position : ℕ) → share_of plan.claims turn position ≡
        slice_index (slice_index_or (map (λ planned. planned.shares)
        (plan_for config.now outstanding.now allowances.now reserves.now idle.now)) turn []) position) }
    ensures lawful { AreTables config.now }
{
    let flows = config.flows();
    let askers = places_of_askers(alloc, config, outstanding)?;
    let mut planner = Planner::new(alloc, config)?;
    let mut allowed = Vec::from_slice(alloc, allowances)?;
    let mut left = Vec::from_slice(alloc, reserves)?;
    planner.plan(&askers, outstanding, &mut allowed, &mut left, idle)?;
    let reserved = taken_of(alloc, reserves, &left, flows.len())?;
    Ok(Plan::new(planner.into_channels(), reserved))
}

/// What was taken of the reserves of so many flows, where so much is left of them.
fn taken_of(
    alloc: Global,
    reserves: &[u64],
    left: &[u64],
    flows: usize,
) -> Result<Vec<u64>, NoMemory>
    ensures one_each { IfOk result (λ taken. length taken.items ≡ flows) }
    ensures taken { IfOk result (λ taken. (flow : ℕ) → flow < flows →
        slice_index taken.items flow ≡ slice_index reserves.now flow - slice_index left.now flow) }
{
    let mut taken = Vec::with_capacity(alloc, flows)?;
    for flow in 0..flows {
        taken.push_reserved(reserve_of(reserves, flow).saturating_sub(reserve_of(left, flow)));
    }
    Ok(taken)
}
