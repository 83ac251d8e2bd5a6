ghost use Rattle.std.specs.Prelude.{◌≡◌, ◌+◌, ◌*◌, ◌≤◌, [], slice_index, Some, IfOk, OnOk};
ghost use Rattle.std.specs.Bool.{OnTrue};
ghost use Rattle.us_slots.specs.Times.{minislot_ticks};
ghost use Rattle.us_flows.specs.Ranges.{max_round_ticks};
ghost use Rattle.us_flows.specs.Tables.{segment_header_bytes};
ghost use Rattle.us_split.specs.Plans.{weight, share_cost, max_burst_bytes};
ghost use Rattle.us_slots.specs.Capacities.{capacity_of};
ghost use Rattle.us_split.specs.PartialPlans as spec;
ghost use Rattle.us_split.specs.TurnRows.{IsTable};
ghost use Rattle.us_split.specs.KnownCosts.{AreCosts};
ghost use Rattle.us_split.specs.PartialPlans.{IsFull, budget_in, most_slots, returned, taken, with_claim};

use crate::claims::{Claim, Claimant};
use crate::known_costs::{KnownCost, cost_of, first_costs};
use std::alloc::Global;
use std::marker::Model;
use us_flows::Channel;
use us_slots::{BurstSet, MAX_MAP_TICKS, NoMemory, capacity};

/// Who claims: a SID cluster, the place of its turn, and the bytes of its segment header.
#[derive(Clone, Copy)]
pub(crate) struct Asker {
    pub claimant: Claimant,
    pub turn: u16,
    pub header: u8,
}

impl Model for Asker {
    ghost Value = { spec.Asker };

    ghost view = { λ a. record { claimant = a.claimant; turn = a.turn; header = a.header } };

    ghost inverse = { λ a. record { claimant = a.claimant; turn = a.turn; header = a.header } };
}

/// A channel, the minislots that are still to be planned on it, and the claims so far, in the order of turns. What
/// minislots carry in its long profile may stand in a table, by their number, and costs of grants that were reckoned
/// before in another.
pub(crate) struct ChannelPlan {
    channel: Channel,
    slots: u32,
    claims: Vec<Claim>,
    carries: Vec<u32>,
    costs: Vec<KnownCost>,
}

impl Model for ChannelPlan {
    ghost Value = { spec.ChannelPlan };

    ghost view = { λ c. record { channel = c.channel; slots = c.slots; claims = c.claims.items } };

    ghost invariant = { λ c. (c.slots * minislot_ticks c.channel.bursts.time ≤ max_round_ticks)
        × IsTable c.channel.bursts c.carries.items × AreCosts c.channel.bursts c.costs.items };
}

/// Gives all lists up. It is written out so that it is one step wherever a channel's plan ends.
impl Drop for ChannelPlan {
    fn drop(self) {
        let ChannelPlan {
            channel: _,
            slots: _,
            claims: _,
            carries: _,
            costs: _,
        } = self;
    }
}

impl ChannelPlan {
    /// No minislots of a channel, no claims, a table of what up to so many of its minislots carry, which are no more than
    /// a MAP has, and one of costs.
    pub(crate) fn tabled(
        alloc: Global,
        channel: Channel,
        most: u32,
    ) -> Result<ChannelPlan, NoMemory>
        requires { most * minislot_ticks channel.bursts.time ≤ max_round_ticks }
        ensures { let plan : spec.ChannelPlan = record { channel = channel; slots = 0; claims = [] } in
            IfOk result (λ made. made ≡ plan) }
    {
        let carries = table_of(alloc, &channel.bursts, most)?;
        let costs = first_costs(alloc, &channel.bursts)?;
        Ok(ChannelPlan {
            channel,
            slots: 0,
            claims: Vec::new(alloc),
            carries,
            costs,
        })
    }

    /// Gives the claims up, and has so many minislots, which are no more than a MAP has.
    pub(crate) fn clear(&mut self, slots: u32)
        requires { slots * minislot_ticks self.old.channel.bursts.time ≤ max_round_ticks }
        ensures { let plan : spec.ChannelPlan = record { channel = self.old.channel; slots = slots; claims = [] } in
            self.new ≡ plan }
    {
        self.claims.clear();
        self.slots = slots;
    }

    /// The claims so far.
    pub(crate) fn claims(&self) -> &[Claim]
        ensures { result.now ≡ self.now.claims }
    {
        &self.claims
    }

    /// The most bytes that the channel can carry behind a header.
    pub(crate) fn weight(&self, header: u32) -> u32
        requires { header ≤ segment_header_bytes }
        ensures value { result ≡ weight header (Some (budget_in self.now)) }
        ensures burst { result + header ≤ max_burst_bytes }
    {
        self.carried().saturating_sub(header)
    }

    /// Whether it carries no byte.
    pub(crate) fn is_full(&self) -> bool
        ensures { OnTrue result (IsFull self.now) }
    {
        self.carried() == 0
    }

    /// The most bytes that its minislots carry.
    #[tactic(auto, using(crate::proofs::ChannelPlanLemmas::few_facts))]
    fn carried(&self) -> u32
        ensures value { result ≡ capacity_of self.now.channel.bursts.time self.now.channel.bursts.long self.now.slots }
        ensures burst { result ≤ max_burst_bytes }
        ensures within { self.now.slots ≤ most_slots self.now.channel }
    {
        match self.carries.get(self.slots as usize) {
            Some(bytes) => *bytes,
            None => self.reckoned(),
        }
    }

    /// The same of minislots that stand in no table. That is seldom, so its code stands apart.
    #[cold]
    #[inline(never)]
    fn reckoned(&self) -> u32
        ensures value { result ≡ capacity_of self.now.channel.bursts.time self.now.channel.bursts.long self.now.slots }
        ensures burst { result ≤ max_burst_bytes }
    {
        capacity(
            self.channel.bursts.time(),
            self.channel.bursts.long(),
            self.slots,
        )
    }

    /// Claims a share, and takes off the minislots that it costs.
    #[tactic(auto, using(crate::proofs::ChannelPlanLemmas::fewer_ticks))]
    pub(crate) fn claim(
        &mut self,
        asker: Asker,
        position: u8,
        sid: u16,
        share: u32,
    ) -> Result<(), NoMemory>
        requires { share + asker.header ≤ max_burst_bytes }
        ensures claim { OnOk result (self.new ≡ with_claim asker position sid share self.old) }
        ensures channel { self.new.channel ≡ self.old.channel }
    {
        let bytes = share + u32::from(asker.header);
        let (slots, iuc) = cost_of(&mut self.costs, &self.channel.bursts, bytes);
        self.claims.push(Claim {
            claimant: asker.claimant,
            turn: asker.turn,
            position,
            sid,
            header: asker.header,
            share,
            slots,
            iuc,
        })?;
        self.slots = self.slots.saturating_sub(slots);
        Ok(())
    }

    /// The minislots that a share costs behind a header; none where there is no share.
    fn cost(&mut self, header: u8, share: u32) -> u32
        requires { share + header ≤ max_burst_bytes }
        ensures value { result ≡ share_cost self.old.channel header share }
        ensures kept { self.new ≡ self.old }
    {
        if share == 0 {
            return 0;
        }
        let bytes = share + u32::from(header);
        let (slots, _) = cost_of(&mut self.costs, &self.channel.bursts, bytes);
        slots
    }

    /// Takes off the minislots that a share costs, and claims nothing.
    #[tactic(auto, using(crate::proofs::ChannelPlanLemmas::fewer_ticks))]
    pub(crate) fn take(&mut self, header: u8, share: u32)
        requires { share + header ≤ max_burst_bytes }
        ensures { self.new ≡ taken header share self.old }
    {
        let cost = self.cost(header, share);
        self.slots = self.slots.saturating_sub(cost);
    }

    /// Gives back the minislots that a share cost, up to what a MAP can have.
    #[tactic(auto, using(crate::proofs::ChannelPlanLemmas::most_facts))]
    pub(crate) fn give_back(&mut self, header: u8, share: u32)
        requires { share + header ≤ max_burst_bytes }
        ensures { self.new ≡ returned header share self.old }
    {
        let cost = self.cost(header, share);
        let most = MAX_MAP_TICKS / self.channel.bursts.time().minislot_ticks();
        self.slots = self.slots.saturating_add(cost).min(most);
    }
}

/// What minislots carry in the long profile of a channel, by their number, up to so many, which are no more than a MAP has.
fn table_of(alloc: Global, bursts: &BurstSet, most: u32) -> Result<Vec<u32>, NoMemory>
    requires { most * minislot_ticks bursts.now.time ≤ max_round_ticks }
    ensures { IfOk result (λ table. IsTable bursts.now table.items) }
{
    let mut table = Vec::with_capacity(alloc, most as usize + 1)?;
    for slots in 0..most + 1 {
        table.push(capacity(bursts.time(), bursts.long(), slots))?;
    }
    Ok(table)
}

/// The SID at this position; 0 where there is none.
pub(crate) fn sid_at(sids: &[u16], position: usize) -> u16
    ensures { result ≡ slice_index sids.now position }
{
    match sids.get(position) {
        Some(sid) => *sid,
        None => 0,
    }
}
