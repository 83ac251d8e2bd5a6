ghost use Rattle.std.specs.Prelude.{◌≡◌, ◌+◌, ◌*◌, ◌≤◌, IfOk, OnOk};
ghost use Rattle.us_flows.specs.Tables.{Tables, max_run_ticks};
ghost use Rattle.us_split.specs.Plans.{IsIdle};
ghost use Rattle.us_round.specs.Cores.{idle_of, planned_core};
ghost use Rattle.us_round.specs.Parts.{AreBuilt, AreClaimsOn, ArePartsOfRound, built_by, done_of, filled_by};

use crate::cores::Core;
use crate::done::RoundDone;
use crate::hands::{Building, Filling, Hands};
use us_output::{ChannelWithText, PendingSid};
use us_slots::NoMemory;

/// What a state consists of, which go through the stages of a round: what its channels know nothing of, and the channels.
pub(crate) struct Parts {
    pub core: Core,
    pub channels: Vec<ChannelWithText>,

    // who was pending in the last round
    pub pendings: Vec<PendingSid>,
}

/// Gives the parts up. It is written out so that it is one step wherever they end.
impl Drop for Parts {
    fn drop(self) {
        let Parts {
            core: _,
            channels: _,
            pendings: _,
        } = self;
    }
}

impl Parts {
    /// Makes the reserves of all channels, and settles what their calendars have due.
    pub(crate) fn fill<H: Hands>(self, hands: &mut H) -> Result<Parts, NoMemory>
        requires known { ArePartsOfRound self.core self.channels.items }
        requires time { (self.core.round + 1) * self.core.tables.round_ticks ≤ max_run_ticks }
        requires hands { H.knows hands.old self.core.tables }
        ensures core { IfOk result (λ filled. filled.core ≡ self.core) }
        ensures channels { IfOk result (λ filled. filled.channels.items ≡ filled_by self.core self.channels.items) }
        ensures same { (t : Tables) → H.knows hands.old t → H.knows hands.new t }
    {
        let Parts {
            core,
            channels,
            pendings,
        } = self;
        let work = Filling {
            config: core.config(),
            round: core.round(),
        };
        let channels = hands.fill(&work, channels)?;
        Ok(Parts {
            core,
            channels,
            pendings,
        })
    }

    /// Plans the round, over boards with reserves and calendars.
    pub(crate) fn plan(&mut self) -> Result<(), NoMemory>
        requires room { IsIdle self.old.core.tables (idle_of self.old.channels.items) }
        ensures core { OnOk result (self.new.core ≡ planned_core self.old.core self.old.channels.items) }
        ensures channels { self.new.channels.items ≡ self.old.channels.items }
    {
        self.core.plan(&self.channels)
    }

    /// Places the claims of the plan on all channels.
    pub(crate) fn build<H: Hands>(self, hands: &mut H) -> Result<Parts, NoMemory>
        requires claims { AreClaimsOn self.core.claims self.channels.items }
        requires hands { H.knows hands.old self.core.tables }
        ensures core { IfOk result (λ built. built.core ≡ self.core) }
        ensures channels { IfOk result (λ built. built.channels.items ≡ built_by self.core.claims self.channels.items) }
        ensures same { (t : Tables) → H.knows hands.old t → H.knows hands.new t }
    {
        let Parts {
            core,
            channels,
            pendings,
        } = self;
        let work = Building {
            planner: core.planner(),
            round: core.round(),
        };
        let channels = hands.build(&work, channels)?;
        Ok(Parts {
            core,
            channels,
            pendings,
        })
    }

    /// Ends a round whose claims are all placed: what was granted leaves the outstanding bytes and the buckets, and who is
    /// pending is listed.
    pub(crate) fn close(self) -> Result<RoundDone, NoMemory>
        requires built { AreBuilt self.core self.channels.items }
        ensures { IfOk result (λ done. done ≡ done_of self.core self.channels.items) }
    {
        let mut parts = self;
        parts.core.close(&parts.channels);
        parts.core.list_pendings(&mut parts.pendings)?;
        Ok(RoundDone::of(parts))
    }
}
