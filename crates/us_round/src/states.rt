ghost use Rattle.std.specs.Prelude.{◌≡◌, ◌≤◌, length, map, IfErr, IfOk};
ghost use Rattle.us_channel.specs.Channels as channels;
ghost use Rattle.us_round.specs.Parts.{ArePartsOfState, state_of};
ghost use Rattle.us_round.specs.Rounds as spec;
ghost use Rattle.us_round.specs.States.{IsState, settled_by, max_settled_by};
ghost use Rattle.us_round.specs.FinalRows.{final_rows};

use crate::activities::activities;
use crate::cores::Core;
use crate::faults::RoundFault;
use crate::parts::Parts;
use std::alloc::Global;
use std::marker::Model;
use us_flows::Config;
use us_output::{ChannelWithText, Row, activity_rows};
use us_slots::NoMemory;

/// What a round starts from: the configuration, the number of the round, what is outstanding of each SID cluster, the
/// bucket of each flow, and the calendar of each channel, which knows which of its flows are active.
pub struct State {
    parts: Parts,
}

impl Model for State {
    ghost Value = { spec.State };

    ghost view = { λ s. state_of s.parts.core s.parts.channels.items };

    ghost invariant = { λ s. ArePartsOfState s.parts.core s.parts.channels.items };
}

/// Gives the state up. It is written out so that it is one step wherever a state ends.
impl Drop for State {
    fn drop(self) {
        let State { parts: _ } = self;
    }
}

impl State {
    /// Before round 0: nothing is outstanding, every bucket is full, nothing of the calendars is settled, and every flow is
    /// active. The fault is want of memory, and the configuration is given up then.
    pub fn new(alloc: Global, config: Config) -> Result<State, RoundFault>
        ensures state { IfOk result (λ state. state ≡ spec.opening config) }
        ensures fault { IfErr result (λ given. given ≡ RoundFault.NoMemory) }
    {
        let channels = channels_of(alloc, &config)?;
        let core = Core::new(alloc, config)?;
        Ok(State::of(Parts {
            core,
            channels,
            pendings: Vec::new(alloc),
        }))
    }

    /// The state of these parts.
    pub(crate) fn of(parts: Parts) -> State
        requires { ArePartsOfState parts.core parts.channels.items }
        ensures { result ≡ state_of parts.core parts.channels.items }
    {
        State { parts }
    }

    /// Its parts.
    pub(crate) fn into_parts(self) -> Parts
        ensures value { state_of result.core result.channels.items ≡ self }
        ensures known { ArePartsOfState result.core result.channels.items }
    {
        let State { parts } = self;
        parts
    }

    /// All but its channels.
    pub(crate) fn core(&self) -> &Core
        ensures tables { result.now.tables ≡ self.now.tables }
        ensures outstanding { result.now.outstanding ≡ self.now.outstanding }
        ensures buckets { result.now.buckets ≡ self.now.buckets }
    {
        &self.parts.core
    }

    /// The F lines: of each SID cluster in table order what is outstanding, and the units of its flow's bucket. Behind them
    /// the A lines: of each flow in table order whose activity is detected, whether it is active as of the last round's cut.
    /// The fault is want of memory.
    pub fn finals(&self, alloc: Global) -> Result<Vec<Row>, RoundFault>
        ensures rows { IfOk result (λ rows. rows.items ≡ final_rows self.now) }
        ensures fault { IfErr result (λ given. given ≡ RoundFault.NoMemory) }
    {
        let rows = self.last_rows(alloc)?;
        Ok(rows)
    }

    /// The same lines.
    #[tactic(auto, unfolding(crate::specs::FinalRows::final_rows))]
    fn last_rows(&self, alloc: Global) -> Result<Vec<Row>, NoMemory>
        ensures { IfOk result (λ rows. rows.items ≡ final_rows self.now) }
    {
        let core = self.core();
        let config = core.config();
        let buckets = core.buckets(alloc)?;
        let told = activities(alloc, config, &self.parts.channels)?;
        let mut rows = us_output::final_rows(alloc, config, core.outstanding(), &buckets)?;
        let mut active = activity_rows(alloc, config, &told)?;
        rows.append(&mut active)?;
        Ok(rows)
    }

    /// How many channels there are.
    pub fn channels(&self) -> usize
        ensures { result ≡ length self.now.tables.channels }
    {
        self.parts.core.config().channels().len()
    }

    /// The number of the next round.
    pub fn round(&self) -> u32
        ensures value { result ≡ self.now.round }
        ensures known { IsState self.now }
        ensures few { settled_by self.now ≤ max_settled_by }
    {
        self.parts.core.round()
    }
}

/// Each channel, before round 0.
fn channels_of(alloc: Global, config: &Config) -> Result<Vec<ChannelWithText>, NoMemory>
    ensures { IfOk result (λ all. all.items ≡ map (channels.opening config.now) config.now.channels) }
{
    let channels = config.channels().len();
    let mut all = Vec::with_capacity(alloc, channels)?;
    for place in 0..channels {
        let channel = ChannelWithText::new(alloc, config, place)?;
        all.push(channel)?;
    }
    Ok(all)
}
