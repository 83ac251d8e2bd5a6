ghost use Rattle.std.specs.Prelude.{◌≡◌, ◌+◌, ◌*◌, ◌^◌, ◌<◌, ◌≤◌, ⊤, length, zip, IfErr, IfOk};
ghost use Rattle.std.specs.List.{AllByRecursion};
ghost use Rattle.us_flows.specs.Tables.{Tables, max_run_ticks};
ghost use Rattle.us_flows.specs.Clusters.{words_of};
ghost use Rattle.us_crew.specs.declared.gates.Phase.TheVariants as phase;
ghost use Rattle.us_crew.specs.Items.{AreAccepted};
ghost use Rattle.us_crew.specs.Values.{values_of};
ghost use Rattle.us_round.specs.Hands.{CanFill, CanBuild, filled_at, built_at};
ghost use Rattle.us_round.specs.Rounds as spec;
ghost use Rattle.us_output.specs.Outputs.{out_of};

use crate::faults::RoundFault;
use crate::hands::{Answered, Building, Filling, Hands};
use crate::rounds::step;
use crate::states::State;
use std::alloc::Global;
use us_crew::{Gate, OpenGate, Phase};
use us_output::{ChannelWithText, RoundOut};

/// The calling thread, which does channels one after another, where they stand. It enters a gate before each.
#[derive(Clone, Copy)]
pub struct Alone<'a, G> {
    /// The gate.
    pub gate: &'a G,
}

impl<'a, G: Gate> Hands for Alone<'a, G> {
    ghost knows = { λ _ _. ⊤ };

    fn fill(&mut self, work: &Filling<'_>, channels: Vec<ChannelWithText>) -> Answered
        requires ready { AreAccepted (G.entered self.old.gate.now phase.Fill) (CanFill work.now) channels.items }
        ensures value { IfOk result (λ all. all.items ≡ values_of (filled_at work.now) channels.items) }
        ensures same { (t : Tables) → ⊤ → ⊤ }
    {
        let mut channels = channels;
        for place in 0..channels.len() {
            self.gate.enter(Phase::Fill, place);
            channels[place].fill(work.config, work.round)?;
        }
        Ok(channels)
    }

    fn build(&mut self, work: &Building<'_>, channels: Vec<ChannelWithText>) -> Answered
        requires claims { AreAccepted (G.entered self.old.gate.now phase.Build) (CanBuild work.now) channels.items }
        ensures value { IfOk result (λ all. all.items ≡ values_of (built_at work.now) channels.items) }
        ensures same { (t : Tables) → ⊤ → ⊤ }
    {
        let mut channels = channels;
        for place in 0..channels.len() {
            self.gate.enter(Phase::Build, place);
            channels[place].place_claims(work.claims(place));
        }
        Ok(channels)
    }
}

/// Schedules the round of a state as `round` does, in which the calling thread does all channels, one after another.
///
/// It starts no thread, and waits for nobody. The fault is want of memory, and the state is given up then.
pub fn round_alone(
    alloc: Global,
    state: State,
    cuts: &[u64],
) -> Result<(State, RoundOut), RoundFault>
    requires words { length cuts.now ≡ length (words_of state.tables) }
    requires room { AllByRecursion (λ pair. pair.0 + pair.1 < 2 ^ 62) (zip state.outstanding cuts.now) }
    requires time { (state.round + 1) * state.tables.round_ticks ≤ max_run_ticks }
    ensures state { IfOk result (λ done. done.0 ≡ (spec.round_of state cuts.now).state) }
    ensures out { IfOk result (λ done. done.1 ≡ out_of state.tables (spec.round_of state cuts.now).scheduled) }
    ensures fault { IfErr result (λ given. given ≡ RoundFault.NoMemory) }
{
    let done = step(state, cuts, &mut Alone { gate: &OpenGate })?;
    let out = done.out(alloc)?;
    Ok((done.into_state(), out))
}
