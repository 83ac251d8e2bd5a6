ghost use Rattle.std.specs.Prelude.{◌≡◌, IfOk, Ok, is_ok};
ghost use Rattle.us_flows.specs.Tables.{Tables};
ghost use Rattle.us_crew.specs.declared.gates.Phase.TheVariants as phase;
ghost use Rattle.us_crew.specs.Items.{AreAccepted};
ghost use Rattle.us_crew.specs.Values.{values_of};
ghost use Rattle.us_round.specs.Hands.{CanBuild, CanFill, built_at, filled_at};

use crate::hands::{Answered, Building, Filling, Hands};
use crate::placing::{Placing, laden, unladen};
use crate::round_mail::RoundMail;
use std::alloc::Global;
use std::sync::Wait;
use us_crew::{Crew, CrewFault, Gate, Phase, map_kept};
use us_flows::Config;
use us_output::ChannelWithText;
use us_slots::NoMemory;
use us_split::Claim;

/// The workers of a crew, each of whom does channels that stand side by side, and enters the gate before each. They
/// borrow the configuration, which outlives every state.
#[derive(Drop)]
pub struct Crewed<'a, 'm, H, G: Gate> {
    alloc: Global,
    crew: &'m Crew<'m, H>,
    config: &'a Config,
    gate: G,
    mail: &'m RoundMail<'a, 'm, G>,
    writes_ahead: bool,

    // in which claims go to workers
    lists: Vec<Vec<Claim>>,
}

impl<'a, 'm, H, G: Gate> Crewed<'a, 'm, H, G> {
    /// Hands that find channels of this configuration in this mail. Where they write ahead, they do with the texts of a
    /// round what needs one channel alone.
    pub fn new(
        alloc: Global,
        crew: &'m Crew<'m, H>,
        config: &'a Config,
        gate: G,
        mail: &'m RoundMail<'a, 'm, G>,
        writes_ahead: bool,
    ) -> Crewed<'a, 'm, H, G>
        ensures config { result.config.now ≡ config.now }
        ensures gate { result.gate ≡ gate }
    {
        Crewed {
            alloc,
            crew,
            config,
            gate,
            mail,
            writes_ahead,
            lists: Vec::new(alloc),
        }
    }
}

impl<'a, 'm, H: Wait, G: Gate + Copy + Drop> Hands for Crewed<'a, 'm, H, G> {
    ghost knows = { λ hands t. hands.config.now ≡ t };

    fn fill(&mut self, work: &Filling<'_>, channels: Vec<ChannelWithText>) -> Answered
        requires known { self.old.config.now ≡ work.now.config.now }
        requires ready { AreAccepted (G.entered self.old.gate phase.Fill) (CanFill work.now) channels.items }
        ensures value { IfOk result (λ all. all.items ≡ values_of (filled_at work.now) channels.items) }
        ensures same { (t : Tables) → self.old.config.now ≡ t → self.new.config.now ≡ t }
    {
        let own = Filling {
            config: self.config,
            round: work.round,
        };
        answers(map_kept(
            self.crew,
            self.mail.fills,
            self.alloc,
            own,
            Phase::Fill,
            channels,
            self.gate,
        ))
    }

    fn build(&mut self, work: &Building<'_>, channels: Vec<ChannelWithText>) -> Answered
        requires claims { AreAccepted (G.entered self.old.gate phase.Build) (CanBuild work.now) channels.items }
        ensures value { IfOk result (λ all. all.items ≡ values_of (built_at work.now) channels.items) }
        ensures same { (t : Tables) → self.old.config.now ≡ t → self.new.config.now ≡ t }
    {
        let items = laden(self.alloc, work, channels, &mut self.lists)?;
        let text_of = self.writes_ahead.then_some(work.round);
        let all = answers(map_kept(
            self.crew,
            self.mail.builds,
            self.alloc,
            Placing { text_of },
            Phase::Build,
            items,
            self.gate,
        ))?;
        unladen(self.alloc, all, &mut self.lists)
    }
}

/// What workers answered for all items; each fault of theirs is told as want of memory.
pub fn answers<R: Drop, E: Drop>(answered: Result<Vec<R>, CrewFault<E>>) -> Result<Vec<R>, NoMemory>
    ensures value { IfOk result (λ all. answered ≡ Ok all) }
    ensures fault { is_ok result ≡ is_ok answered }
{
    match answered {
        Ok(all) => Ok(all),
        Err(_) => Err(NoMemory),
    }
}
