use crate::crewed::Crewed;
use crate::done::RoundDone;
use crate::round_mail::RoundMail;
use crate::rounds::step;
use crate::states::State;
use std::alloc::Global;
use std::sync::Wait;
use us_crew::{Beside, Crew, Gate};
use us_flows::Config;
use us_slots::NoMemory;

/// A round whose channels a crew does in both phases.
#[derive(Drop)]
pub(crate) struct OneRound<'a, 'm, G: Gate> {
    pub alloc: Global,
    pub state: State,
    pub cuts: &'m [u64],
    pub config: &'a Config,
    pub gate: G,
    pub mail: &'m RoundMail<'a, 'm, G>,
}

impl<'a, 'm, H: Wait, G: Gate + Copy + Drop> Beside<H> for OneRound<'a, 'm, G> {
    ghost use Rattle.std.specs.Prelude.{◌≡◌, IfOk};
    ghost use Rattle.us_round.specs.States.{CanMake, IsMade};

    type Output = Result<RoundDone, NoMemory>;

    ghost can_run = { λ t. CanMake t.state t.cuts.now × (t.config.now ≡ t.state.tables) };

    ghost gives = { λ t result. IfOk result (IsMade t.state t.cuts.now) };

    fn run(self, crew: &Crew<'_, H>) -> Result<RoundDone, NoMemory> {
        let mut hands = Crewed::new(self.alloc, crew, self.config, self.gate, self.mail, false);
        step(self.state, self.cuts, &mut hands)
    }
}
