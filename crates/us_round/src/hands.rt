ghost use Rattle.std.specs.Prelude.{◌≡◌, [], ⊤, slice_index_or, IfOk};
ghost use Rattle.us_crew.specs.Items.{AreAccepted};
ghost use Rattle.us_crew.specs.Values.{values_of};
ghost use Rattle.us_flows.specs.Tables.{Tables};
ghost use Rattle.us_round.specs.Hands.{CanFill, CanBuild, filled_at, built_at};

use std::alloc::Global;
use us_crew::Work;
use us_flows::Config;
use us_output::ChannelWithText;
use us_slots::NoMemory;
use us_split::{Claim, Planner};

/// What a channel needs to make its reserves and to go over its calendar.
#[derive(Clone, Copy)]
pub struct Filling<'a> {
    /// The configuration.
    pub config: &'a Config,
    /// The number of the round.
    pub round: u32,
}

/// What a channel needs to place its claims.
#[derive(Clone, Copy)]
pub struct Building<'a> {
    pub(crate) planner: &'a Planner,

    /// The number of the round.
    pub round: u32,
}

impl<'a> Building<'a> {
    /// The claims on the channel at this place of the table.
    pub fn claims(&self, place: usize) -> &[Claim]
        ensures { result.now ≡ slice_index_or self.now.planner.now.claims place [] }
    {
        self.planner.claims(place)
    }
}

/// Channels, or want of memory.
pub type Answered = Result<Vec<ChannelWithText>, NoMemory>;

/// Who does with all channels what a round has to do with each. Channels are given and given back in table order; on want
/// of memory they are given up.
pub trait Hands {
    ghost use Rattle.us_flows.specs.Tables.{Tables};

    // The tables that the channels may be of.
    ghost knows: { Self → Tables → Type 0 };

    /// Makes the reserves of each channel, and settles what its calendar has due.
    fn fill(&mut self, work: &Filling<'_>, channels: Vec<ChannelWithText>) -> Answered
        requires known { knows self.old work.now.config.now }
        requires ready { AreAccepted (λ _. ⊤) (CanFill work.now) channels.items }
        ensures value { IfOk result (λ all. all.items ≡ values_of (filled_at work.now) channels.items) }
        ensures same { (t : Tables) → knows self.old t → knows self.new t };

    /// Places the claims on each channel.
    fn build(&mut self, work: &Building<'_>, channels: Vec<ChannelWithText>) -> Answered
        requires known { (t : Tables) × knows self.old t }
        requires claims { AreAccepted (λ _. ⊤) (CanBuild work.now) channels.items }
        ensures value { IfOk result (λ all. all.items ≡ values_of (built_at work.now) channels.items) }
        ensures same { (t : Tables) → knows self.old t → knows self.new t };
}

impl<'a> Work<ChannelWithText, ChannelWithText, NoMemory> for Filling<'a> {
    ghost accepts = { λ work place item. CanFill work place item };

    ghost value = { λ work place item. filled_at work place item };

    ghost may_fail = { λ _ _ _ _. ⊤ };

    ghost must_fail = { λ _ _ _. ⊥ };

    fn run(
        &self,
        _alloc: Global,
        _index: usize,
        item: ChannelWithText,
    ) -> Result<ChannelWithText, NoMemory> {
        let mut channel = item;
        channel.fill(self.config, self.round)?;
        Ok(channel)
    }
}
