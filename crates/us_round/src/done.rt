ghost use Rattle.std.specs.Prelude.{◌≡◌, ◌+◌, ◌^◌, ◌<◌, ◌≤◌, ◌++◌, length, count_by, IfOk, OnOk};
ghost use Rattle.std.specs.List.{AllByRecursion};
ghost use Rattle.us_output.specs.Files.{records, round_lines, is_granted, is_missed};
ghost use Rattle.us_output.specs.Lines.{HasFields};
ghost use Rattle.us_output.specs.Outputs.{AreWithinLimits, out_of};
ghost use Rattle.us_round.specs.Parts.{ArePartsDone, done_by};
ghost use Rattle.us_round.specs.States.{settled_by, max_settled_by};

use crate::parts::Parts;
use crate::states::State;
use std::alloc::Global;
use std::marker::Model;
use us_output::{LineTally, RoundOut, TextBuffers, out_by, push_lines, push_records};
use us_slots::NoMemory;

/// A round that was made: what it was scheduled, and the state that the next round starts from.
pub struct RoundDone {
    parts: Parts,
}

impl Model for RoundDone {
    ghost use Rattle.us_round.specs.Parts.{ArePartsDone, done_by};
    ghost use Rattle.us_round.specs.Rounds as spec;

    ghost Value = { spec.RoundResult };

    ghost view = { λ d. done_by d.parts.core d.parts.channels.items d.parts.pendings.items };

    ghost invariant = { λ d. ArePartsDone d.parts.core d.parts.channels.items };
}

/// Gives the round up. It is written out so that it is one step wherever a round ends.
impl Drop for RoundDone {
    fn drop(self) {
        let RoundDone { parts: _ } = self;
    }
}

impl RoundDone {
    /// The round that left these parts.
    pub(crate) fn of(parts: Parts) -> RoundDone
        requires { ArePartsDone parts.core parts.channels.items }
        ensures { result ≡ done_by parts.core parts.channels.items parts.pendings.items }
    {
        RoundDone { parts }
    }

    /// The number of the round that comes next.
    pub fn next_round(&self) -> u32
        ensures value { result ≡ self.now.state.round }
        ensures few { settled_by self.now.state ≤ max_settled_by }
    {
        self.parts.core.round()
    }

    /// The state that the next round starts from.
    pub fn into_state(self) -> State
        ensures { result ≡ self.state }
    {
        let RoundDone { parts } = self;
        State::of(parts)
    }

    /// What the round gives: its MAPs and lines.
    pub fn out(&self, alloc: Global) -> Result<RoundOut, NoMemory>
        ensures out { IfOk result (λ out. out ≡ out_of self.now.state.tables self.now.scheduled) }
        ensures limits { OnOk result (AreWithinLimits self.now.state.tables self.now.scheduled) }
    {
        let Parts {
            core,
            channels,
            pendings,
        } = &self.parts;
        let round = core.round() - 1;
        out_by(alloc, core.config(), round, channels, pendings)
    }

    /// Adds the records of the round: one for the MAP of each channel, in table order.
    pub fn push_records(
        &self,
        text: &mut Vec<u8>,
        buffers: &mut TextBuffers,
    ) -> Result<(), NoMemory>
        ensures records { OnOk result
            (text.new.items ≡ text.old.items ++ records (out_of self.now.state.tables self.now.scheduled)) }
        ensures limits { OnOk result (AreWithinLimits self.now.state.tables self.now.scheduled) }
    {
        let Parts {
            core,
            channels,
            pendings,
        } = &self.parts;
        let round = core.round() - 1;
        push_records(text, buffers, core.config(), round, channels, pendings)
    }

    /// Adds the lines of the round, and counts them: channels in table order, and on each the grants by their start, then
    /// what was missed. After want of memory nothing is said of the count.
    #[tactic(auto, using(us_output::proofs::TextLemmas::rows_of_out))]
    pub fn push_lines(
        &self,
        text: &mut Vec<u8>,
        buffers: &mut TextBuffers,
        tally: &mut LineTally,
    ) -> Result<(), NoMemory>
        requires granted_room { tally.old.granted + length (out_of self.now.state.tables self.now.scheduled).rows < 2 ^ 64 }
        requires missed_room { tally.old.missed + length (out_of self.now.state.tables self.now.scheduled).rows < 2 ^ 64 }
        ensures lines { OnOk result
            (text.new.items ≡ text.old.items ++ round_lines (out_of self.now.state.tables self.now.scheduled)) }
        ensures fields { OnOk result (AllByRecursion HasFields (out_of self.now.state.tables self.now.scheduled).rows) }
        ensures granted { OnOk result (tally.new.granted ≡
            tally.old.granted + count_by is_granted (out_of self.now.state.tables self.now.scheduled).rows) }
        ensures missed { OnOk result (tally.new.missed ≡
            tally.old.missed + count_by is_missed (out_of self.now.state.tables self.now.scheduled).rows) }
    {
        let Parts {
            core,
            channels,
            pendings,
        } = &self.parts;
        let round = core.round() - 1;
        push_lines(text, buffers, tally, round, channels)
    }
}
