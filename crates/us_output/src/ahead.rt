ghost use Rattle.std.specs.Prelude.{◌≡◌, ◌+◌, ◌*◌, ◌≤◌, length, take, None, Some, OnOk, IfErr};
ghost use Rattle.us_holes.specs.Boards.{max_assignments};
ghost use Rattle.us_holes.specs.Runs.{runs_of};
ghost use Rattle.us_output.specs.Ahead as spec;

use crate::channel_lines::ChannelLines;
use crate::records::{RECORD_BYTES, put_runs};
use std::alloc::Global;
use us_channel::ChannelRound;
use us_codec::ELEMENT_BYTES;
use us_slots::NoMemory;

/// What of a round's texts needs one channel alone, written by whoever has it: the elements of its board's runs, and its
/// lines.
pub(crate) struct Ahead {
    // the round of which they are; `None` where the channel has gone on since
    pub round: Option<u32>,

    // how many runs the board has, and their elements as the first bytes
    pub runs: usize,
    pub elements: [u8; RECORD_BYTES],

    pub lines: ChannelLines,
}

/// Gives the lists up. It is written out so that it is one step wherever a channel ends.
impl Drop for Ahead {
    fn drop(self) {
        let Ahead {
            round: _,
            runs: _,
            elements: _,
            lines: _,
        } = self;
    }
}

impl Ahead {
    /// Nothing is written yet, and no memory taken.
    pub(crate) fn new(alloc: Global) -> Ahead
        ensures { result.round ≡ None }
    {
        Ahead {
            round: None,
            runs: 0,
            elements: [0; RECORD_BYTES],
            lines: ChannelLines::new(alloc),
        }
    }

    /// Writes them of a channel in a round. After want of memory there are none.
    pub(crate) fn write(&mut self, channel: &ChannelRound, round: u32) -> Result<(), NoMemory>
        ensures round { OnOk result (self.new.round ≡ Some round) }
        ensures written { OnOk result (spec.AreOf round channel.now self.new) }
        ensures none { IfErr result (λ _. self.new.round ≡ None) }
    {
        self.round = None;
        self.runs = channel.board().run_count();
        put_runs(&mut self.elements, 0, channel.channel(), channel.board());
        self.lines.write(round, channel)?;
        self.round = Some(round);
        Ok(())
    }

    /// The elements, as bytes.
    pub(crate) fn elements(&self) -> &[u8]
        requires { 4 * self.now.runs ≤ RECORD_BYTES }
        ensures { result.now ≡ take (4 * self.now.runs) self.now.elements }
    {
        &self.elements[..ELEMENT_BYTES * self.runs]
    }
}
