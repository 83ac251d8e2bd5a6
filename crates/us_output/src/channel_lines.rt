ghost use Rattle.std.specs.Prelude.{◌≡◌, length, OnOk};
ghost use Rattle.us_output.specs.Ahead.{AreLinesOf};
ghost use Rattle.us_output.specs.Leftovers.{AreInside};

use crate::line_texts::LineText;
use crate::orders::LineOrder;
use crate::telling::tell_lines;
use std::alloc::Global;
use us_channel::ChannelRound;
use us_slots::NoMemory;

/// The lines of one channel as text, and its G lines by where they start.
#[derive(Drop)]
pub(crate) struct ChannelLines {
    pub order: LineOrder,
    pub text: LineText,
}

impl ChannelLines {
    /// No lines, which take no memory yet.
    pub(crate) fn new(alloc: Global) -> ChannelLines {
        ChannelLines {
            order: LineOrder::new(alloc),
            text: LineText::new(alloc),
        }
    }

    /// Writes those of a channel in a round. What stood there is dropped.
    pub(crate) fn write(&mut self, round: u32, part: &ChannelRound) -> Result<(), NoMemory>
        ensures { OnOk result (AreInside part.now → AreLinesOf round part.now self.new) }
    {
        let ChannelLines { order, text } = self;
        text.clear();
        tell_lines(text, order, round, part)?;
        Ok(())
    }
}
