use crate::channel_lines::ChannelLines;
use crate::dealing::Dealt;
use crate::records::RECORD_BYTES;
use std::alloc::Global;

/// What is kept from round to round for the texts of rounds. What stands in it never matters.
pub struct TextBuffers {
    // the SIDs that are pending, by channel
    pub(crate) dealt: Dealt,

    // the lines of one channel
    pub(crate) lines: ChannelLines,

    pub(crate) record: [u8; RECORD_BYTES],
}

/// Gives the lists up. It is written out so that it is one step wherever texts end.
impl Drop for TextBuffers {
    fn drop(self) {
        let TextBuffers {
            dealt: _,
            lines: _,
            record: _,
        } = self;
    }
}

impl TextBuffers {
    /// Empty buffers, which take no memory yet.
    pub fn new(alloc: Global) -> TextBuffers {
        TextBuffers {
            dealt: Dealt::new(alloc),
            lines: ChannelLines::new(alloc),
            record: [0; RECORD_BYTES],
        }
    }
}
