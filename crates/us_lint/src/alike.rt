use crate::parts::{Noun, Part};

/// Rows that are alike: how many there are, and the line of the first.
#[derive(Clone, Copy)]
pub(crate) struct Alike {
    pub(crate) rows: usize,
    pub(crate) line: usize,
}

/// Rows that are alike and name one SID on a channel.
#[derive(Clone, Copy)]
pub(crate) struct SidRows {
    pub(crate) channel: u8,
    pub(crate) sid: u16,
    pub(crate) rows: Alike,
}

impl Alike {
    pub(crate) fn new() -> Alike {
        Alike { rows: 0, line: 0 }
    }

    /// One more row, on this line.
    pub(crate) fn add(&mut self, line: usize) {
        if self.rows == 0 {
            self.line = line;
        }
        self.rows = self.rows.saturating_add(1);
    }

    /// How many they are, in words.
    pub(crate) fn counted(&self) -> Part {
        Part::Counted(self.rows as u64, Noun::Row)
    }
}
