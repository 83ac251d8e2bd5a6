use crate::alike::Alike;
use us_flows::Config;

/// How many leads a row goes back at least that is told.
pub(crate) const FAR_LEADS: u32 = 4;

/// A row, by its tick and its line.
#[derive(Clone, Copy)]
pub(crate) struct RowAt {
    pub(crate) tick: u32,
    pub(crate) line: usize,
}

/// The rows of a trace whose ticks are far below that of a row before them.
#[derive(Clone, Copy)]
pub(crate) struct BackwardRows {
    far_ticks: u64,
    /// The first of the rows so far that have the greatest tick.
    greatest: RowAt,
    pub(crate) back: Alike,
    /// The first of them, and the row behind which it goes back.
    pub(crate) first: Option<(RowAt, RowAt)>,
}

impl BackwardRows {
    /// No row yet.
    pub(crate) fn new(config: &Config) -> BackwardRows {
        BackwardRows {
            far_ticks: FAR_LEADS as u64 * config.lead_ticks() as u64,
            greatest: RowAt { tick: 0, line: 0 },
            back: Alike::new(),
            first: None,
        }
    }

    /// One more row.
    pub(crate) fn add(&mut self, tick: u32, line: usize) {
        let row = RowAt { tick, line };
        let Some(ticks) = self.greatest.tick.checked_sub(tick) else {
            self.greatest = row;
            return;
        };
        if ticks as u64 > self.far_ticks {
            if self.first.is_none() {
                self.first = Some((row, self.greatest));
            }
            self.back.add(line);
        }
    }
}
