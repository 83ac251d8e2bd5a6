ghost use Rattle.std.specs.Prelude.{◌≡◌, ◌+◌, ◌^◌, ◌<◌, ◌≤◌, [], ◌++◌, length, take, count_by, IfOk, OnOk};
ghost use Rattle.std.specs.List.{AllByRecursion};
ghost use Rattle.us_output.specs.Files.{is_granted, is_missed, lines};
ghost use Rattle.us_output.specs.Lines.{HasFields};
ghost use Rattle.us_output.specs.Outputs.{AreWithinLimits, out_of};
ghost use Rattle.us_replay.specs.Batches as spec;

use std::alloc::Global;
use std::marker::Model;
use us_output::{LineTally, TextBuffers, push_rows};
use us_round::{RoundDone, Row};
use us_slots::NoMemory;

/// How many rounds a batch has at most.
const MAX_ROUNDS: usize = 256;

/// So many bytes of records are sent at once. A round has at most 15,712, so a batch's fit into a pipe, which holds 64 KiB.
const ENOUGH_RECORDS: usize = 49_152;

/// So many bytes of lines are sent at once.
const ENOUGH_LINES: usize = 65_536;

/// The room for records that is taken at the start: no batch has more.
const RECORD_ROOM: usize = 65_536;

/// Where a round ends in the texts of a batch, in bytes.
#[derive(Clone, Copy, Debug, PartialEq, Eq)]
pub(crate) struct End {
    pub(crate) records: usize,
    pub(crate) lines: usize,
}

/// The texts of rounds that are sent together, with one write to each writer.
#[derive(Drop)]
pub(crate) struct Batch {
    records: Vec<u8>,
    lines: Vec<u8>,
    ends: Vec<End>,
}

impl Model for Batch {
    ghost Value = { spec.Batch };

    ghost view = { λ b. record { records = b.records.items; lines = b.lines.items; ends = b.ends.items } };
}

impl Batch {
    /// An empty batch, with room.
    pub(crate) fn new(alloc: Global) -> Result<Batch, NoMemory>
        ensures { IfOk result (λ batch. batch ≡ spec.no_rounds) }
    {
        Ok(Batch {
            records: Vec::with_capacity(alloc, RECORD_ROOM)?,
            lines: Vec::with_capacity(alloc, ENOUGH_LINES)?,
            ends: Vec::with_capacity(alloc, MAX_ROUNDS)?,
        })
    }

    /// Adds the records of a round and its lines, which it counts. After want of memory nothing is said of what stands here.
    // `with_next` is closed elsewhere: only here is it what the calls below make.
    #[tactic(auto, unfolding(crate::specs::Batches::with_next))]
    pub(crate) fn push_round(
        &mut self,
        made: &RoundDone,
        buffers: &mut TextBuffers,
        tally: &mut LineTally,
    ) -> Result<(), NoMemory>
        requires granted_room { AreWithinLimits made.now.state.tables made.now.scheduled →
            tally.old.granted + length (out_of made.now.state.tables made.now.scheduled).rows < 2 ^ 64 }
        requires missed_room { AreWithinLimits made.now.state.tables made.now.scheduled →
            tally.old.missed + length (out_of made.now.state.tables made.now.scheduled).rows < 2 ^ 64 }
        ensures texts { OnOk result
            (self.new ≡ spec.with_next self.old (out_of made.now.state.tables made.now.scheduled)) }
        ensures limits { OnOk result (AreWithinLimits made.now.state.tables made.now.scheduled) }
        ensures fields { OnOk result (AllByRecursion HasFields
            (out_of made.now.state.tables made.now.scheduled).rows) }
        ensures granted { OnOk result (tally.new.granted ≡
            tally.old.granted + count_by is_granted (out_of made.now.state.tables made.now.scheduled).rows) }
        ensures missed { OnOk result (tally.new.missed ≡
            tally.old.missed + count_by is_missed (out_of made.now.state.tables made.now.scheduled).rows) }
    {
        made.push_records(&mut self.records, buffers)?;
        made.push_lines(&mut self.lines, buffers, tally)?;
        self.ends.push(End {
            records: self.records.len(),
            lines: self.lines.len(),
        })?;
        Ok(())
    }

    /// Adds the lines at the end of the report. After want of memory nothing is said of what stands here.
    pub(crate) fn push_last(
        &mut self,
        rows: &[Row],
        buffers: &mut TextBuffers,
    ) -> Result<(), NoMemory>
        ensures texts { OnOk result (self.new ≡ record self.old { lines = self.old.lines ++ lines rows.now }) }
        ensures fields { OnOk result (AllByRecursion HasFields rows.now) }
    {
        push_rows(&mut self.lines, buffers, rows)
    }

    /// Whether it is time to send it.
    pub(crate) fn is_full(&self) -> bool
        ensures { result ≡ spec.is_full self.now }
    {
        self.ends.len() >= MAX_ROUNDS
            || self.records.len() >= ENOUGH_RECORDS
            || self.lines.len() >= ENOUGH_LINES
    }

    /// Begins the next one. The room stays.
    pub(crate) fn clear(&mut self)
        ensures { self.new ≡ spec.no_rounds }
    {
        self.records.clear();
        self.lines.clear();
        self.ends.clear();
    }

    /// The records.
    pub(super) fn records(&self) -> &[u8]
        ensures { result.now ≡ self.now.records }
    {
        &self.records
    }

    /// The lines.
    pub(super) fn lines(&self) -> &[u8]
        ensures { result.now ≡ self.now.lines }
    {
        &self.lines
    }

    /// How many of its rounds end within so many bytes of the records and so many of the lines.
    pub(super) fn rounds_within(&self, record_bytes: usize, line_bytes: usize) -> usize
        ensures value { result ≡ spec.rounds_within record_bytes line_bytes self.now.ends }
        ensures inside { result ≤ length self.now.ends }
    {
        self.ends
            .iter()
            .take_while(|end| end.records <= record_bytes && end.lines <= line_bytes)
            .count()
    }

    /// The lines of its first rounds, of which there are so many.
    pub(super) fn lines_of(&self, rounds: usize) -> &[u8]
        requires rounds { rounds ≤ length self.now.ends }
        requires inside { spec.AreInside self.now }
        ensures { result.now ≡ take (spec.lines_before rounds self.now.ends) self.now.lines }
    {
        match rounds.checked_sub(1) {
            None => &[],
            Some(last) => &self.lines[..self.ends[last].lines],
        }
    }
}
