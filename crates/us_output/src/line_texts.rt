ghost use Rattle.std.specs.Prelude.{◌≡◌, ◌+◌, ◌≤◌, [], ◌++◌, length, take, vec_len, OnOk};
ghost use Rattle.us_output.specs.Lines.{text_of};

use crate::lines::{LINE_BYTES, put_line};
use crate::rows::Row;
use crate::sinks::LineSink;
use std::alloc::Global;
use std::marker::Model;
use us_slots::NoMemory;

/// How many bytes are added where room for a line is wanting: some channel's round has that many.
const MORE_BYTES: usize = 16 * LINE_BYTES;

/// Lines as text: the first of its bytes, up to `end`. The bytes are kept from round to round.
#[derive(Drop)]
pub(crate) struct LineText {
    bytes: Vec<u8>,
    end: usize,
}

impl Model for LineText {
    ghost use Rattle.std.specs.Prelude.{ℕ, ◌≤◌, List, take, vec_len};

    ghost Value = { List ℕ };

    ghost view = { λ t. take t.end t.bytes.items };

    ghost invariant = { λ t. t.end ≤ vec_len t.bytes };
}

impl LineText {
    /// No line, which takes no memory yet.
    pub(crate) fn new(alloc: Global) -> LineText
        ensures { result ≡ [] }
    {
        LineText {
            bytes: Vec::new(alloc),
            end: 0,
        }
    }

    /// Drops all lines.
    pub(crate) fn clear(&mut self)
        ensures { self.new ≡ [] }
    {
        self.end = 0;
    }

    /// The text.
    pub(crate) fn text(&self) -> &[u8]
        ensures { result.now ≡ self.now }
    {
        &self.bytes[..self.end]
    }
}

impl LineSink for LineText {
    ghost use Rattle.us_output.specs.Lines.{text_of};

    type Item = u8;

    ghost taken = { λ t. t };

    ghost made = { text_of };

    #[inline(always)]
    fn line(&mut self, row: Row) -> Result<(), NoMemory> {
        let LineText { bytes, end } = self;
        make_room(bytes, *end)?;
        *end = put_line(bytes, *end, &row);
        Ok(())
    }
}

/// Makes room for a line behind what stands before `end`.
#[inline(always)]
fn make_room(bytes: &mut Vec<u8>, end: usize) -> Result<(), NoMemory>
    requires { end ≤ vec_len bytes.old }
    ensures room { OnOk result (end + LINE_BYTES ≤ vec_len bytes.new) }
    ensures kept { take end bytes.new.items ≡ take end bytes.old.items }
    ensures len { vec_len bytes.old ≤ vec_len bytes.new }
{
    if bytes.len() - end < LINE_BYTES {
        bytes.resize(bytes.len() + MORE_BYTES, 0)?;
    }
    Ok(())
}
