ghost use Rattle.std.specs.Prelude.{Some};
ghost use Rattle.us_fault_lines.specs.Lines.{line_text};

use std::fmt;
use us_flows::Place;

/// The line of a fault, without its line feed: `fault`, a word, and what the fault names.
#[derive(Clone, Copy)]
pub struct Line {
    /// The fault's code, or what failed.
    pub word: &'static str,
    /// What the fault names.
    pub named: Named,
}

/// What a fault names.
#[derive(Clone, Copy)]
pub enum Named {
    /// Nothing.
    Nothing,
    /// A table of the configuration.
    Place(Place),
    /// A record, a line, or how many rounds were done.
    Number(usize),
    /// A file or stream, by its name in fault lines.
    Stream(&'static str),
}

/// The line of every want of memory.
pub const MEMORY: Line = Line {
    word: "memory",
    named: Named::Nothing,
};

impl fmt::Display for Line {
    ghost output = { λ line. Some (line_text line) };

    fn fmt<W: fmt::Write>(&self, f: &mut fmt::Formatter<W>) -> fmt::Result {
        let word = self.word;
        match self.named {
            Named::Nothing => write!(f, "fault {word}"),
            Named::Place(place) => write!(f, "fault {word} {place}"),
            Named::Number(number) => write!(f, "fault {word} {number}"),
            Named::Stream(stream) => write!(f, "fault {word} {stream}"),
        }
    }
}
