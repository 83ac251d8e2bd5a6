use std::fmt;

/// The file that a finding is in.
#[derive(Clone, Copy)]
pub enum VerdictFile {
    /// The maps file. The text says where.
    Maps,
    /// The report, in which a line is wanted that isn't there.
    Report,
    /// The report, at this line, from 1.
    Line(u64),
}

impl VerdictFile {
    /// The report, at the line of the row at this place among all.
    pub(crate) fn at(place: usize) -> VerdictFile {
        VerdictFile::Line((place as u64).saturating_add(1))
    }
}

/// Writes the line of the report and its first column, as `:12:1`, where the finding has a line.
impl fmt::Display for VerdictFile {
    fn fmt<W: fmt::Write>(&self, f: &mut fmt::Formatter<W>) -> fmt::Result {
        match self {
            VerdictFile::Maps | VerdictFile::Report => Ok(()),
            VerdictFile::Line(line) => write!(f, ":{line}:1"),
        }
    }
}

/// A broken rule, or a line that is none of a report, in words.
#[derive(Drop)]
pub struct VerdictFinding {
    /// Where it is.
    pub file: VerdictFile,
    /// The code: P1 to P6, or CK1.
    pub code: &'static str,
    /// What is wanted, and what is there.
    pub text: String,
}

/// Writes a finding as its code and its text.
impl fmt::Display for VerdictFinding {
    fn fmt<W: fmt::Write>(&self, f: &mut fmt::Formatter<W>) -> fmt::Result {
        write!(f, "{}: {}", self.code, self.text)
    }
}
