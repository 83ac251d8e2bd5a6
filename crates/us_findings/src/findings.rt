use std::alloc::AllocError;
use std::fmt;
use us_flows::ConfigFault;
use us_requests::TraceFault;

/// A file in which something is found.
#[derive(Clone, Copy)]
pub enum Source {
    /// The configuration.
    Config,
    /// The trace.
    Trace,
}

/// What is found.
#[derive(Clone, Copy)]
pub enum What {
    /// The configuration has this fault.
    Config(ConfigFault),
    /// The trace has this fault.
    Trace(TraceFault),
    /// It is accepted, and looks wrong.
    Warning,
}

/// Something that is wrong, or looks wrong, in a file.
pub struct Finding {
    /// The file.
    pub source: Source,
    /// What it is.
    pub what: What,
    /// Its line, from 1.
    pub line: usize,
    /// Its column, from 1; 1 where only the line is known.
    pub column: usize,
    /// What is wanted, and what is there.
    pub text: String,
}

/// Gives it up. It is written out so that it is one step wherever it ends.
impl Drop for Finding {
    fn drop(self) {
        let Finding {
            source: _,
            what: _,
            line: _,
            column: _,
            text: _,
        } = self;
    }
}

/// The errors of a file.
pub struct Findings {
    /// That of the fault that the program answers.
    pub first: Finding,
    /// The others that are told, by where they stand.
    pub others: Vec<Finding>,
    /// How many more there are.
    pub more: usize,
}

/// Gives it up. It is written out so that it is one step wherever it ends.
impl Drop for Findings {
    fn drop(self) {
        let Findings {
            first: _,
            others: _,
            more: _,
        } = self;
    }
}

/// Writes a finding as `12:1: error C3: ` or `12:1: warning: ` and its text.
impl fmt::Display for Finding {
    fn fmt<W: fmt::Write>(&self, f: &mut fmt::Formatter<W>) -> fmt::Result {
        let (kind, code) = match self.what {
            What::Config(fault) => ("error ", fault.code()),
            What::Trace(fault) => ("error ", fault.code()),
            What::Warning => ("warning", ""),
        };
        write!(
            f,
            "{}:{}: {kind}{code}: {}",
            self.line, self.column, self.text
        )
    }
}

impl Finding {
    ghost use Rattle.std.specs.Prelude.{◌≡◌};
    ghost use Rattle.us_findings.specs.declared.findings.What.TheVariants.{Config};

    /// Whether it is this fault of the configuration.
    pub(crate) fn is_of(&self, fault: ConfigFault) -> bool {
        match self.what {
            What::Config(own) => own == fault,
            What::Trace(_) | What::Warning => false,
        }
    }

    /// What findings are sorted by.
    fn place(&self) -> (bool, usize, usize) {
        (matches!(self.source, Source::Trace), self.line, self.column)
    }

    /// The same, as this fault of the configuration.
    pub(crate) fn of_config(mut self, fault: ConfigFault) -> Finding
        ensures { result.what ≡ Config fault }
    {
        self.what = What::Config(fault);
        self
    }
}

/// Puts findings in the order of files and lines, those of the configuration first.
pub fn by_place(findings: &mut Vec<Finding>) -> Result<(), AllocError> {
    findings.sort_by_key(|finding| finding.place())
}
