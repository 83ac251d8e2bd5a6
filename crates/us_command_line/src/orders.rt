/// What the words ask for.
#[derive(Drop)]
pub enum Order<'a> {
    /// A replay from files into files.
    Replay(FileReplay<'a>),
    /// A verdict on files.
    Check(FileCheck<'a>),
    /// What is wrong, or looks wrong, in files.
    Lint(FileLint<'a>),
    /// The MAPs of a maps file as lines: its path.
    Dump(&'a str),
    /// A replay of standard input, for so many rounds, by so many workers.
    Pipe { rounds: u32, workers: usize },
    /// Help: its text, with all line feeds.
    Help(String),
}

/// A replay from files into files.
#[derive(Clone, Copy)]
pub struct FileReplay<'a> {
    /// Path of the configuration.
    pub config: &'a str,
    /// Path of the trace.
    pub trace: &'a str,
    /// How many rounds are replayed.
    pub rounds: u32,
    /// How many workers replay them.
    pub workers: usize,
    /// Path of the maps file, which is made.
    pub maps: &'a str,
    /// Path of the report, which is made.
    pub report: &'a str,
}

/// A verdict on files.
#[derive(Clone, Copy)]
pub struct FileCheck<'a> {
    /// Path of the configuration.
    pub config: &'a str,
    /// Path of the trace.
    pub trace: &'a str,
    /// How many rounds the run has that is judged.
    pub rounds: u32,
    /// Path of the maps file.
    pub maps: &'a str,
    /// Path of the report.
    pub report: &'a str,
}

/// What is wrong, or looks wrong, in files. A maps file comes with a report, and both come with a trace and rounds.
#[derive(Clone, Copy)]
pub struct FileLint<'a> {
    /// Path of the configuration.
    pub config: &'a str,
    /// Path of the trace.
    pub trace: Option<&'a str>,
    /// How many rounds the run has.
    pub rounds: Option<u32>,
    /// Path of the maps file.
    pub maps: Option<&'a str>,
    /// Path of the report.
    pub report: Option<&'a str>,
}
