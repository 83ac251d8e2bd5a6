ghost use Rattle.std.specs.Prelude.{◌≡◌};

/// A file or stream of the program.
#[derive(Clone, Copy)]
pub enum Stream {
    /// The file of the configuration.
    Config,
    /// The file of the trace.
    Trace,
    /// The maps file.
    Maps,
    /// The file of the report.
    Report,
    /// Standard input.
    Input,
    /// Standard output.
    Output,
}

impl Stream {
    ghost use Rattle.us_files.specs.Streams.{stream_word};

    /// Its name in fault lines.
    pub fn word(self) -> &'static str
        ensures { result.now ≡ stream_word self }
    {
        match self {
            Stream::Config => "config",
            Stream::Trace => "trace",
            Stream::Maps => "maps",
            Stream::Report => "report",
            Stream::Input => "input",
            Stream::Output => "output",
        }
    }
}
