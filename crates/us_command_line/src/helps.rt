ghost use Rattle.std.specs.Prelude.{◌≡◌, IfOk, string_bytes};
ghost use Rattle.us_command_line.specs.HelpTexts.{AreJoined, joined};

use std::alloc::{AllocError, Global};

/// What `--help` says after the options: of each subcommand, texts that follow one another.
#[derive(Clone, Copy)]
pub struct HelpTexts {
    /// Of the program.
    pub program: &'static str,
    /// Of `replay`.
    pub replay: &'static [&'static str],
    /// Of `check`.
    pub check: &'static [&'static str],
    /// Of `lint`.
    pub lint: &'static [&'static str],
    /// Of `dump`.
    pub dump: &'static [&'static str],
    /// Of `pipe`.
    pub pipe: &'static [&'static str],
}

/// The same, put together.
#[derive(Drop)]
pub struct Helps {
    /// Of the program.
    pub program: &'static str,
    /// Of `replay`.
    pub replay: String,
    /// Of `check`.
    pub check: String,
    /// Of `lint`.
    pub lint: String,
    /// Of `dump`.
    pub dump: String,
    /// Of `pipe`.
    pub pipe: String,
}

impl Helps {
    /// Puts the texts together.
    pub fn new(alloc: Global, texts: &HelpTexts) -> Result<Helps, AllocError>
        ensures { IfOk result (AreJoined texts.now) }
    {
        Ok(Helps {
            program: texts.program,
            replay: joined(alloc, texts.replay)?,
            check: joined(alloc, texts.check)?,
            lint: joined(alloc, texts.lint)?,
            dump: joined(alloc, texts.dump)?,
            pipe: joined(alloc, texts.pipe)?,
        })
    }
}

fn joined(alloc: Global, texts: &[&str]) -> Result<String, AllocError>
    ensures { IfOk result (λ whole. string_bytes whole ≡ joined texts.now) }
{
    let mut whole = String::new(alloc);
    for text in texts {
        whole.push_str(text)?;
    }
    Ok(whole)
}
