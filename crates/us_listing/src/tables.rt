ghost use Rattle.std.specs.Prelude.{◌≡◌, true, IfSome};
ghost use Rattle.us_flows.specs.Tables.{rounds_fit};

use std::alloc::Global;
use us_flows::Config;
use us_lint::Warnings;

/// A configuration that is accepted, and the rounds of a run.
#[derive(Clone, Copy)]
pub struct Tables<'a> {
    /// What the configuration was read from.
    pub text: &'a [u8],
    /// The configuration.
    pub config: &'a Config,
    /// How many rounds the run has.
    pub rounds: u32,
}

impl<'a> Tables<'a> {
    /// Those of a configuration and the text that it was read from. The run has the rounds that are given, or where none are,
    /// the most that fit. None where those that are given don't fit.
    pub fn of(text: &'a [u8], config: &'a Config, given: Option<u32>) -> Option<Tables<'a>>
        ensures { IfSome result (λ tables. rounds_fit tables.config.now tables.rounds ≡ true) }
    {
        let rounds = given.unwrap_or(config.most_rounds());
        if config.rounds_fit(rounds) {
            Some(Tables {
                text,
                config,
                rounds,
            })
        } else {
            None
        }
    }

    /// What looks wrong in them.
    pub(crate) fn warnings(&self, alloc: Global) -> Warnings {
        let mut warnings = Warnings::new(alloc);
        warnings.add_tables(self.config, self.rounds);
        warnings
    }
}
