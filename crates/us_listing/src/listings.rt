ghost use Rattle.std.specs.Prelude.{◌≡◌, length, OnOk};
ghost use Rattle.us_listing.specs.Listings.{IsConfigListed, IsTraceListed, with_warnings};
ghost use Rattle.us_listing.specs.declared.worst.Worst.TheVariants as worst;

use crate::lines::{write_all, write_broken, write_errors, write_note};
use crate::tables::Tables;
use crate::worst::Worst;
use std::alloc::Global;
use us_command_line::FileLint;
use us_findings::{Finding, Findings, lint_config, lint_trace, too_long_config, too_long_trace};
use us_flows::Config;
use us_lint::{SeenRows, VerdictFinding};
use us_slots::NoMemory;

/// The lines that a lint prints.
pub struct Listing<'a> {
    /// The order that asks for it, whose paths the lines begin with.
    order: FileLint<'a>,
    /// The lines, each with its line feed.
    pub text: String,
    /// The worst that they tell.
    pub worst: Worst,
}

/// Gives it up. It is written out so that it is one step wherever it ends.
impl Drop for Listing<'_> {
    fn drop(self) {
        let Listing {
            order: _,
            text: _,
            worst: _,
        } = self;
    }
}

impl<'a> Listing<'a> {
    /// No line yet.
    pub fn new(alloc: Global, order: FileLint<'a>) -> Listing<'a>
        ensures { result.worst ≡ worst.Nothing }
    {
        Listing {
            order,
            text: String::new(alloc),
            worst: Worst::Nothing,
        }
    }

    /// Reads a configuration that has this text; none where it has errors, which are listed.
    pub fn add_config(&mut self, alloc: Global, text: &[u8]) -> Result<Option<Config>, NoMemory>
        ensures { IsConfigListed text.now self.old.worst self.new.worst result }
    {
        match lint_config(alloc, text)? {
            Ok(config) => Ok(Some(config)),
            Err(errors) => {
                self.add_errors(&[], &errors)?;
                Ok(None)
            }
        }
    }

    /// Lists that a configuration has more bytes than are read.
    pub fn add_long_config(&mut self, alloc: Global) -> Result<(), NoMemory>
        ensures { OnOk result (self.new.worst ≡ worst.Error) }
    {
        self.add_errors(&[], &too_long_config(alloc)?)
    }

    /// Lists what looks wrong in tables.
    pub fn add_tables(&mut self, alloc: Global, tables: &Tables<'_>) -> Result<(), NoMemory>
        ensures { OnOk result (self.old.worst ≡ worst.Error → self.new.worst ≡ worst.Error) }
    {
        let mut warnings = tables.warnings(alloc);
        self.add_warnings(warnings.located(tables.text)?)
    }

    /// Looks at the rows of a trace that has this text; none where they have errors, which are listed with what looks wrong
    /// in the tables.
    pub fn add_trace<'t>(
        &mut self,
        alloc: Global,
        tables: &Tables<'t>,
        text: &[u8],
    ) -> Result<Option<SeenRows<'t>>, NoMemory>
        ensures { IsTraceListed text.now self.old.worst self.new.worst result }
    {
        let mut seen = SeenRows::new(alloc, tables.config, tables.rounds);
        match lint_trace(alloc, text, &mut seen)? {
            None => Ok(Some(seen)),
            Some(errors) => {
                self.add_errors_beside(alloc, tables, &errors)?;
                Ok(None)
            }
        }
    }

    /// Lists that a trace has more bytes than are read, and what looks wrong in the tables.
    pub fn add_long_trace(&mut self, alloc: Global, tables: &Tables<'_>) -> Result<(), NoMemory>
        ensures { OnOk result (self.new.worst ≡ worst.Error) }
    {
        self.add_errors_beside(alloc, tables, &too_long_trace(alloc)?)
    }

    /// Lists what looks wrong in tables and in the rows that were seen, and where the order has no rounds, how many take in
    /// all rows.
    pub fn add_seen(
        &mut self,
        alloc: Global,
        tables: &Tables<'_>,
        seen: &SeenRows<'_>,
    ) -> Result<(), NoMemory>
        ensures { OnOk result (self.old.worst ≡ worst.Error → self.new.worst ≡ worst.Error) }
    {
        let mut warnings = tables.warnings(alloc);
        seen.warn(&mut warnings);
        self.add_warnings(warnings.located(tables.text)?)?;
        if let (None, Some(rounds)) = (self.order.rounds, seen.rounds_for_all()) {
            write_note(&mut self.text, &self.order, rounds)?;
        }
        Ok(())
    }

    /// Lists what is wrong in the maps file or the report.
    pub fn add_broken(&mut self, finding: &VerdictFinding) -> Result<(), NoMemory>
        ensures { OnOk result (self.new.worst ≡ worst.Error) }
    {
        self.worst = Worst::Error;
        Ok(write_broken(&mut self.text, &self.order, finding)?)
    }

    /// Lists the errors of the trace, and what looks wrong in the tables.
    fn add_errors_beside(
        &mut self,
        alloc: Global,
        tables: &Tables<'_>,
        errors: &Findings,
    ) -> Result<(), NoMemory>
        ensures { OnOk result (self.new.worst ≡ worst.Error) }
    {
        let mut warnings = tables.warnings(alloc);
        self.add_errors(warnings.located(tables.text)?, errors)
    }

    /// Lists errors of a file, and what looks wrong.
    fn add_errors(&mut self, warnings: &[Finding], errors: &Findings) -> Result<(), NoMemory>
        ensures { OnOk result (self.new.worst ≡ worst.Error) }
    {
        self.worst = Worst::Error;
        Ok(write_errors(&mut self.text, &self.order, warnings, errors)?)
    }

    /// Lists what looks wrong.
    fn add_warnings(&mut self, warnings: &[Finding]) -> Result<(), NoMemory>
        ensures { OnOk result (self.new.worst ≡ with_warnings self.old.worst (length warnings.now)) }
    {
        self.worst = self.worst.warned(warnings.len());
        Ok(write_all(&mut self.text, &self.order, warnings)?)
    }
}
