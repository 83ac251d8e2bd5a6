use crate::warnings::Warnings;
use us_findings::{Finding, Source, Spot, by_place, line_and_column, spots_of};
use us_slots::NoMemory;

impl Warnings {
    /// All of them, by file and line. All keys are looked for in one walk over the configuration's text. The error is want of
    /// memory, now or before.
    pub fn located(&mut self, config_text: &[u8]) -> Result<&[Finding], NoMemory> {
        if !self.paths.is_empty() {
            self.find_lines(config_text);
        }
        if self.lacks_memory | by_place(&mut self.findings).is_err() {
            return Err(NoMemory);
        }
        Ok(&self.findings)
    }

    /// Finds the lines and columns of those of the configuration.
    fn find_lines(&mut self, config_text: &[u8]) {
        let document = str::from_utf8(config_text).unwrap_or("");
        match spots_of(self.alloc, document, &self.paths) {
            Ok(spots) => self.set_lines(config_text, &spots),
            Err(NoMemory) => self.lacks_memory = true,
        }
        self.paths.clear();
    }

    /// Takes the lines and columns at which these spots are, for those of the configuration.
    fn set_lines(&mut self, config_text: &[u8], spots: &[Spot]) {
        for (place, finding) in self.findings.iter_mut().enumerate() {
            if let (Source::Config, Some(spot)) = (finding.source, spots.get(place)) {
                let at = spot.at.min(config_text.len());
                (finding.line, finding.column) = line_and_column(config_text, at);
            }
        }
    }
}
