ghost use Rattle.std.specs.Prelude.{◌≡◌, ◌++◌, ◌∷◌, [], true, ℕ, List, None, IfOk};
ghost use Rattle.us_flows.specs.Tables.{rounds_fit};
ghost use Rattle.us_output.specs.declared.rows.Row.{Row as ReportRow};
ghost use Rattle.us_lawful.specs.Runs.{RoundMap, run_in};
ghost use Rattle.us_lawful.specs.Headings.{HeadingsHold};
ghost use Rattle.us_reports.specs.Breaches.{IsFirstBreach};
ghost use Rattle.us_map_rules.specs.MapsReading.{IsMapsOf};
ghost use Rattle.us_map_rules.specs.RegionLines.{comes_next, number_behind, placed_line};
ghost use Rattle.us_check.specs.Judges as spec;
ghost use Rattle.us_check.specs.Verdicts.{IsAnswer};

use std::alloc::Global;
use us_credit_rules::{
    CreditLines, activities_breach, counts_breach, credits_breach, finals_breach, rates_breach,
};
use us_flows::Config;
use us_map_rules::{CalendarLines, MapRegions, Taken};
use us_reports::{Breach, Place, Rule, earlier};
use us_requests::Trace;
use us_round::Row;
use us_slots::NoMemory;

/// The rules that judge lines, P3 to P6. They are told one line after another, in the order of MAPs.
pub(crate) struct Judge<'a> {
    /// The first place of a line whose round or channel the run lacks. Behind such a line only the rule of minislots is told.
    pub(crate) lacked: Option<Place>,
    /// The rule of minislots,
    pub(crate) regions: MapRegions,
    /// that of calendars' lines,
    pub(crate) calendar: CalendarLines<'a>,
    /// and those of rates and credits.
    pub(crate) credits: CreditLines<'a>,
}

/// Gives it up. It is written out so that it is one step wherever it ends.
impl Drop for Judge<'_> {
    fn drop(self) {
        let Judge {
            lacked: _,
            regions: _,
            calendar: _,
            credits: _,
        } = self;
    }
}

impl<'a> Judge<'a> {
    /// No line is told.
    pub(crate) fn new(
        alloc: Global,
        config: &'a Config,
        trace: &'a Trace,
    ) -> Result<Judge<'a>, NoMemory>
        requires { rounds_fit config.now trace.now.rounds ≡ true }
        ensures told { IfOk result (λ judge. (file : List ℕ) (maps : List RoundMap) → IsMapsOf file maps →
            spec.AreTold config.now trace.now file maps [] judge) }
        ensures number { IfOk result (λ judge. judge.regions.number ≡ 0) }
    {
        Ok(Judge {
            lacked: None,
            regions: MapRegions::new(alloc),
            calendar: CalendarLines::new(alloc, config, trace)?,
            credits: CreditLines::new(alloc, config, trace)?,
        })
    }

    /// Tells a line more. One that comes too late, behind lines of later MAPs, isn't told: the answer is no. Behind a line whose
    /// round or channel the run lacks a line may come too late, since the place of that one is the answer whatever the others
    /// say.
    #[inline(always)]
    pub(crate) fn take(
        &mut self,
        config: &Config,
        trace: &Trace,
        file: &[u8],
        row: &Row,
    ) -> Result<bool, NoMemory>
        requires { (maps : List RoundMap) × (lines : List ReportRow)
            × spec.AreTold config.now trace.now file.now maps lines self.old }
        ensures told { IfOk result (λ told. told ≡ true → (maps : List RoundMap) (lines : List ReportRow) →
            spec.AreTold config.now trace.now file.now maps lines self.old →
            spec.AreTold config.now trace.now file.now maps (lines ++ row.now ∷ []) self.new) }
        ensures next { IfOk result (λ told. comes_next config.now trace.now.rounds self.old.regions.number row.now ≡ true →
            (told ≡ true) × (self.new.regions.number ≡
            number_behind self.old.regions.number (placed_line config.now trace.now.rounds row.now))) }
    {
        match self.regions.take(config, trace, file, row)? {
            Taken::Lacked(place) => {
                self.lacked = earlier(config.channels(), self.lacked, Some(place));
                return Ok(true);
            }
            Taken::Late => return Ok(self.lacked.is_some()),
            Taken::Told => {}
        }
        if self.lacked.is_some() {
            return Ok(true);
        }
        self.calendar.take(row)?;
        self.credits.take(config, trace, row);
        Ok(true)
    }

    /// The first rule that is broken by the lines that were told, and where it is broken first.
    pub(crate) fn breach(
        &mut self,
        alloc: Global,
        config: &Config,
        trace: &Trace,
        file: &[u8],
    ) -> Result<Option<Breach>, NoMemory>
        requires { rounds_fit config.now trace.now.rounds ≡ true }
        ensures { IfOk result (λ first. (maps : List RoundMap) (lines : List ReportRow) →
            spec.AreTold config.now trace.now file.now maps lines self.old →
            IsFirstBreach config.now.channels
            (HeadingsHold (run_in config.now trace.now) (record { maps = maps; lines = lines })) None →
            IsAnswer (run_in config.now trace.now) (record { maps = maps; lines = lines }) first) }
    {
        let credits = &self.credits;
        let minislots = self.regions.breach(config, trace, file)?;
        let finals = finals_breach(alloc, config, trace, credits)?;
        let activities = activities_breach(alloc, config, trace, credits)?;
        Ok(
            broken(Rule::Minislots, self.lacked)
                .or(broken(Rule::Minislots, minislots))
                .or(broken(Rule::Occurrences, self.calendar.breach()))
                .or(broken(Rule::Rates, rates_breach(config, credits)))
                .or(broken(Rule::Credits, credits_breach(config, credits)))
                .or(broken(Rule::Credits, finals))
                .or(broken(Rule::Credits, activities))
                .or(broken(Rule::Credits, counts_breach(trace, credits))),
        )
    }
}

/// That a rule is broken at a place, where there is one.
pub(crate) fn broken(rule: Rule, place: Option<Place>) -> Option<Breach>
    ensures { result ≡ spec.broken rule place }
{
    Some(Breach {
        rule,
        place: place?,
    })
}
