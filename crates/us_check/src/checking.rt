ghost use Rattle.std.specs.Prelude.{◌≡◌, true};
ghost use Rattle.us_flows.specs.Tables.{rounds_fit};
ghost use Rattle.us_lawful.specs.Runs.{run_in};
ghost use Rattle.us_check.specs.Verdicts.{Answers};
ghost use Rattle.us_check.specs.Judges.{IsMapsBreach};

use crate::faults::CheckFault;
use crate::judges::broken;
use crate::judging::{lines_breach, read_lines};
use crate::verdicts::Verdict;
use std::alloc::Global;
use us_flows::Config;
use us_map_rules::headings_breach;
use us_reports::{Breach, Place, Rule};
use us_requests::Trace;

/// Judges a maps file and a report, whoever made them, against the tables of a configuration and the requests of a
/// trace that was read with it.
///
/// The report is read first (CK1). Then the rules are looked at in the order of [`Rule`], and each part by part; the first
/// part that is broken is answered, with the first place at which it is. The rounds are those that the trace was read for.
pub fn check(
    alloc: Global,
    config: &Config,
    trace: &Trace,
    maps: &[u8],
    report: &[u8],
) -> Result<Verdict, CheckFault>
    requires { rounds_fit config.now trace.now.rounds ≡ true }
    ensures { Answers (run_in config.now trace.now) maps.now report.now result }
{
    if let Some(breach) = maps_breach(config, trace, maps) {
        read_lines(report)?;
        return Ok(Verdict::from(breach));
    }
    match lines_breach(alloc, config, trace, maps, report)? {
        None => Ok(Verdict::Holds),
        Some(breach) => Ok(Verdict::from(breach)),
    }
}

/// The rule that a maps file breaks by itself, whatever the report tells, and where: P1 or P2.
fn maps_breach(config: &Config, trace: &Trace, maps: &[u8]) -> Option<Breach>
    requires { rounds_fit config.now trace.now.rounds ≡ true }
    ensures { IsMapsBreach (run_in config.now trace.now) maps.now result }
{
    match headings_breach(config, trace, maps) {
        Ok(place) => broken(Rule::Headings, place),
        Err(fault) => broken(
            Rule::Records,
            Some(Place {
                round: 0,
                channel: 0,
                third: fault.record,
            }),
        ),
    }
}
