ghost use Rattle.std.specs.Prelude.{◌≡◌, [], List, true, OnOk, IfSome};
ghost use Rattle.std.specs.List.{AllByRecursion};
ghost use Rattle.us_flows.specs.Tables.{rounds_fit};
ghost use Rattle.us_output.specs.declared.rows.Row.{Row as ReportRow};
ghost use Rattle.us_lawful.specs.Runs.{RoundMap, run_in};
ghost use Rattle.us_reports.specs.Reports.{IsReport};
ghost use Rattle.us_lawful.specs.Headings.{HeadingsHold};
ghost use Rattle.us_reports.specs.Breaches.{IsFirstBreach};
ghost use Rattle.us_map_rules.specs.MapsReading.{IsMapsOf};
ghost use Rattle.us_check.specs.Judges as spec;
ghost use Rattle.us_check.specs.Verdicts.{IsAnswer};

use crate::faults::CheckFault;
use crate::judges::Judge;
use std::alloc::Global;
use us_flows::Config;
use us_map_rules::map_of;
use us_reports::{Breach, LineReader, line_at, lines_end};
use us_requests::Trace;
use us_slots::NoMemory;

/// Reads all lines of a report, and keeps nothing of them.
pub(crate) fn read_lines(report: &[u8]) -> Result<(), CheckFault>
    ensures { spec.Reads report.now (λ _. (lines : List ReportRow) × IsReport report.now lines) result }
{
    let end = lines_end(report);
    let mut reader = LineReader::new();
    let mut number = 0;
    let mut at = 0;
    while at < report.len() {
        number += 1;
        let Some(behind) = reader.read(report, end, at) else {
            return Err(CheckFault::Report(number));
        };
        at = behind;
    }
    Ok(())
}

/// The first rule of P3 to P6 that is broken by the lines of a report, and where it is broken first.
pub(crate) fn lines_breach(
    alloc: Global,
    config: &Config,
    trace: &Trace,
    maps: &[u8],
    report: &[u8],
) -> Result<Option<Breach>, CheckFault>
    requires rounds { rounds_fit config.now trace.now.rounds ≡ true }
    requires maps { (ms : List RoundMap) × IsMapsOf maps.now ms }
    ensures { spec.Reads report.now (λ first. (ms : List RoundMap) → IsMapsOf maps.now ms →
        ((lines : List ReportRow) → IsFirstBreach config.now.channels
        (HeadingsHold (run_in config.now trace.now) (record { maps = ms; lines = lines })) None) →
        (lines : List ReportRow) × IsReport report.now lines
        × IsAnswer (run_in config.now trace.now) (record { maps = ms; lines = lines }) first) result }
{
    let mut judge = told_judge(alloc, config, trace, maps, report)?;
    Ok(judge.breach(alloc, config, trace, maps)?)
}

/// A judge that is told the lines of a report.
fn told_judge<'a>(
    alloc: Global,
    config: &'a Config,
    trace: &'a Trace,
    maps: &[u8],
    report: &[u8],
) -> Result<Judge<'a>, CheckFault>
    requires rounds { rounds_fit config.now trace.now.rounds ≡ true }
    requires maps { (ms : List RoundMap) × IsMapsOf maps.now ms }
    ensures { spec.Reads report.now (λ judge. (ms : List RoundMap) → IsMapsOf maps.now ms →
        spec.IsOfReport config.now trace.now maps.now report.now ms judge) result }
{
    match judge_in_order(alloc, config, trace, maps, report)? {
        Some(judge) => Ok(judge),
        None => judge_sorted(alloc, config, trace, maps, report),
    }
}

/// The same of lines that are told as they stand; none where one of them comes too late.
fn judge_in_order<'a>(
    alloc: Global,
    config: &'a Config,
    trace: &'a Trace,
    maps: &[u8],
    report: &[u8],
) -> Result<Option<Judge<'a>>, CheckFault>
    requires rounds { rounds_fit config.now trace.now.rounds ≡ true }
    requires maps { (ms : List RoundMap) × IsMapsOf maps.now ms }
    ensures { spec.Reads report.now (λ told. IfSome told (λ judge. (ms : List RoundMap) → IsMapsOf maps.now ms →
        spec.IsOfReport config.now trace.now maps.now report.now ms judge)) result }
{
    let mut judge = Judge::new(alloc, config, trace)?;
    if take_in_order(&mut judge, config, trace, maps, report)? {
        Ok(Some(judge))
    } else {
        Ok(None)
    }
}

/// The same of lines in whatever order, which are sorted by their MAPs.
fn judge_sorted<'a>(
    alloc: Global,
    config: &'a Config,
    trace: &'a Trace,
    maps: &[u8],
    report: &[u8],
) -> Result<Judge<'a>, CheckFault>
    requires rounds { rounds_fit config.now trace.now.rounds ≡ true }
    requires maps { (ms : List RoundMap) × IsMapsOf maps.now ms }
    ensures { spec.Reads report.now (λ judge. (ms : List RoundMap) → IsMapsOf maps.now ms →
        spec.IsOfReport config.now trace.now maps.now report.now ms judge) result }
{
    let standings = standings(alloc, config, trace, report)?;
    let mut judge = Judge::new(alloc, config, trace)?;
    take_sorted(&mut judge, config, trace, maps, report, &standings)?;
    Ok(judge)
}

/// Tells a judge the lines of a report as they stand, up to the first that comes too late. Answers whether these were all.
fn take_in_order(
    judge: &mut Judge,
    config: &Config,
    trace: &Trace,
    maps: &[u8],
    report: &[u8],
) -> Result<bool, CheckFault>
    requires { (ms : List RoundMap) × spec.AreTold config.now trace.now maps.now ms [] judge.old }
    ensures { spec.Reads report.now (λ all. all ≡ true → (ms : List RoundMap) →
        spec.AreTold config.now trace.now maps.now ms [] judge.old →
        (lines : List ReportRow) × IsReport report.now lines
        × spec.AreTold config.now trace.now maps.now ms lines judge.new) result }
{
    let end = lines_end(report);
    let mut reader = LineReader::new();
    let mut number = 0;
    let mut at = 0;
    while at < report.len() {
        number += 1;
        let Some(behind) = reader.read(report, end, at) else {
            return Err(CheckFault::Report(number));
        };
        if !judge.take(config, trace, maps, reader.row())? {
            return Ok(false);
        }
        at = behind;
    }
    Ok(true)
}

/// Where a line stands in a report, and the number of the MAP that it is for, or 0.
#[derive(Clone, Copy)]
pub(crate) struct Standing {
    pub(crate) map: u64,
    pub(crate) at: usize,
}

/// Where the lines of a report stand, in the order of MAPs.
fn standings(
    alloc: Global,
    config: &Config,
    trace: &Trace,
    report: &[u8],
) -> Result<Vec<Standing>, CheckFault>
    ensures { spec.Reads report.now (λ all. spec.AreStandings config.now trace.now.rounds report.now all.items) result }
{
    let mut standings = standings_as_read(alloc, config, trace, report)?;
    standings.sort_unstable_by_key(|standing| standing.map);
    Ok(standings)
}

/// The same in the order of the report.
fn standings_as_read(
    alloc: Global,
    config: &Config,
    trace: &Trace,
    report: &[u8],
) -> Result<Vec<Standing>, CheckFault>
    ensures { spec.Reads report.now (λ all. IsReport report.now (spec.lines_there report.now all.items)
        × AllByRecursion (spec.IsStanding config.now trace.now.rounds report.now) all.items) result }
{
    let end = lines_end(report);
    let mut standings = Vec::new(alloc);
    let mut at = 0;
    while at < report.len() {
        let Some((row, behind)) = line_at(report, end, at) else {
            return Err(CheckFault::Report(standings.len() as u64 + 1));
        };
        let map = map_of(config, trace, &row).unwrap_or(0);
        standings.push(Standing { map, at })?;
        at = behind;
    }
    Ok(standings)
}

/// Tells a judge the lines of a report that stand at these places. They are in the order of MAPs, so none is too late.
fn take_sorted(
    judge: &mut Judge,
    config: &Config,
    trace: &Trace,
    maps: &[u8],
    report: &[u8],
    standings: &[Standing],
) -> Result<(), NoMemory>
    requires told { (ms : List RoundMap) × spec.AreTold config.now trace.now maps.now ms [] judge.old }
    requires first { judge.old.regions.number ≡ 0 }
    requires stand { spec.AreStandings config.now trace.now.rounds report.now standings.now }
    ensures { OnOk result ((ms : List RoundMap) → spec.AreTold config.now trace.now maps.now ms [] judge.old →
        spec.AreTold config.now trace.now maps.now ms (spec.lines_there report.now standings.now) judge.new) }
{
    let end = lines_end(report);
    for standing in standings {
        let Some((row, _)) = line_at(report, end, standing.at) else {
            unreachable!()
        };
        if !judge.take(config, trace, maps, &row)? {
            unreachable!()
        }
    }
    Ok(())
}
