ghost use Rattle.std.specs.Prelude.{◌≡◌, true};
ghost use Rattle.us_flows.specs.Tables.{rounds_fit};

use crate::faults::LintFault;
use crate::judges::Judges;
use crate::listings::Listing;
use crate::tables::Tables;
use std::alloc::Global;
use std::rt::Files;
use us_command_line::FileLint;
use us_files::{Stream, Texts, read_at_most, read_output};
use us_flows::{Config, MAX_CONFIG_BYTES};
use us_lint::{VerdictFinding, report_finding, verdict_finding};
use us_reports::ReportFault;
use us_requests::{MAX_TRACE_BYTES, Trace};
use us_slots::{FromRead, NoMemory};

/// Lists what is wrong, or looks wrong, in the files of an order. Where the configuration has an error, no other file is
/// read. Want of memory may always be answered.
pub fn listing_of<'a, R: Files, J: Judges>(
    rt: &R,
    alloc: Global,
    order: &FileLint<'a>,
    judge: &J,
) -> Result<Listing<'a>, LintFault> {
    let mut listing = Listing::new(alloc, *order);
    match read_at_most(rt, alloc, order.config, Stream::Config, MAX_CONFIG_BYTES)? {
        Some(text) => list_config(rt, alloc, order, judge, &text, &mut listing)?,
        None => listing.add_long_config(alloc)?,
    }
    Ok(listing)
}

/// Lists what is found where the configuration has this text.
fn list_config<R: Files, J: Judges>(
    rt: &R,
    alloc: Global,
    order: &FileLint<'_>,
    judge: &J,
    text: &[u8],
    listing: &mut Listing<'_>,
) -> Result<(), LintFault> {
    let Some(config) = listing.add_config(alloc, text)? else {
        return Ok(());
    };
    match Tables::of(text, &config, order.rounds) {
        Some(tables) => list_trace(rt, alloc, order, judge, &tables, listing),
        None => Err(LintFault::Rounds),
    }
}

/// Lists what is found in the trace, if there is one, and in what a run of it wrote. Where the trace has an error, no other
/// file is read.
fn list_trace<R: Files, J: Judges>(
    rt: &R,
    alloc: Global,
    order: &FileLint<'_>,
    judge: &J,
    tables: &Tables<'_>,
    listing: &mut Listing<'_>,
) -> Result<(), LintFault>
    requires { rounds_fit tables.now.config.now tables.now.rounds ≡ true }
{
    let Some(path) = order.trace else {
        return Ok(listing.add_tables(alloc, tables)?);
    };
    match read_at_most(rt, alloc, path, Stream::Trace, MAX_TRACE_BYTES)? {
        Some(text) => list_rows(rt, alloc, order, judge, tables, &text, listing),
        None => Ok(listing.add_long_trace(alloc, tables)?),
    }
}

/// The same, where the trace has this text.
fn list_rows<R: Files, J: Judges>(
    rt: &R,
    alloc: Global,
    order: &FileLint<'_>,
    judge: &J,
    tables: &Tables<'_>,
    text: &[u8],
    listing: &mut Listing<'_>,
) -> Result<(), LintFault>
    requires { rounds_fit tables.now.config.now tables.now.rounds ≡ true }
{
    let Some(seen) = listing.add_trace(alloc, tables, text)? else {
        return Ok(());
    };
    if let (Some(maps), Some(report)) = (order.maps, order.report) {
        let output = read_output(rt, alloc, maps, report)?;
        list_output(alloc, judge, tables, text, &output, listing)?;
    }
    Ok(listing.add_seen(alloc, tables, &seen)?)
}

/// Lists what is wrong in a maps file and a report, beside a trace that has this text and no error.
fn list_output<J: Judges>(
    alloc: Global,
    judge: &J,
    tables: &Tables<'_>,
    text: &[u8],
    output: &Texts,
    listing: &mut Listing<'_>,
) -> Result<(), NoMemory>
    requires { rounds_fit tables.now.config.now tables.now.rounds ≡ true }
{
    let mut source = FromRead::new(text);
    // So the one fault that is left is want of memory.
    let Ok(trace) = Trace::read(alloc, &mut source, tables.config, tables.rounds) else {
        return Err(NoMemory);
    };
    match finding_of(alloc, judge, tables.config, &trace, output)? {
        Some(finding) => listing.add_broken(&finding),
        None => Ok(()),
    }
}

/// What is wrong in a maps file and a report, beside a trace that was read.
fn finding_of<J: Judges>(
    alloc: Global,
    judge: &J,
    config: &Config,
    trace: &Trace,
    output: &Texts,
) -> Result<Option<VerdictFinding>, NoMemory>
    requires { rounds_fit config.now trace.now.rounds ≡ true }
{
    let Texts { maps, report } = output;
    match judge.breach(alloc, config, trace, maps, report) {
        Ok(None) => Ok(None),
        Ok(Some(breach)) => Ok(Some(verdict_finding(alloc, config, trace, maps, report, breach)?)),
        Err(ReportFault::Line(line)) => Ok(Some(report_finding(alloc, report, line)?)),
        Err(ReportFault::NoMemory) => Err(NoMemory),
    }
}
