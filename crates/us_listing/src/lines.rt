use std::alloc::AllocError;
use us_command_line::FileLint;
use us_findings::{Finding, Findings, Source};
use us_lint::{VerdictFile, VerdictFinding};

/// Writes the errors of a file and what looks wrong: the error that the program answers, then what looks wrong, then the
/// other errors and how many more there are.
pub(crate) fn write_errors(
    text: &mut String,
    order: &FileLint<'_>,
    warnings: &[Finding],
    errors: &Findings,
) -> Result<(), AllocError> {
    write_finding(text, order, &errors.first)?;
    write_all(text, order, warnings)?;
    write_all(text, order, &errors.others)?;
    write_more(text, path_of(order, errors.first.source), errors.more)
}

/// Writes findings, one a line.
pub(crate) fn write_all(
    text: &mut String,
    order: &FileLint<'_>,
    findings: &[Finding],
) -> Result<(), AllocError> {
    for finding in findings {
        write_finding(text, order, finding)?;
    }
    Ok(())
}

/// Writes a finding behind the path of its file.
fn write_finding(
    text: &mut String,
    order: &FileLint<'_>,
    finding: &Finding,
) -> Result<(), AllocError> {
    let path = path_of(order, finding.source);
    writeln!(text, "{path}:{finding}")
}

/// Writes how many more errors there are in the file at a path.
fn write_more(text: &mut String, path: &str, more: usize) -> Result<(), AllocError> {
    if more == 0 {
        return Ok(());
    }
    let errors = if more == 1 { "error" } else { "errors" };
    writeln!(text, "{path}: {more} more {errors}")
}

/// Writes what is wrong in a maps file or a report, behind its path.
pub(crate) fn write_broken(
    text: &mut String,
    order: &FileLint<'_>,
    finding: &VerdictFinding,
) -> Result<(), AllocError> {
    let file = finding.file;
    let path = match file {
        VerdictFile::Maps => order.maps,
        VerdictFile::Report | VerdictFile::Line(_) => order.report,
    };
    let path = path.unwrap_or(order.config);
    writeln!(text, "{path}{file}: error {finding}")
}

/// Writes how many rounds take in all rows of the trace.
pub(crate) fn write_note(
    text: &mut String,
    order: &FileLint<'_>,
    rounds: u32,
) -> Result<(), AllocError> {
    let path = path_of(order, Source::Trace);
    writeln!(text, "{path}: note: {rounds} rounds take in all rows")
}

/// The path of a file of an order. Of a file something is found only where the order has it.
fn path_of<'a>(order: &FileLint<'a>, source: Source) -> &'a str {
    match source {
        Source::Config => order.config,
        Source::Trace => order.trace.unwrap_or(order.config),
    }
}
