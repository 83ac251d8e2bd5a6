ghost use Rattle.std.specs.Prelude.{◌≡◌, None, IfOk};
ghost use Rattle.us_page.specs.Lints as spec;

use crate::calls::{Status, hold};
use crate::hands::Hand;
use crate::runs::Run;
use std::alloc::{AllocError, Global};
use us_findings::{Findings, SeesRequests, lint_config, lint_trace};
use us_requests::Request;
use us_slots::NoMemory;

/// The errors of two texts: the status that says of which they are, and their lines.
#[derive(Drop)]
struct Errors {
    status: Status,
    lines: Run,
}

/// Has a hand hold the errors of two texts as `mapsim lint` tells them, the one that the program answers first: those of
/// the configuration (status `Config`), or where it has none, those of the trace (`Replay`). Where neither has one
/// (`Given`), the hand holds no lines. Where memory is wanting, it holds nothing.
#[tactic(auto, using(crate::proofs::LintLemmas::stands_linted))]
pub fn lint(alloc: Global, hand: &mut Hand, config: &[u8], trace: &[u8]) -> Status
    ensures { spec.StandsLinted config.now trace.now result hand.new.held }
{
    drop(hand.take(alloc));
    match errors_of(alloc, config, trace) {
        Ok(errors) => {
            let Errors { status, lines } = errors;
            hold(alloc, hand, lines, status)
        }
        Err(NoMemory) => Status::NoMemory,
    }
}

/// The errors of two texts.
fn errors_of(alloc: Global, config: &[u8], trace: &[u8]) -> Result<Errors, NoMemory>
    ensures linted { IfOk result (λ errors. spec.IsLinted config.now trace.now errors.status) }
    ensures lines { IfOk result (λ errors. spec.HasLinesBeside errors.status errors.lines) }
{
    match lint_config(alloc, config)? {
        Ok(_) => errors_of_trace(alloc, trace),
        Err(findings) => Ok(Errors {
            status: Status::Config,
            lines: Run::of_line(alloc, lines_of(alloc, &findings)?),
        }),
    }
}

/// Those of the text of a trace, beside a configuration that has none.
fn errors_of_trace(alloc: Global, trace: &[u8]) -> Result<Errors, NoMemory>
    ensures linted { IfOk result (λ errors. spec.IsTraceLinted trace.now errors.status) }
    ensures lines { IfOk result (λ errors. spec.HasLinesBeside errors.status errors.lines) }
{
    match lint_trace(alloc, trace, &mut Unseen)? {
        None => Ok(Errors {
            status: Status::Given,
            lines: Run::of_line(alloc, String::new(alloc)),
        }),
        Some(findings) => Ok(Errors {
            status: Status::Replay,
            lines: Run::of_line(alloc, lines_of(alloc, &findings)?),
        }),
    }
}

/// Findings as lines, such as `12:1: error C3: ` and a text, and how many more there are.
fn lines_of(alloc: Global, findings: &Findings) -> Result<String, AllocError> {
    let mut lines = format!(in alloc; "{}\n", findings.first)?;
    for finding in &findings.others {
        writeln!(lines, "{finding}")?;
    }
    match findings.more {
        0 => {}
        1 => writeln!(lines, "1 more error")?,
        more => writeln!(lines, "{more} more errors")?,
    }
    Ok(lines)
}

/// Nobody looks at the requests of a trace whose errors are looked for.
#[derive(Drop)]
struct Unseen;

impl SeesRequests for Unseen {
    fn see(&mut self, _request: &Request, _line: usize) {}
}
