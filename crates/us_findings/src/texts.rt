ghost use Rattle.std.specs.Prelude.{◌≡◌, IfOk};
ghost use Rattle.toml.specs.Errors.{IsMemory};
ghost use Rattle.us_flows.specs.declared.faults.ConfigFault.TheVariants.{Text};
ghost use Rattle.us_findings.specs.declared.findings.What.TheVariants as found;

use crate::findings::{Finding, Findings, Source, What};
use crate::lines::line_and_column;
use crate::shown::Shown;
use std::alloc::{AllocError, Global};
use toml::de::Error;
use us_flows::{ConfigFault, MAX_CONFIG_BYTES};
use us_slots::NoMemory;

/// The error of a configuration that has more bytes than are read.
pub fn too_long_config(alloc: Global) -> Result<Findings, NoMemory>
    ensures { IfOk result (λ findings. findings.first.what ≡ found.Config Text) }
{
    let text = format!(in alloc; "at most {MAX_CONFIG_BYTES} bytes are wanted, more are there")?;
    Ok(alone(alloc, ConfigFault::Text, (1, 1), text))
}

/// One error alone, at a line and a column.
pub(crate) fn alone(alloc: Global, fault: ConfigFault, at: (usize, usize), text: String) -> Findings
    ensures { result.first.what ≡ found.Config fault }
{
    let (line, column) = at;
    Findings {
        first: Finding {
            source: Source::Config,
            what: What::Config(fault),
            line,
            column,
            text,
        },
        others: Vec::new(alloc),
        more: 0,
    }
}

/// That a text is no document of TOML, as its reader says it.
pub(crate) fn no_document(alloc: Global, text: &[u8], error: &Error) -> Result<Findings, NoMemory>
    ensures first { IfOk result (λ findings. findings.first.what ≡ found.Config Text) }
    ensures none { IfOk result (λ _. ¬ IsMemory error.now) }
{
    if error.is_memory() {
        return Err(NoMemory);
    }
    let at = match error.span() {
        Some(span) => span.start.min(text.len()),
        None => 0,
    };
    let why = why_none(alloc, text, at, error)?;
    Ok(alone(alloc, ConfigFault::Text, line_and_column(text, at), why))
}

/// Why it is none: for a byte that is no UTF-8, or as the reader says it.
fn why_none(alloc: Global, text: &[u8], at: usize, error: &Error) -> Result<String, AllocError> {
    if str::from_utf8(text).is_ok() {
        let message = error.message();
        return format!(in alloc; "not TOML: {message}");
    }
    let byte = Shown(text.get(at..at.saturating_add(1)).unwrap_or(&[]));
    format!(in alloc; "not UTF-8: {byte} is there")
}
