ghost use Rattle.std.specs.Prelude.{◌≡◌, ◌<◌, IfOk, IfSome, length};
ghost use Rattle.toml.specs.View.{table_view};
ghost use Rattle.us_flows.specs.Answers.{IsDocument};
ghost use Rattle.us_findings.specs.ConfigErrors.{IsConfigLint};
ghost use Rattle.us_findings.specs.declared.findings.What.TheVariants as found;

use crate::documents::TOP;
use crate::findings::{Finding, Findings};
use crate::lists::Drafts;
use crate::located::located;
use crate::rules::explained;
use crate::spots::KeyPath;
use crate::tables::add_shapes;
use crate::texts::{alone, no_document, too_long_config};
use std::alloc::Global;
use toml::Table;
use us_flows::{Config, ConfigFault, MAX_CONFIG_BYTES};
use us_slots::NoMemory;

/// The configuration that a text writes, or its errors. The first one is the fault that [`Config::read`] answers; the
/// others are those of the shapes of all tables.
pub fn lint_config(alloc: Global, text: &[u8]) -> Result<Result<Config, Findings>, NoMemory>
    ensures { IfOk result (IsConfigLint text.now) }
{
    if text.len() > MAX_CONFIG_BYTES {
        return Ok(Err(too_long_config(alloc)?));
    }
    match toml::table_from_slice(alloc, text) {
        Ok(document) => lint_document(alloc, text, &document),
        Err(error) => Ok(Err(no_document(alloc, text, &error)?)),
    }
}

/// The same of a text that is this document.
fn lint_document(
    alloc: Global,
    text: &[u8],
    document: &Table,
) -> Result<Result<Config, Findings>, NoMemory>
    requires { IsDocument text.now (table_view document.now) }
    ensures { IfOk result (IsConfigLint text.now) }
{
    match Config::of_document(alloc, document) {
        Ok(config) => Ok(Ok(config)),
        Err(fault) => match fault {
            ConfigFault::NoMemory => Err(NoMemory),
            _ => Ok(Err(errors_in(alloc, text, document, fault)?)),
        },
    }
}

/// The errors of a document with this fault.
fn errors_in(
    alloc: Global,
    text: &[u8],
    document: &Table,
    fault: ConfigFault,
) -> Result<Findings, NoMemory>
    ensures { IfOk result (λ findings. findings.first.what ≡ found.Config fault) }
{
    let drafts = drafts_of(alloc, document, fault);
    let findings = located(alloc, text, &drafts)?;
    first_of(alloc, findings, drafts.more, fault)
}

/// What is wrong with a document: why it has this fault, and the shapes of all tables.
fn drafts_of<'d>(alloc: Global, document: &'d Table, fault: ConfigFault) -> Drafts<'d> {
    let mut drafts = Drafts::new(alloc, fault);
    let mut other = KeyPath::of(TOP, None);
    if let Some(first) = explained(document, fault) {
        other = first.other.unwrap_or(other);
        drafts.push(first);
    }
    add_shapes(&mut drafts, document);
    drafts.look_for(other);
    drafts
}

/// The first of these findings that is of this fault, before the others and how many more there are.
fn first_of(
    alloc: Global,
    findings: Vec<Finding>,
    more: usize,
    fault: ConfigFault,
) -> Result<Findings, NoMemory>
    ensures { IfOk result (λ findings. findings.first.what ≡ found.Config fault) }
{
    let mut others = findings;
    let Some(place) = place_of(&others, fault) else {
        // Nobody comes here: each fault of a document has a finding.
        let text = String::from_str(alloc, fault.sentence())?;
        return Ok(alone(alloc, fault, (1, 1), text));
    };
    Ok(Findings {
        first: others.remove(place).of_config(fault),
        others,
        more,
    })
}

/// The place of the first of these findings that is of this fault.
fn place_of(findings: &[Finding], fault: ConfigFault) -> Option<usize>
    ensures { IfSome result (λ place. place < length findings.now) }
{
    for (place, finding) in findings.iter().enumerate() {
        if finding.is_of(fault) {
            return Some(place);
        }
    }
    None
}
