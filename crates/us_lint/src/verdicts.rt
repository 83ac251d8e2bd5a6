ghost use Rattle.std.specs.Prelude.{◌≡◌, codes, IfOk};
ghost use Rattle.us_reports.specs.Rules.{code_of};

use crate::calendars::entries_with;
use crate::credit_lines::credit_line_said;
use crate::credits::{outstanding_said, rate_said};
use crate::findings::{VerdictFile, VerdictFinding};
use crate::headings::heading_said;
use crate::last_lines::last_said;
use crate::lengths::Lengths;
use crate::lines::line_at;
use crate::minislots::minislot_said;
use crate::occurrences::occurrence_said;
use crate::records::record_said;
use crate::said::Said;
use crate::told::rows_of;
use std::alloc::Global;
use us_activity::Activities;
use us_findings::Shown;
use us_flows::Config;
use us_output::Row;
use us_reports::{Breach, Rule};
use us_requests::Trace;
use us_slots::NoMemory;

/// What a broken rule says, in words. It is that of the verdict on these files.
pub fn verdict_finding(
    alloc: Global,
    config: &Config,
    trace: &Trace,
    maps: &[u8],
    report: &[u8],
    breach: Breach,
) -> Result<VerdictFinding, NoMemory>
    ensures { IfOk result (λ finding. finding.code.now ≡ code_of breach.rule) }
{
    let said = said_of(alloc, config, trace, maps, report, breach)?;
    let text = format!(in alloc; "{said}")?;
    Ok(VerdictFinding {
        file: said.file,
        code: breach.rule.code(),
        text,
    })
}

/// The same, before it is written.
fn said_of(
    alloc: Global,
    config: &Config,
    trace: &Trace,
    maps: &[u8],
    report: &[u8],
    breach: Breach,
) -> Result<Said, NoMemory> {
    let rows = rows_of(alloc, report)?;
    let activities = Activities::of(alloc, config, trace)?;
    said_by(alloc, config, trace, &activities, maps, &rows, breach)
}

/// The same, by these rows of the report. Credits are lines of requests, or their sums, or last lines.
fn said_by(
    alloc: Global,
    config: &Config,
    trace: &Trace,
    activities: &Activities,
    maps: &[u8],
    rows: &[Row],
    breach: Breach,
) -> Result<Said, NoMemory> {
    let (channels, flows) = (config.channels(), config.flows());
    let lengths = Lengths {
        rounds: trace.rounds() as u64,
        round_ticks: config.round_ticks() as u64,
        lead_ticks: config.lead_ticks() as u64,
    };
    let Breach { rule, place } = breach;
    match rule {
        Rule::Records => record_said(alloc, maps, place.third),
        Rule::Headings => heading_said(alloc, channels, lengths, maps, place.third),
        Rule::Minislots => minislot_said(alloc, channels, lengths, maps, rows, place),
        Rule::Occurrences => {
            let entries = entries_with(alloc, config, lengths, place.third)?;
            occurrence_said(alloc, entries, activities, lengths, rows, place)
        }
        Rule::Rates => rate_said(alloc, flows, lengths, rows, place),
        Rule::Credits if place.channel != 0 => Ok(credit_line_said(flows, channels, rows, place)),
        Rule::Credits if place.round < lengths.rounds => {
            Ok(outstanding_said(flows, trace, rows, place))
        }
        Rule::Credits => {
            let id = place.third;
            last_said(alloc, flows, trace, activities, lengths, rows, id)
        }
    }
}

/// What a line of a report says that is none, in words: that of this number, from 1.
pub fn report_finding(alloc: Global, report: &[u8], line: u64) -> Result<VerdictFinding, NoMemory>
    ensures { IfOk result (λ finding. finding.code.now ≡ codes "CK1") }
{
    let bytes = line_at(report, line);
    let (wanted, there) = (form_of(bytes), Shown(bytes));
    let text = format!(in alloc; "{wanted} and a line feed is wanted, \"{there}\" is there")?;
    Ok(VerdictFinding {
        file: VerdictFile::Line(line),
        code: "CK1",
        text,
    })
}

/// The form of a line that begins like these bytes.
fn form_of(bytes: &[u8]) -> &'static str {
    match bytes.first() {
        Some(b'G') => "G,round,channel,entry,id,i,k,sid,iuc,start,slots,credit",
        Some(b'M') => "M,round,channel,entry,id,i,k",
        Some(b'F') => "F,flow,cluster,outstanding,units",
        Some(b'A') => "A,flow,active",
        Some(b'U') => "U,unknown,not_requestable,late",
        _ => "a line of G, M, F, A or U",
    }
}
