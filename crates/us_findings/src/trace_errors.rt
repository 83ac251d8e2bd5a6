ghost use Rattle.std.specs.Prelude.{◌≡◌, [], IfErr, IfOk, None, OnOk, Some, option_map};
ghost use Rattle.csv.specs.Records.{fields_of};
ghost use Rattle.us_requests.specs.Texts.{fault_from, record_checks, records_fault};
ghost use Rattle.us_requests.specs.declared.faults.TraceFault.TheVariants as fault;
ghost use Rattle.us_slots.specs.Lists.{first_of};
ghost use Rattle.us_findings.specs.declared.findings.What.TheVariants as what;
ghost use Rattle.us_findings.specs.TraceErrors.{IsTraceLint};
ghost use Rattle.us_findings.specs.Found.{behind, first_what};

use crate::findings::{Finding, Findings, Source, What};
use crate::row_errors::row_error;
use crate::rows::Rows;
use crate::seeing::SeesRequests;
use csv::ByteRecord;
use std::alloc::Global;
use us_requests::{MAX_RECORDS, MAX_TRACE_BYTES, Request, TraceFault, is_header, request_in};
use us_slots::NoMemory;

/// The most records whose errors are told one by one.
const MAX_TOLD: usize = 50;

/// The errors of the text of a trace, if it has one: the fault that `Trace::read` answers, then those of other records in
/// their order, 50 at most with the first, and how many more there are. `seer` is shown the requests of all other records.
#[tactic(auto, using(crate::proofs::LintLemmas::linting))]
pub fn lint_trace<S: SeesRequests>(
    alloc: Global,
    text: &[u8],
    seer: &mut S,
) -> Result<Option<Findings>, NoMemory>
    ensures { IfOk result (IsTraceLint text.now) }
{
    if text.len() > MAX_TRACE_BYTES {
        return Ok(Some(too_long_trace(alloc)?));
    }
    let mut told = Told::new(alloc);
    told.add_all(&mut Rows::new(alloc, text), seer)?;
    Ok(told.into_findings())
}

/// The error of a file that has more bytes than a trace may have.
pub fn too_long_trace(alloc: Global) -> Result<Findings, NoMemory>
    ensures { IfOk result (λ findings. findings.first.what ≡ what.Trace fault.TooLarge) }
{
    let text = format!(in alloc; "at most {MAX_TRACE_BYTES} bytes are wanted, more are there")?;
    Ok(Findings {
        first: finding(TraceFault::TooLarge, 1, text),
        others: Vec::new(alloc),
        more: 0,
    })
}

/// A finding of a trace.
fn finding(fault: TraceFault, line: usize, text: String) -> Finding
    ensures { result.what ≡ what.Trace fault }
{
    Finding {
        source: Source::Trace,
        what: What::Trace(fault),
        line,
        column: 1,
        text,
    }
}

/// The errors of records: the first ones are told, the others counted.
struct Told {
    alloc: Global,
    findings: Vec<Finding>,
    more: usize,
}

impl Drop for Told {
    fn drop(self) {
        let Told {
            alloc: _,
            findings: _,
            more: _,
        } = self;
    }
}

impl Told {
    /// None yet.
    fn new(alloc: Global) -> Told
        ensures { result.findings.items ≡ [] }
    {
        Told {
            alloc,
            findings: Vec::new(alloc),
            more: 0,
        }
    }

    /// Those of all records of a text. Where it has no header, that alone.
    fn add_all<S: SeesRequests>(
        &mut self,
        rows: &mut Rows<'_>,
        seer: &mut S,
    ) -> Result<(), NoMemory>
        ensures { OnOk result (first_what self.new.findings.items ≡
            behind (first_what self.old.findings.items) (records_fault rows.old.left)) }
    {
        if !rows.read()? || !is_header(rows.fields()) {
            return self.add(rows, 0, TraceFault::Header);
        }
        self.add_requests(rows, rows.fields().len(), seer)
    }

    /// Those of the records behind a header of so many columns.
    #[tactic(auto, using(crate::proofs::FoundLemmas::finding))]
    fn add_requests<S: SeesRequests>(
        &mut self,
        rows: &mut Rows<'_>,
        columns: usize,
        seer: &mut S,
    ) -> Result<(), NoMemory>
        ensures { OnOk result (first_what self.new.findings.items ≡
            behind (first_what self.old.findings.items) (fault_from columns 2 rows.old.left)) }
    {
        for number in 2..MAX_RECORDS + 2 {
            if !rows.read()? {
                return Ok(());
            }
            match request_of(rows.fields(), columns, number) {
                Ok(request) => seer.see(&request, rows.line()),
                Err(fault) => self.add(rows, columns, fault)?,
            }
        }
        Ok(())
    }

    /// That of the record that was read last.
    #[tactic(auto, using(crate::proofs::FoundLemmas::adding))]
    fn add(&mut self, rows: &Rows<'_>, columns: usize, fault: TraceFault) -> Result<(), NoMemory>
        ensures { OnOk result (first_what self.new.findings.items ≡
            behind (first_what self.old.findings.items) (Some fault)) }
    {
        if self.findings.len() >= MAX_TOLD {
            self.more = self.more.saturating_add(1);
            return Ok(());
        }
        let text = row_error(self.alloc, rows, columns, fault)?;
        self.findings.push(finding(fault, rows.line(), text))?;
        Ok(())
    }

    /// All that were found, if there is one.
    fn into_findings(self) -> Option<Findings>
        ensures { option_map (λ findings. findings.first.what) result ≡ first_what self.findings.items }
    {
        let Told {
            alloc: _,
            mut findings,
            more,
        } = self;
        if findings.is_empty() {
            return None;
        }
        Some(Findings {
            first: findings.remove(0),
            others: findings,
            more,
        })
    }
}

/// The request that the record of this number tells, behind a header of so many columns, or its fault.
fn request_of(fields: &ByteRecord, columns: usize, number: u32) -> Result<Request, TraceFault>
    ensures fault { IfErr result (λ fault. first_of (record_checks columns number (fields_of fields.now)) ≡ Some fault) }
    ensures none { IfOk result (λ _. first_of (record_checks columns number (fields_of fields.now)) ≡ None) }
{
    if number > MAX_RECORDS {
        return Err(TraceFault::TooLarge);
    }
    request_in(fields, columns, number)
}
