ghost use Rattle.std.specs.Prelude.{◌≡◌, false, OnOk};
ghost use Rattle.mapsim.specs.Statuses as statuses;

use crate::faults::Fault;
use crate::printing::print;
use crate::statuses::Status;
use std::alloc::Global;
use std::rt::Files;
use us_check::{CheckFault, check};
use us_command_line::FileLint;
use us_flows::Config;
use us_listing::{Judges, Worst, listing_of};
use us_reports::{Breach, ReportFault};
use us_requests::Trace;
use us_slots::Sink;

/// Prints what is wrong, or looks wrong, in files. The status is that of the worst that was found.
pub fn lint_files<R: Files, O: Sink>(
    rt: &R,
    alloc: Global,
    order: &FileLint<'_>,
    output: &mut O,
) -> Result<Status, Fault>
    requires { O.failed output.old ≡ false }
    ensures ready { OnOk result (O.failed output.new ≡ false) }
{
    let listing = listing_of(rt, alloc, order, &Checker)?;
    print(output, listing.text.as_str().as_bytes())?;
    Ok(lint_status(listing.worst))
}

/// The status with which a lint ends that found this at worst.
fn lint_status(worst: Worst) -> Status
    ensures { result ≡ statuses.lint_status worst }
{
    match worst {
        Worst::Nothing => Status::Done,
        Worst::Warning => Status::Warned,
        Worst::Error => Status::Refused,
    }
}

/// The checker, as a lint asks it.
struct Checker;

impl Judges for Checker {
    fn breach(
        &self,
        alloc: Global,
        config: &Config,
        trace: &Trace,
        maps: &[u8],
        report: &[u8],
    ) -> Result<Option<Breach>, ReportFault> {
        match check(alloc, config, trace, maps, report) {
            Ok(verdict) => Ok(verdict.breach()),
            Err(CheckFault::Report(line)) => Err(ReportFault::Line(line)),
            Err(CheckFault::NoMemory) => Err(ReportFault::NoMemory),
        }
    }
}
