ghost use Rattle.std.specs.Prelude.{◌≡◌, false, true, OnOk};
ghost use Rattle.us_flows.specs.Tables.{rounds_fit};
ghost use Rattle.mapsim.specs.Statuses as statuses;

use crate::faults::Fault;
use crate::files::read_config;
use crate::printing::print;
use crate::statuses::Status;
use std::alloc::Global;
use std::rt::Files;
use us_check::{Verdict, check};
use us_command_line::FileCheck;
use us_files::{Stream, open, read_output};
use us_flows::Config;
use us_replay::RunFault;
use us_requests::Trace;
use us_slots::Sink;

/// Judges the maps file and the report in files, and prints the verdict. The status is that of the verdict.
pub fn check_files<R: Files, O: Sink>(
    rt: &R,
    alloc: Global,
    order: &FileCheck<'_>,
    output: &mut O,
) -> Result<Status, Fault>
    requires { O.failed output.old ≡ false }
    ensures ready { OnOk result (O.failed output.new ≡ false) }
{
    let config = read_config(rt, alloc, order.config)?;
    let verdict = judge_files(rt, alloc, &config, order)?;
    let line = format!(in alloc; "{verdict}\n")?;
    print(output, line.as_str().as_bytes())?;
    Ok(verdict_status(verdict))
}

/// The verdict on the files of an order. RU1 is answered before the trace is opened.
fn judge_files<R: Files>(
    rt: &R,
    alloc: Global,
    config: &Config,
    order: &FileCheck<'_>,
) -> Result<Verdict, Fault> {
    if !config.rounds_fit(order.rounds) {
        return Err(Fault::Run(RunFault::Rounds));
    }
    let trace = Trace::read(
        alloc,
        &mut open(rt, order.trace, Stream::Trace)?,
        config,
        order.rounds,
    )?;
    judge(rt, alloc, config, &trace, order)
}

/// The verdict on the maps file and the report of an order, for a trace that was read.
fn judge<R: Files>(
    rt: &R,
    alloc: Global,
    config: &Config,
    trace: &Trace,
    order: &FileCheck<'_>,
) -> Result<Verdict, Fault>
    requires { rounds_fit config.now trace.now.rounds ≡ true }
{
    let output = read_output(rt, alloc, order.maps, order.report)?;
    Ok(check(alloc, config, trace, &output.maps, &output.report)?)
}

/// The status with which a check ends that has this verdict.
fn verdict_status(verdict: Verdict) -> Status
    ensures { result ≡ statuses.verdict_status verdict }
{
    match verdict {
        Verdict::Holds => Status::Done,
        Verdict::Broken { .. } => Status::Broken,
    }
}
