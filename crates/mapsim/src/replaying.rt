ghost use Rattle.std.specs.Prelude.{◌≡◌, false, OnOk};

use crate::faults::Fault;
use crate::files::read_config;
use crate::printing::print;
use crate::same_files::refuse_same_files;
use std::alloc::Global;
use std::rt::Files;
use std::sync::Wait;
use std::thread::Threads;
use us_command_line::FileReplay;
use us_crew::OpenGate;
use us_files::{Stream, create, open};
use us_flows::Config;
use us_replay::{Summary, check_run, replay};
use us_slots::Sink;

/// Replays a trace from files into files, and prints what it did.
pub fn replay_files<R: Files + Threads + Wait + Sync, O: Sink>(
    rt: &R,
    alloc: Global,
    order: &FileReplay<'_>,
    output: &mut O,
) -> Result<(), Fault>
    requires { O.failed output.old ≡ false }
    ensures ready { OnOk result (O.failed output.new ≡ false) }
{
    refuse_same_files(rt, alloc, order)?;
    let config = read_config(rt, alloc, order.config)?;
    let summary = replay_trace(rt, alloc, &config, order)?;
    print_summary(alloc, summary, output)
}

/// Replays a trace from a file into files. The numbers are looked at before a file is opened.
fn replay_trace<R: Files + Threads + Wait + Sync>(
    rt: &R,
    alloc: Global,
    config: &Config,
    order: &FileReplay<'_>,
) -> Result<Summary, Fault> {
    check_run(config, order.rounds, order.workers)?;
    let mut trace = open(rt, order.trace, Stream::Trace)?;
    let mut maps = create(rt, order.maps, Stream::Maps)?;
    let mut report = create(rt, order.report, Stream::Report)?;
    Ok(replay(
        rt,
        alloc,
        config,
        &mut trace,
        order.rounds,
        order.workers,
        &OpenGate,
        &mut maps,
        &mut report,
    )?)
}

/// Prints what a replay did, as a line.
fn print_summary<O: Sink>(alloc: Global, summary: Summary, output: &mut O) -> Result<(), Fault>
    requires { O.failed output.old ≡ false }
    ensures ready { OnOk result (O.failed output.new ≡ false) }
{
    let Summary {
        rounds,
        granted,
        missed,
        unknown,
        not_requestable,
        late,
    } = summary;
    let line = format!(in alloc;
        "rounds {rounds} granted {granted} missed {missed} unknown {unknown} \
         not_requestable {not_requestable} late {late}\n"
    )?;
    print(output, line.as_str().as_bytes())
}
