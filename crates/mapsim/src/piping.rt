ghost use Rattle.std.specs.Prelude.{◌≡◌, false, IfOk, IfSome, OnOk};
ghost use Rattle.mapsim.specs.Printouts.{Gives, Prints, Replays};

use crate::dumps::print_maps;
use crate::faults::Fault;
use crate::marks::split_at_mark;
use crate::printing::print;
use std::alloc::Global;
use std::sync::Wait;
use std::thread::Threads;
use us_crew::OpenGate;
use us_files::{Stream, Texts};
use us_flows::Config;
use us_replay::{RunFault, replay};
use us_slots::{FromRead, FromWrite, ReadFault, Sink, Source, read_all};

/// The most bytes of the input (ours).
const MAX_INPUT_BYTES: usize = 37_748_740;

/// Replays the input in memory, for so many rounds and by so many workers, and prints each MAP's elements and the report.
pub fn pipe<H: Threads + Wait + Sync, I: Source, O: Sink>(
    threads: &H,
    alloc: Global,
    rounds: u32,
    workers: usize,
    input: &mut I,
    output: &mut O,
) -> Result<(), Fault>
    requires input_ready { I.failed input.old ≡ false }
    requires output_ready { O.failed output.old ≡ false }
    ensures printed { OnOk result
        (Prints rounds (I.remaining input.old) (O.contents output.old) (O.contents output.new)) }
    ensures ready { OnOk result (O.failed output.new ≡ false) }
{
    let text = read_input(alloc, input)?;
    let texts = replay_text(threads, alloc, rounds, workers, &text)?;
    print_maps(alloc, &texts.maps, output)?;
    print(output, &texts.report)
}

/// The whole input.
fn read_input<I: Source>(alloc: Global, input: &mut I) -> Result<Vec<u8>, Fault>
    requires { I.failed input.old ≡ false }
    ensures value { IfOk result (λ v. IfSome (I.remaining input.old) (λ text. v.items ≡ text)) }
{
    match read_all(alloc, input, MAX_INPUT_BYTES) {
        Ok(text) => Ok(text),
        Err(ReadFault::TooLarge) => Err(Fault::Pipe),
        Err(ReadFault::Failed) => Err(Fault::Device(Stream::Input)),
        Err(ReadFault::NoMemory) => Err(Fault::NoMemory),
    }
}

/// Replays a text: a configuration, the mark and a trace.
#[tactic(auto, using(crate::proofs::PrintoutLemmas::replays))]
fn replay_text<H: Threads + Wait + Sync>(
    threads: &H,
    alloc: Global,
    rounds: u32,
    workers: usize,
    text: &[u8],
) -> Result<Texts, Fault>
    ensures replayed { IfOk result (λ texts. Replays rounds text.now texts.maps.items texts.report.items) }
{
    let Some((config, trace)) = split_at_mark(text) else {
        return Err(Fault::Pipe);
    };
    let config = Config::read(alloc, config)?;
    replay_trace(threads, alloc, rounds, workers, &config, trace)
}

/// Replays the text of a trace.
#[tactic(auto, using(crate::proofs::PrintoutLemmas::gives))]
fn replay_trace<H: Threads + Wait + Sync>(
    threads: &H,
    alloc: Global,
    rounds: u32,
    workers: usize,
    config: &Config,
    trace: &[u8],
) -> Result<Texts, Fault>
    ensures given { IfOk result (λ texts. Gives config.now rounds trace.now texts.maps.items texts.report.items) }
{
    let mut maps = FromWrite::new(Vec::new(alloc));
    let mut report = FromWrite::new(Vec::new(alloc));
    match replay(
        threads,
        alloc,
        config,
        &mut FromRead::new(trace),
        rounds,
        workers,
        &OpenGate,
        &mut maps,
        &mut report,
    ) {
        Ok(_) => Ok(Texts {
            maps: maps.into_inner(),
            report: report.into_inner(),
        }),
        Err(fault) => Err(in_memory(fault)),
    }
}

/// The fault of a replay in memory, where a write that failed is want of memory.
fn in_memory(fault: RunFault) -> Fault {
    match fault {
        RunFault::WriteMaps(_) | RunFault::WriteReport(_) => Fault::NoMemory,
        other => Fault::Run(other),
    }
}
