ghost use Rattle.std.specs.Prelude.{◌≡◌, ◌⊎◌, ◌<◌, length, true, false, OnOk};
ghost use Rattle.mapsim.specs.Printouts.{Prints, PrintsAsAsked};
ghost use Rattle.mapsim.specs.Statuses.{status_of};
ghost use Rattle.us_command_line.specs.declared.orders.Order.{Order};

use crate::checking::check_files;
use crate::dumping::dump_file;
use crate::faults::Fault;
use crate::helps::HELP_TEXTS;
use crate::linting::lint_files;
use crate::piping::pipe;
use crate::printing::print;
use crate::replaying::replay_files;
use crate::statuses::Status;
use std::convert::AsStr;
use std::io::Write;
use std::rt::Files;
use std::sync::Wait;
use std::thread::Threads;
use us_command_line::{Helps, Order, order_of};
use us_files::Stream;
use us_slots::{Sink, Source};

/// The program: it does what the words ask for (its name is the first), with `input` as its standard input and `output`
/// and `errors` as its standard output and standard error, and answers how it ends.
pub fn run<R, S, I, O, E>(rt: &R, words: &[S], input: &mut I, output: &mut O, errors: E) -> Status
where
    R: Files + AllocGlobal + Threads + Wait + Sync,
    S: AsStr,
    I: Source,
    O: Sink,
    E: Write + Drop,
    requires input_ready { I.failed input.old ≡ false }
    requires output_ready { O.failed output.old ≡ false }
    // Without words it prints what the input gives in two rounds.
    ensures printed { result ≡ Status.Done → length words.now < 2 →
        Prints 2 (I.remaining input.old) (O.contents output.old) (O.contents output.new) }
    // Where it ends as done, broken or warned, standard output was flushed.
    ensures flushed { (result ≡ Status.Done) ⊎ (result ≡ Status.Broken) ⊎ (result ≡ Status.Warned) →
        O.flushed output.new ≡ true }
{
    match obey(rt, words, input, output) {
        Ok(status) => status,
        Err(fault) => end_by(&fault, errors),
    }
}

/// Prints why the program ends, and answers how.
pub fn end_by<E: Write + Drop>(fault: &Fault, mut errors: E) -> Status
    ensures { result ≡ status_of fault.now }
{
    // Nobody is left to be told of a fault here.
    let _ = match fault {
        Fault::Usage(text) => errors.write_all(text.as_str().as_bytes()),
        _ => writeln!(errors, "{fault}"),
    };
    fault.status()
}

/// Does what the words ask for, and answers how it ends.
fn obey<R, S, I, O>(rt: &R, words: &[S], input: &mut I, output: &mut O) -> Result<Status, Fault>
where
    R: Files + AllocGlobal + Threads + Wait + Sync,
    S: AsStr,
    I: Source,
    O: Sink,
    requires input_ready { I.failed input.old ≡ false }
    requires output_ready { O.failed output.old ≡ false }
    ensures printed { length words.now < 2 →
        OnOk result (Prints 2 (I.remaining input.old) (O.contents output.old) (O.contents output.new)) }
    ensures flushed { OnOk result (O.flushed output.new ≡ true) }
{
    let helps = Helps::new(rt.alloc(), &HELP_TEXTS)?;
    let order = order_of(rt.alloc(), words, &helps)?;
    obey_order(rt, &order, input, output)
}

/// Does what is asked for, flushes standard output, and answers how the program ends.
#[tactic(auto, using(crate::proofs::PrintoutLemmas::asked_kept))]
fn obey_order<R, I, O>(
    rt: &R,
    order: &Order<'_>,
    input: &mut I,
    output: &mut O,
) -> Result<Status, Fault>
where
    R: Files + AllocGlobal + Threads + Wait + Sync,
    I: Source,
    O: Sink,
    requires input_ready { I.failed input.old ≡ false }
    requires output_ready { O.failed output.old ≡ false }
    ensures printed { OnOk result
        (PrintsAsAsked order.now (I.remaining input.old) (O.contents output.old) (O.contents output.new)) }
    ensures flushed { OnOk result (O.flushed output.new ≡ true) }
{
    let status = carry_out(rt, order, input, output)?;
    match output.flush() {
        Ok(()) => Ok(status),
        Err(_) => Err(Fault::Device(Stream::Output)),
    }
}

/// Does what is asked for, and answers how the program ends then.
fn carry_out<R, I, O>(
    rt: &R,
    order: &Order<'_>,
    input: &mut I,
    output: &mut O,
) -> Result<Status, Fault>
where
    R: Files + AllocGlobal + Threads + Wait + Sync,
    I: Source,
    O: Sink,
    requires input_ready { I.failed input.old ≡ false }
    requires output_ready { O.failed output.old ≡ false }
    ensures printed { OnOk result
        (PrintsAsAsked order.now (I.remaining input.old) (O.contents output.old) (O.contents output.new)) }
    ensures ready { OnOk result (O.failed output.new ≡ false) }
{
    let alloc = rt.alloc();
    match order {
        Order::Replay(files) => replay_files(rt, alloc, files, output)?,
        Order::Check(files) => return check_files(rt, alloc, files, output),
        Order::Lint(files) => return lint_files(rt, alloc, files, output),
        Order::Dump(path) => dump_file(rt, alloc, path, output)?,
        Order::Pipe { rounds, workers } => pipe(rt, alloc, *rounds, *workers, input, output)?,
        Order::Help(text) => print(output, text.as_str().as_bytes())?,
    }
    Ok(Status::Done)
}
