ghost use Rattle.std.specs.Prelude.{◌≡◌, ◌↔◌, ◌⊎◌, ◌<◌, ◌≤◌, true, false, length, Err, IfOk, OnOk, IfErr};
ghost use Rattle.us_flows.specs.Tables;
ghost use Rattle.us_flows.specs.Clusters.{words_of};
ghost use Rattle.us_flows.specs.Lawful.{AreTables};
ghost use Rattle.us_slots.specs.Devices.{TookAtMost};
ghost use Rattle.us_requests.specs.Readings.{max_bytes};
ghost use Rattle.us_round.specs.Rounds.{opening};
ghost use Rattle.us_replay.specs.Endings.{comes_before};
ghost use Rattle.us_replay.specs.Replays.{AreLeft, Replayed, WroteLawful, grown, writing};
ghost use Rattle.us_replay.specs.Progress.{CanMake, CanRun, Ended, IsMade, opening_progress, written};

use crate::collecting::open_intake;
use crate::doers::{Doers, RunMail};
use crate::faults::RunFault;
use crate::summaries::Summary;
use progress::Progress;
use sending::{flush, send};
use std::alloc::Global;
use std::sync::Wait;
use std::thread::Threads;
use us_crew::{Gate, MAX_WORKERS, Mailboxes, OpenGate, with_crew};
use us_flows::Config;
use us_requests::{Ask, Trace, TraceFault};
use us_round::{Alone, RoundMail, State, step};
use us_slots::{NoMemory, Sink, Source};
use whole_run::WholeRun;

mod batches;
mod progress;
mod sending;
mod whole_run;

/// Replays the trace of `trace` with a configuration, for so many rounds: writes the maps file and the report. The
/// channels of each round are shared among so many workers, each of which enters the gate before each channel. How many
/// there are, and which comes when, changes nothing of what is written.
///
/// The number of rounds is looked at first (RU1), then that of workers (RU2), and then the trace is read to its end
/// (RU3). Each round has its records and its lines, the channels in table order; behind the last one the lines end with the F
/// lines, the A lines and the U line. Rounds are written several at a time, once there are 256, 48 KiB of records or 64 KiB of
/// lines, and at the end: first their records and then their lines, so that a line never stands without the records of its
/// round. Then both writers are flushed, the maps file's first. The first fault ends the replay (RU4, RU5, RU6); where memory
/// is wanting (RU6), the rounds that weren't written yet are given up.
///
/// The requests of a round are added to their words by whichever workers, and then taken: one swap for each, of the word
/// that it names, and of no other word. To take a word that holds nothing and wasn't taken, where no channel is open,
/// leaves words, cut and seats as they are, and marks the word as taken. So the steps of a round, with the first take of
/// each word that a request names and a take of each other word, are a complete list, with the same cut and words of 0
/// (`taking_nothing` and `replays_are_complete` of `us_steps`).
pub fn replay<H: Threads + Wait + Sync, R: Source, W1: Sink, W2: Sink, G: Gate + Sync>(
    threads: &H,
    alloc: Global,
    config: &Config,
    trace: &mut R,
    rounds: u32,
    workers: usize,
    gate: &G,
    maps: &mut W1,
    report: &mut W2,
) -> Result<Summary, RunFault>
    requires trace_ready { R.failed trace.old ≡ false }
    requires maps_ready { W1.failed maps.old ≡ false }
    requires report_ready { W2.failed report.old ≡ false }
    ensures replayed { Replayed config.now rounds (R.remaining trace.old)
        (grown (W1.contents maps.old) (W1.contents maps.new)) (grown (W2.contents report.old) (W2.contents report.new))
        (W2.failed report.new) result }
    ensures lawful { OnOk result (WroteLawful config.now rounds (R.remaining trace.old)
        (grown (W1.contents maps.old) (W1.contents maps.new)) (grown (W2.contents report.old) (W2.contents report.new))) }
    ensures rounds { (result ≡ Err RunFault.Rounds) ↔ (Tables.rounds_fit config.now rounds ≡ false) }
    ensures workers { (result ≡ Err RunFault.Workers) ↔
        (Tables.rounds_fit config.now rounds ≡ true) × ((workers ≡ 0) ⊎ (64 < workers)) }
    ensures nothing_read { (result ≡ Err RunFault.Rounds) ⊎ (result ≡ Err RunFault.Workers) → trace.new ≡ trace.old }
    ensures nothing_written { comes_before result ≡ true → (maps.new ≡ maps.old) × (report.new ≡ report.old) }
    ensures trace_failed { (R.failed trace.new ≡ true) ↔ (result ≡ Err (RunFault.Trace TraceFault.Read)) }
    ensures trace_taken { result ≡ Err (RunFault.Trace TraceFault.Read) →
        TookAtMost max_bytes (R.remaining trace.old) (R.remaining trace.new) }
    ensures trace_wanting { result ≡ Err (RunFault.Trace TraceFault.NoMemory) →
        TookAtMost max_bytes (R.remaining trace.old) (R.remaining trace.new) }
    ensures left { AreLeft (writing (W1.failed maps.new) (W1.flushed maps.old) (W1.flushed maps.new))
        (writing (W2.failed report.new) (W2.flushed report.old) (W2.flushed report.new)) result }
{
    check_run(config, rounds, workers)?;
    let trace = Trace::read(alloc, trace, config, rounds)?;
    run(threads, alloc, config, &trace, workers, gate, maps, report)
}

/// Replays a trace as [`replay`] does by one worker, which is the calling thread: it starts no thread, waits for nobody and
/// enters no gate. It takes no threads and no handle, for callers that have none, such as the page's module.
///
/// The number of rounds is looked at first (RU1), and then the trace is read (RU3); the first fault of a writer ends the
/// replay (RU4, RU5), and so does want of memory (RU6). RU2 never comes.
pub fn replay_alone<R: Source, W1: Sink, W2: Sink>(
    alloc: Global,
    config: &Config,
    trace: &mut R,
    rounds: u32,
    maps: &mut W1,
    report: &mut W2,
) -> Result<Summary, RunFault>
    requires trace_ready { R.failed trace.old ≡ false }
    requires maps_ready { W1.failed maps.old ≡ false }
    requires report_ready { W2.failed report.old ≡ false }
    ensures replayed { Replayed config.now rounds (R.remaining trace.old)
        (grown (W1.contents maps.old) (W1.contents maps.new)) (grown (W2.contents report.old) (W2.contents report.new))
        (W2.failed report.new) result }
    ensures lawful { OnOk result (WroteLawful config.now rounds (R.remaining trace.old)
        (grown (W1.contents maps.old) (W1.contents maps.new)) (grown (W2.contents report.old) (W2.contents report.new))) }
    ensures rounds { (result ≡ Err RunFault.Rounds) ↔ (Tables.rounds_fit config.now rounds ≡ false) }
    ensures workers { ¬ (result ≡ Err RunFault.Workers) }
    ensures nothing_read { result ≡ Err RunFault.Rounds → trace.new ≡ trace.old }
    ensures nothing_written { comes_before result ≡ true → (maps.new ≡ maps.old) × (report.new ≡ report.old) }
    ensures trace_failed { (R.failed trace.new ≡ true) ↔ (result ≡ Err (RunFault.Trace TraceFault.Read)) }
    ensures trace_taken { result ≡ Err (RunFault.Trace TraceFault.Read) →
        TookAtMost max_bytes (R.remaining trace.old) (R.remaining trace.new) }
    ensures trace_wanting { result ≡ Err (RunFault.Trace TraceFault.NoMemory) →
        TookAtMost max_bytes (R.remaining trace.old) (R.remaining trace.new) }
    ensures left { AreLeft (writing (W1.failed maps.new) (W1.flushed maps.old) (W1.flushed maps.new))
        (writing (W2.failed report.new) (W2.flushed report.old) (W2.flushed report.new)) result }
{
    check_run(config, rounds, 1)?;
    let read = Trace::read(alloc, trace, config, rounds)?;
    run_alone(alloc, config, &read, &OpenGate, maps, report)
}

/// Looks at the numbers of a replay: RU1 where the rounds don't fit, and else RU2 where the workers are 0 or over 64.
/// `replay` does it first; a caller that opens files for it does it before them.
pub fn check_run(config: &Config, rounds: u32, workers: usize) -> Result<(), RunFault>
    ensures rounds { (result ≡ Err RunFault.Rounds) ↔ (Tables.rounds_fit config.now rounds ≡ false) }
    ensures workers { (result ≡ Err RunFault.Workers) ↔
        (Tables.rounds_fit config.now rounds ≡ true) × ((workers ≡ 0) ⊎ (64 < workers)) }
    ensures fine { OnOk result ((Tables.rounds_fit config.now rounds ≡ true) × (1 ≤ workers) × (workers ≤ 64)) }
    ensures fault { IfErr result (λ f. (f ≡ RunFault.Rounds) ⊎ (f ≡ RunFault.Workers)) }
{
    if !config.rounds_fit(rounds) {
        return Err(RunFault::Rounds);
    }
    if workers == 0 || workers > MAX_WORKERS {
        return Err(RunFault::Workers);
    }
    Ok(())
}

/// Replays a trace that was read, by the calling thread where there is no work for a second worker. Else the intake where
/// requests are collected is opened here, since it has to outlive the workers.
fn run<H: Threads + Wait + Sync, W1: Sink, W2: Sink, G: Gate + Sync>(
    threads: &H,
    alloc: Global,
    config: &Config,
    trace: &Trace,
    workers: usize,
    gate: &G,
    maps: &mut W1,
    report: &mut W2,
) -> Result<Summary, RunFault>
    requires { CanRun config.now trace.now (W1.failed maps.old) (W2.failed report.old) }
    ensures { Ended config.now trace.now (written W1.contents W1.failed W1.flushed maps.old maps.new)
        (written W2.contents W2.failed W2.flushed report.old report.new) result }
{
    let workers = workers_for(config, trace, workers);
    if workers < 2 {
        return run_alone(alloc, config, trace, gate, maps, report);
    }
    let Ok((intake, seat)) = open_intake(alloc, config.clusters()) else {
        return Err(RunFault::NoMemory(0));
    };
    let intake = intake.as_ref();
    let Ok(progress) = Progress::opening(alloc, config.clusters(), intake, seat) else {
        return Err(RunFault::NoMemory(0));
    };
    run_kept(
        threads, alloc, config, trace, workers, gate, progress, maps, report,
    )
}

/// Replays a trace by the calling thread: opens the intake where its requests are collected.
fn run_alone<W1: Sink, W2: Sink, G: Gate>(
    alloc: Global,
    config: &Config,
    trace: &Trace,
    gate: &G,
    maps: &mut W1,
    report: &mut W2,
) -> Result<Summary, RunFault>
    requires { CanRun config.now trace.now (W1.failed maps.old) (W2.failed report.old) }
    ensures { Ended config.now trace.now (written W1.contents W1.failed W1.flushed maps.old maps.new)
        (written W2.contents W2.failed W2.flushed report.old report.new) result }
{
    let Ok((intake, seat)) = open_intake(alloc, config.clusters()) else {
        return Err(RunFault::NoMemory(0));
    };
    let intake = intake.as_ref();
    let Ok(progress) = Progress::opening(alloc, config.clusters(), intake, seat) else {
        return Err(RunFault::NoMemory(0));
    };
    run_alone_from(alloc, config, trace, progress, gate, maps, report)
}

/// Replays a trace by the calling thread, with what is kept between rounds.
fn run_alone_from<'a, W1: Sink, W2: Sink, G: Gate>(
    alloc: Global,
    config: &'a Config,
    trace: &'a Trace,
    progress: Progress<'a>,
    gate: &'a G,
    maps: &mut W1,
    report: &mut W2,
) -> Result<Summary, RunFault>
    requires opening { progress ≡ opening_progress (length (words_of config.now)) }
    requires ready { CanRun config.now trace.now (W1.failed maps.old) (W2.failed report.old) }
    ensures { Ended config.now trace.now (written W1.contents W1.failed W1.flushed maps.old maps.new)
        (written W2.contents W2.failed W2.flushed report.old report.new) result }
{
    let mut progress = progress;
    let mut doers = Alone { gate };
    run_by(
        alloc,
        config,
        trace,
        &mut progress,
        &mut doers,
        maps,
        report,
    )
}

/// Replays a trace by several workers, who are kept until its end.
fn run_kept<'a, H: Threads + Wait + Sync, W1: Sink, W2: Sink, G: Gate + Copy + Sync + Send + Drop>(
    threads: &H,
    alloc: Global,
    config: &'a Config,
    trace: &'a Trace,
    workers: usize,
    gate: G,
    progress: Progress<'a>,
    maps: &mut W1,
    report: &mut W2,
) -> Result<Summary, RunFault>
    requires lawful { AreTables config.now }
    requires opening { progress ≡ opening_progress (length (words_of config.now)) }
    requires ready { CanRun config.now trace.now (W1.failed maps.old) (W2.failed report.old) }
    ensures { Ended config.now trace.now (written W1.contents W1.failed W1.flushed maps.old maps.new)
        (written W2.contents W2.failed W2.flushed report.old report.new) result }
{
    let helpers = workers.saturating_sub(1);
    let (Ok(collects), Ok(fills), Ok(builds)) = (
        Mailboxes::open(alloc, helpers),
        Mailboxes::open(alloc, helpers),
        Mailboxes::open(alloc, helpers),
    ) else {
        return Err(RunFault::NoMemory(0));
    };
    let round = RoundMail {
        fills: &fills,
        builds: &builds,
    };
    let mail = RunMail {
        collects: &collects,
        round: &round,
    };
    let task = WholeRun {
        alloc,
        config,
        trace,
        progress,
        workers,
        gate,
        mail: &mail,
        maps,
        report,
    };
    let (ended, maps, report) = with_crew(threads, helpers, &mail, task);
    take_back(maps);
    take_back(report);
    ended
}

/// Does nothing: this use of a reference that came back is what ties it to the parameter that lent it.
fn take_back<T>(lent: &mut T)
    ensures { lent.new ≡ lent.old }
{}

/// How many workers a replay has: as many as are asked for, but no more than its channels or than the most asks of a
/// round, whichever are more.
fn workers_for(config: &Config, trace: &Trace, workers: usize) -> usize {
    workers.min(config.channels().len().max(trace.most_asks()))
}

/// Replays a trace from its start, by these doers. That the progress stands with the caller spares each way out of here
/// to give it up.
fn run_by<'a, D: Doers<'a>, W1: Sink, W2: Sink>(
    alloc: Global,
    config: &Config,
    trace: &'a Trace,
    progress: &mut Progress<'a>,
    doers: &mut D,
    maps: &mut W1,
    report: &mut W2,
) -> Result<Summary, RunFault>
    requires opening { progress.old ≡ opening_progress (length (words_of config.now)) }
    requires doers { D.knows doers.old config.now }
    requires ready { CanRun config.now trace.now (W1.failed maps.old) (W2.failed report.old) }
    ensures { Ended config.now trace.now (written W1.contents W1.failed W1.flushed maps.old maps.new)
        (written W2.contents W2.failed W2.flushed report.old report.new) result }
{
    let Ok(mut state) = opened(alloc, config) else {
        return Err(RunFault::NoMemory(0));
    };
    let rounds = trace.rounds();
    let mut sent = 0;
    for done in 0..rounds {
        let asks = trace.asks(done);
        let Ok(next) = make_round(alloc, state, progress, asks, doers) else {
            return Err(RunFault::NoMemory(sent));
        };
        state = next;
        if progress.batch().is_full() {
            send(progress.batch(), sent, maps, report)?;
            progress.begin_batch();
            sent = done + 1;
        }
    }
    let Ok(()) = progress.take_last(alloc, &state, trace.counts()) else {
        return Err(RunFault::NoMemory(sent));
    };
    send(progress.batch(), sent, maps, report)?;
    flush(rounds, maps, report)?;
    Ok(progress.summary(rounds, trace.counts()))
}

/// The state before round 0, of a copy of the configuration.
fn opened(alloc: Global, config: &Config) -> Result<State, NoMemory>
    ensures value { IfOk result (λ state. state ≡ opening config.now) }
    ensures lawful { AreTables config.now }
{
    // What is known of tables is told by their readers.
    let _ = config.clusters();
    let copy = config.copy(alloc)?;
    match State::new(alloc, copy) {
        Ok(state) => Ok(state),
        Err(_) => Err(NoMemory),
    }
}

/// Makes the round of a state and these asks, and its texts. After want of memory nothing is said of `progress`.
fn make_round<'a, D: Doers<'a>>(
    alloc: Global,
    state: State,
    progress: &mut Progress<'a>,
    asks: &'a [Ask],
    doers: &mut D,
) -> Result<State, NoMemory>
    requires ready { CanMake state progress.old asks.now }
    requires doers { D.knows doers.old state.tables }
    ensures made { IfOk result (λ next. IsMade state progress.old asks.now next progress.new) }
    ensures same { (t : Tables.Tables) → D.knows doers.old t → D.knows doers.new t }
{
    progress.take_asks(alloc, asks, doers)?;
    let made = step(state, progress.cut(), doers)?;
    // Its clauses bound how many rounds there were and how much the calendars settled, so that no count of lines wraps.
    let _ = made.next_round();
    progress.take_round(&made)?;
    Ok(made.into_state())
}
