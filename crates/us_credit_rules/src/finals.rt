ghost use Rattle.std.specs.Prelude.{◌≡◌, true, length, IfOk};
ghost use Rattle.us_flows.specs.Clusters.{words_of};
ghost use Rattle.us_flows.specs.Tables.{rounds_fit};
ghost use Rattle.us_lawful.specs.Runs.{Judged, run_in};
ghost use Rattle.us_lawful.specs.Finals.{finals_hold};
ghost use Rattle.us_reports.specs.Breaches.{IsFirstBreach};
ghost use Rattle.us_credit_rules.specs.CreditLines.{AreKept};
ghost use Rattle.us_credit_rules.specs.Ends.{first_of};
ghost use Rattle.us_credit_rules.specs.LastLines as spec;
ghost use Rattle.us_credit_rules.specs.Ledgers.{AreAsked};
ghost use Rattle.us_credit_rules.specs.Tellings.{is_once};

use crate::buckets::{RunTime, account_of};
use crate::credit_lines::CreditLines;
use crate::ends::unless;
use crate::ledgers::{account_at, ask_rounds, bytes_at};
use crate::seats::Seat;
use crate::told::Told;
use std::alloc::{AllocError, Global};
use us_flows::Config;
use us_reports::{Place, earlier};
use us_requests::Trace;
use us_round::FinalState;
use us_slots::NoMemory;

/// Where the F lines first fail: one of no cluster, or a cluster without one, with several, or with one that tells
/// another state than its lines leave. The round of a place is that behind the last one, its channel 0, and its third
/// number the id of a flow.
pub fn finals_breach(
    alloc: Global,
    config: &Config,
    trace: &Trace,
    lines: &CreditLines,
) -> Result<Option<Place>, NoMemory>
    requires { rounds_fit config.now trace.now.rounds ≡ true }
    ensures { IfOk result (λ first. (judged : Judged) → AreKept config.now trace.now judged.lines lines.now →
        IsFirstBreach config.now.channels (λ p. finals_hold (run_in config.now trace.now) judged p ≡ true) first) }
{
    let asked = all_asked(alloc, config, trace)?;
    let time = RunTime {
        rounds: trace.rounds(),
        round_ticks: config.round_ticks(),
    };
    let wrong = first_wrong(config, time, lines, &asked);
    Ok(earlier(config.channels(), lines.finals.strange, wrong))
}

/// What words ask for in all rounds.
fn all_asked(alloc: Global, config: &Config, trace: &Trace) -> Result<Vec<u64>, AllocError>
    ensures { IfOk result (λ all. AreAsked trace.now trace.now.rounds all.items × (length all.items ≡ length (words_of config.now))) }
{
    let mut asked = vec![in alloc; 0; config.clusters()]?;
    ask_rounds(&mut asked, trace, 0, trace.rounds());
    Ok(asked)
}

/// Where a cluster first has not its own F line.
fn first_wrong(config: &Config, time: RunTime, lines: &CreditLines, asked: &[u64]) -> Option<Place>
    ensures { result ≡ first_of config.now.channels (spec.final_place time.rounds time.round_ticks asked.now
        lines.now.requests lines.now.finals.told.items) lines.now.seats }
{
    let mut first = None;
    for seat in lines.seats.all() {
        first = earlier(
            config.channels(),
            first,
            wrong_place(seat, time, lines, asked),
        );
    }
    first
}

/// The place of a cluster that has not its own F line.
fn wrong_place(seat: &Seat, time: RunTime, lines: &CreditLines, asked: &[u64]) -> Option<Place>
    ensures { result ≡ spec.final_place time.rounds time.round_ticks asked.now
        lines.now.requests lines.now.finals.told.items seat.now }
{
    let told = lines.finals.of(usize::from(seat.word()));
    let right = is_right(seat, time, lines, asked, told);
    unless(right, time.rounds, u64::from(seat.flow().id()))
}

/// Whether what is told of a cluster is what is outstanding of it and left in the bucket of its flow, once.
fn is_right(
    seat: &Seat,
    time: RunTime,
    lines: &CreditLines,
    asked: &[u64],
    told: Told<FinalState>,
) -> bool
    ensures { result ≡ spec.is_right time.rounds time.round_ticks asked.now lines.now.requests told seat.now }
{
    let units = account_of(&lines.requests.flows, seat.place()).left(time);
    let account = account_at(&lines.requests.ledger.accounts, seat.word());
    is_told(told, account.left_of(bytes_at(asked, seat.word())), units)
}

/// Whether what is told is this, once.
fn is_told(told: Told<FinalState>, left: u64, units: Option<u64>) -> bool
    ensures { result ≡ is_once (spec.tells left units) told }
{
    match told {
        Told::Once(state) => left == state.outstanding && units == state.units,
        Told::Nothing | Told::Several => false,
    }
}
