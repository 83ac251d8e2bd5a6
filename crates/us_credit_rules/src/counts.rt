ghost use Rattle.std.specs.Prelude.{◌≡◌, true};
ghost use Rattle.us_flows.specs.Tables.{Tables};
ghost use Rattle.us_lawful.specs.Runs.{Judged, counts_told, run_in};
ghost use Rattle.us_lawful.specs.Finals.{counts_hold, is_same_counts};
ghost use Rattle.us_reports.specs.Breaches.{IsFirstBreach};
ghost use Rattle.us_credit_rules.specs.CreditLines.{AreKept};
ghost use Rattle.us_credit_rules.specs.Tellings.{is_once};

use crate::credit_lines::CreditLines;
use crate::told::Told;
use us_reports::Place;
use us_requests::Trace;
use us_round::TraceCounts;

/// The place of the U line, where there is none, are several, or the one doesn't tell the counts of the trace: behind the
/// last round, with the channel and the third number 0.
pub fn counts_breach(trace: &Trace, lines: &CreditLines) -> Option<Place>
    ensures { (t : Tables) (judged : Judged) → AreKept t trace.now judged.lines lines.now →
        IsFirstBreach t.channels (λ p. counts_hold (run_in t trace.now) judged p ≡ true) result }
{
    if is_told(trace, lines.counts) {
        return None;
    }
    Some(Place {
        round: u64::from(trace.rounds()),
        channel: 0,
        third: 0,
    })
}

/// Whether what is told is the counts of the trace, once.
fn is_told(trace: &Trace, told: Told<TraceCounts>) -> bool
    ensures { result ≡ is_once (is_same_counts (counts_told trace.now.counts)) told }
{
    let counts = trace.counts();
    match told {
        Told::Once(line) => {
            u64::from(counts.unknown) == line.unknown
                && u64::from(counts.not_requestable) == line.not_requestable
                && u64::from(counts.late) == line.late
        }
        Told::Nothing | Told::Several => false,
    }
}
