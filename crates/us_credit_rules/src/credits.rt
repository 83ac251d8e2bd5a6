ghost use Rattle.std.specs.Prelude.{◌≡◌, true};
ghost use Rattle.us_requests.specs.Traces.{TraceAsks};
ghost use Rattle.us_lawful.specs.Runs.{Judged, run_in};
ghost use Rattle.us_lawful.specs.Credits.{credits_hold};
ghost use Rattle.us_reports.specs.Breaches.{IsFirstBreach};
ghost use Rattle.us_credit_rules.specs.CreditLines.{AreKept};
ghost use Rattle.us_credit_rules.specs.Ends.{first_of};
ghost use Rattle.us_credit_rules.specs.Ledgers as spec;

use crate::credit_lines::CreditLines;
use crate::ledgers::{Account, account_at};
use crate::seats::Seat;
use us_flows::Config;
use us_reports::{Place, earlier};

/// Where the lines of requests first fail: one that isn't right for the cluster that it names, whose place has the
/// line's round, channel and id; or a cluster that is credited more in a round than is outstanding, whose place has the
/// channel 0 and the id of the flow.
pub fn credits_breach(config: &Config, lines: &CreditLines) -> Option<Place>
    ensures { (v : TraceAsks) (judged : Judged) → AreKept config.now v judged.lines lines.now →
        IsFirstBreach config.now.channels (λ p. credits_hold (run_in config.now v) judged p ≡ true) result }
{
    let sum = first_sum(config, lines);
    earlier(config.channels(), lines.requests.repeats.first, sum)
}

/// Where a cluster is first credited more than it asked for. The third number of a place is the id of its flow, and its
/// channel 0.
fn first_sum(config: &Config, lines: &CreditLines) -> Option<Place>
    ensures { result ≡ first_of config.now.channels (spec.sum_place lines.now.requests.ledger.accounts.items) lines.now.seats }
{
    let clusters = &lines.requests.ledger.accounts;
    let mut first = None;
    for seat in lines.seats.all() {
        first = earlier(config.channels(), first, cluster_sum(clusters, seat));
    }
    first
}

/// Where a cluster is first credited more than it asked for.
fn cluster_sum(clusters: &[Account], seat: &Seat) -> Option<Place>
    ensures { result ≡ spec.sum_place clusters.now seat.now }
{
    let round = account_at(clusters, seat.word()).short()?;
    Some(Place {
        round: u64::from(round),
        channel: 0,
        third: u64::from(seat.flow().id()),
    })
}
