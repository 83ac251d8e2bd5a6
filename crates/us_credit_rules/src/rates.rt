ghost use Rattle.std.specs.Prelude.{◌≡◌, true};
ghost use Rattle.us_requests.specs.Traces.{TraceAsks};
ghost use Rattle.us_lawful.specs.Runs.{Judged, run_in};
ghost use Rattle.us_lawful.specs.Rates.{rates_hold};
ghost use Rattle.us_reports.specs.Breaches.{IsFirstBreach};
ghost use Rattle.us_credit_rules.specs.Buckets as spec;
ghost use Rattle.us_credit_rules.specs.CreditLines.{AreKept};

use crate::buckets::{FlowAccount, account_of};
use crate::credit_lines::CreditLines;
use us_flows::{Config, Flow};
use us_reports::{Place, earlier};

/// Where the credits of a flow first break its rate: over some span of rounds that ends there. The third number of a
/// place is the flow's id, and its channel 0.
pub fn rates_breach(config: &Config, lines: &CreditLines) -> Option<Place>
    ensures { (v : TraceAsks) (judged : Judged) → AreKept config.now v judged.lines lines.now →
        IsFirstBreach config.now.channels (λ p. rates_hold (run_in config.now v) judged p ≡ true) result }
{
    let mut first = None;
    for (place, flow) in config.flows().iter().enumerate() {
        let account = account_of(&lines.requests.flows, place);
        first = earlier(config.channels(), first, flow_breach(flow, account));
    }
    first
}

/// Where the credits of a flow first break its rate.
fn flow_breach(flow: &Flow, account: FlowAccount) -> Option<Place>
    ensures { result ≡ spec.rate_place flow.now account }
{
    if flow.rate() == 0 {
        return None;
    }
    let round = account.short()?;
    Some(Place {
        round: u64::from(round),
        channel: 0,
        third: u64::from(flow.id()),
    })
}
