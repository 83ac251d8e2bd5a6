ghost use Rattle.std.specs.Prelude.{◌≡◌, true};
ghost use Rattle.us_flows.specs.Tables.{rounds_fit};

use std::alloc::Global;
use us_flows::Config;
use us_reports::{Breach, ReportFault};
use us_requests::Trace;

/// Who judges a maps file and a report for a lint: the checker, which stands above this crate.
pub trait Judges {
    /// The rule that is broken, beside the configuration and the trace of a run; none where all hold.
    fn breach(
        &self,
        alloc: Global,
        config: &Config,
        trace: &Trace,
        maps: &[u8],
        report: &[u8],
    ) -> Result<Option<Breach>, ReportFault>
        requires { rounds_fit config.now trace.now.rounds ≡ true };
}
