use std::alloc::Global;
use std::fmt::Debug;
use std::process::Abort;
use us_flows::Config;
use us_reports::{ReportFault, report_rows};
use us_samples::put_channel;

/// The one assertion of these tests, since each costs the proof of the function that it stands in. `place` says where
/// in a test.
pub fn same<T: PartialEq + Debug>(rt: &impl Abort, found: &T, wanted: &T, place: &str) {
    assert_eq!(rt; *found, *wanted, "{place}");
}

/// A text, and how many rows it has or which line is bad.
pub type Case = (&'static str, Result<usize, ReportFault>);

/// The first line is bad.
pub const FIRST: Result<usize, ReportFault> = Err(ReportFault::Line(1));

/// How many rows are read.
pub fn count_of(alloc: Global, bytes: &[u8]) -> Result<usize, ReportFault> {
    Ok(report_rows(alloc, bytes)?.len())
}

/// Compares what is read of each text.
pub fn compare(rt: &impl Abort, alloc: Global, cases: &[Case]) {
    for (text, wanted) in cases {
        same(rt, &count_of(alloc, text.as_bytes()), wanted, text);
    }
}

/// A configuration whose table has channel 5 and, behind it, channel 2; `None` where there is a fault or no memory.
pub fn two_channels(alloc: Global) -> Option<Config> {
    let mut text = String::new(alloc);
    put_channel(&mut text, 5).ok()?;
    put_channel(&mut text, 2).ok()?;
    Config::read(alloc, text.as_bytes()).ok()
}
