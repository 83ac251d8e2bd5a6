use std::alloc::Global;
use std::fmt::Debug;
use std::process::Abort;
use us_flows::{Config, ConfigFault};
use us_samples::{self as samples, put_channel};

/// The trace of the stored run, which has 2 rounds.
pub(super) const TRACE: &[u8] = b"tick,channel,sid,units\n0,1,291,250\n";

/// Its maps file: a record of 34 bytes and one of 38.
pub(super) const MAPS: &[u8] =
    b"\x00\x00\x00\x00\x00\x1c\x01\x00\x03\x00\x00\x00\x00\x00\x00\x00\x00\x00\x02\x06\x03\x08\
\xff\xfc\x40\x00\xff\xfc\x40\x96\x00\x01\xc0\xa0\
\x00\x00\x00\x01\x00\x20\x01\x00\x04\x00\x00\x00\x00\xa0\x00\x00\x00\x50\x02\x06\x03\x08\
\x04\x8e\x80\x00\xff\xfc\x40\x20\xff\xfc\x40\x96\x00\x01\xc0\xa0";

/// Its report: no line of round 0, and one of round 1.
pub(super) const REPORT: &[u8] = b"G,1,1,req,1,0,0,291,10,0,32,1000\nF,1,0,0,-\nU,0,0,0\n";

/// The flows of the bonded run: one with two clusters bonded over channels 1 and 2, and an unsolicited grant on the second.
const BONDED_FLOWS: &str = "
[[flow]]
id = 1
type = 2
channels = [1, 2]
clusters = [[257, 258], [273, 274]]
priority = 0
rate = 0
burst = 3044
unit = 4
headers = true

[[flow]]
id = 2
type = 6
channels = [2]
clusters = [[513]]
start_us = 2875
interval_us = 10000
jitter_us = 0
grant_bytes = 16
grants_per_interval = 1
";

/// The trace of the bonded run, which has 2 rounds.
pub(super) const BONDED_TRACE: &[u8] = b"tick,channel,sid,units\n0,1,257,2000\n0,2,274,500\n";

/// Its maps file: two records of 34 bytes, one of 38 and one of 46.
pub(super) const BONDED_MAPS: &[u8] =
    b"\x00\x00\x00\x00\x00\x1c\x01\x00\x03\x00\x00\x00\x00\x00\x00\x00\x00\x00\x02\x06\x03\x08\
\xff\xfc\x40\x00\xff\xfc\x40\x96\x00\x01\xc0\xa0\
\x00\x00\x00\x00\x00\x1c\x02\x00\x03\x00\x00\x00\x00\x00\x00\x00\x00\x00\x02\x06\x03\x08\
\xff\xfc\x40\x00\xff\xfc\x40\x96\x00\x01\xc0\xa0\
\x00\x00\x00\x01\x00\x20\x01\x00\x04\x00\x00\x00\x00\xa0\x00\x00\x00\x50\x02\x06\x03\x08\
\x04\x06\x80\x00\x04\x46\x80\x7f\xff\xfc\x40\x96\x00\x01\xc0\xa0\
\x00\x00\x00\x01\x00\x28\x02\x00\x06\x00\x00\x00\x00\xa0\x00\x00\x00\x50\x02\x06\x03\x08\
\x04\x4a\x80\x00\xff\xfc\x40\x17\x08\x06\xc0\x46\x04\x0a\x80\x47\xff\xfc\x40\x96\x00\x01\xc0\xa0";

/// Its report: five grants of round 1, and what is left of two clusters.
pub(super) const BONDED_REPORT: &[u8] = b"G,1,1,req,1,0,0,257,10,0,127,4014
G,1,1,req,1,1,0,273,10,127,23,712
G,1,2,req,1,1,0,274,10,0,23,712
G,1,2,ugs,2,0,0,513,11,70,1,0
G,1,2,req,1,0,0,258,10,71,79,2504
F,1,0,1482,-
F,1,1,576,-
U,0,0,0
";

pub(super) fn base(alloc: Global) -> Result<Config, ConfigFault> {
    Config::read(alloc, samples::base().as_bytes())
}

pub(super) fn bonded(alloc: Global) -> Result<Config, ConfigFault> {
    let mut text = String::new(alloc);
    put_channel(&mut text, 1)?;
    put_channel(&mut text, 2)?;
    text.push_str(BONDED_FLOWS)?;
    Config::read(alloc, text.as_bytes())
}

/// The one assertion of these tests, since each costs the proof of the function that it stands in. `place` says where
/// in a test.
pub(super) fn same<T: PartialEq + Debug>(rt: &impl Abort, found: &T, wanted: &T, place: &str) {
    assert_eq!(rt; *found, *wanted, "{place}");
}
