//! The input of the stored run, and in it the base configuration, with which the tests of several crates begin. It stands
//! here once, and no program has it.
//!
//! ```
//! let config = Config::read(alloc, base().as_bytes())?; // one channel, and a flow of best effort
//! ```
//!
//! Its texts are answers of functions, since a long text is dear to prove with wherever it stands.
#![tactic(auto)]

use std::alloc::AllocError;

/// The base configuration, the line `%%`, and a trace of one request, of 1,000 bytes at tick 0. The MAPs of the channel have
/// 160 minislots of 64 symbols of 4 bits; the last 10 are for contention, and the others carry 4,784 bytes behind no header.
pub fn stored_input() -> &'static str {
    "round_ticks = 320
lead_ticks = 160

[[channel]]
id = 1
minislot_log2 = 1
rate_log2 = 5
ucd_count = 0
ranging_backoff = [2, 6]
data_backoff = [3, 8]
request_minislots = 2
contention_minislots = 10
maintenance_minislots = 0
maintenance_every = 1
station_minislots = 4
long = { bits = 4, preamble = 24, guard = 8, fec_t = 0, fec_k = 200, shortened = false }
short = { bits = 4, preamble = 24, guard = 8, fec_t = 0, fec_k = 200, shortened = false, max_minislots = 10 }
unsolicited = { bits = 4, preamble = 24, guard = 8, fec_t = 0, fec_k = 200, shortened = false }

[[flow]]
id = 1
type = 2
channels = [1]
clusters = [[291]]
priority = 0
rate = 0
burst = 3044
unit = 4
headers = true
%%
tick,channel,sid,units
0,1,291,250
"
}

/// The base configuration: channel 1, and a flow of best effort without a limit on SID 291.
pub fn base() -> &'static str {
    parted(stored_input(), "%%").0
}

/// Puts a channel like that of the base configuration, but with this id, behind a text, and the keys of the top level
/// before it where the text is empty. The fault is want of memory.
pub fn put_channel(text: &mut String, id: u8) -> Result<(), AllocError> {
    let (top, tables) = parted(base(), "[[channel]]\nid = 1\n");
    let (channel, _) = parted(tables, "[[flow]]");
    if text.is_empty() {
        text.push_str(top)?;
    }
    write!(text, "[[channel]]\nid = {id}\n{channel}")
}

/// What stands before a mark, and what behind it; all and nothing where it isn't there.
fn parted(text: &'static str, mark: &str) -> (&'static str, &'static str) {
    text.split_once(mark).unwrap_or((text, ""))
}
