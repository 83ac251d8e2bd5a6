//! The least and the greatest of what a configuration may say (ours, where nothing else is said). A least number without
//! a name is 0 or 1.

/// The most channels.
pub(crate) const MAX_CHANNELS: u32 = 16;

/// The most flows.
pub(crate) const MAX_FLOWS: u32 = 1_024;

/// The most stations.
pub(crate) const MAX_STATIONS: u32 = 256;

/// The most ticks of a round, which is as long as each MAP.
pub(crate) const MAX_ROUND_TICKS: u32 = 4_096;

/// The most ticks from a request to the start of a MAP that serves it.
pub(crate) const MAX_LEAD_TICKS: u32 = 65_536;

/// The greatest Upstream Channel ID (the standard's).
pub(crate) const MAX_CHANNEL_ID: u32 = 255;

/// The greatest logarithm of a minislot's ticks.
pub(crate) const MAX_MINISLOT_LOG2: u32 = 7;

/// The greatest logarithm of a symbol rate, in 160 ksym/s.
pub(crate) const MAX_RATE_LOG2: u32 = 5;

/// The greatest UCD Count (the standard's).
pub(crate) const MAX_UCD_COUNT: u32 = 255;

/// The greatest exponent of a backoff window (the standard's).
pub(crate) const MAX_EXPONENT: u32 = 15;

/// The most minislots of a request.
pub(crate) const MAX_REQUEST_MINISLOTS: u32 = 64;

/// The most minislots of a reserve.
pub(crate) const MAX_RESERVE_MINISLOTS: u32 = 4_096;

/// The most minislots of Station Maintenance.
pub(crate) const MAX_STATION_MINISLOTS: u32 = 64;

/// The most rounds from one maintenance reserve to the next.
pub(crate) const MAX_MAINTENANCE_EVERY: u32 = 65_536;

/// The least bits of a symbol.
pub(crate) const MIN_BITS: u32 = 2;

/// The most bits of a symbol.
pub(crate) const MAX_BITS: u32 = 6;

/// The most symbols before a burst's bytes.
pub(crate) const MAX_PREAMBLE: u32 = 1_024;

/// The most symbols of silence behind a burst.
pub(crate) const MAX_GUARD: u32 = 255;

/// The greatest T of a code, of which a codeword has 2 T bytes of parity.
pub(crate) const MAX_FEC_T: u32 = 16;

/// The fewest data bytes of a full codeword.
pub(crate) const MIN_FEC_K: u32 = 16;

/// The most data bytes of a full codeword.
pub(crate) const MAX_FEC_K: u32 = 253;

/// The most bytes of a codeword with its parity.
pub const MAX_CODEWORD: u64 = 255;

/// The most minislots of a short data grant.
pub(crate) const MAX_SHORT_MINISLOTS: u32 = 255;

/// The greatest id of a flow or a station.
pub(crate) const MAX_ID: u32 = 65_535;

/// The greatest unicast SID (the standard's).
pub(crate) const MAX_UNICAST_SID: u32 = 15_871;

/// The most channels of a flow.
pub(crate) const MAX_CHANNELS_OF_FLOW: u32 = 8;

/// The most SID clusters of a flow.
pub(crate) const MAX_CLUSTERS_OF_FLOW: u32 = 2;

/// The greatest traffic priority (the standard's).
pub(crate) const MAX_PRIORITY: u32 = 7;

/// The greatest maximum sustained rate and the greatest minimum reserved rate, in bit/s.
pub(crate) const MAX_RATE: u32 = 1_000_000_000;

/// The greatest maximum burst, in bytes.
pub(crate) const MAX_BURST: u32 = 16_777_216;

/// The most bytes of an unsolicited grant.
pub(crate) const MAX_GRANT_BYTES: u32 = 65_535;

/// The most unsolicited grants of an interval.
pub(crate) const MAX_GRANTS: u32 = 127;

/// The shortest interval, in microseconds.
pub(crate) const MIN_INTERVAL_US: u32 = 100;

/// The latest start of a first interval, the longest interval and the greatest jitter, in microseconds.
pub(crate) const MAX_US: u32 = 10_000_000;
