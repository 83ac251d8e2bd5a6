//! The places of keys among those of all flows. Of two keys with one name, this is the place of the first.

/// Its id.
pub(crate) const ID: usize = 0;

/// Its scheduling type.
pub(crate) const TYPE: usize = 1;

/// The ids of its channels.
pub(crate) const CHANNELS: usize = 2;

/// The SIDs of its clusters.
pub(crate) const CLUSTERS: usize = 4;

/// Its traffic priority.
pub(crate) const PRIORITY: usize = 6;

/// Its maximum sustained rate.
pub(crate) const RATE: usize = 7;

/// Its maximum burst.
pub(crate) const BURST: usize = 8;

/// Its minimum reserved rate.
pub(crate) const MIN_RATE: usize = 9;

/// The bytes of a unit of its requests.
pub(crate) const UNIT: usize = 10;

/// Whether its grants have headers.
pub(crate) const HEADERS: usize = 11;

/// When its first interval starts.
pub(crate) const START_US: usize = 12;

/// How long an interval is.
pub(crate) const INTERVAL_US: usize = 13;

/// By how much its grants or polls may be late.
pub(crate) const JITTER_US: usize = 14;

/// The bytes of an unsolicited grant.
pub(crate) const GRANT_BYTES: usize = 15;

/// The unsolicited grants of an interval.
pub(crate) const GRANTS_PER_INTERVAL: usize = 16;
