ghost use Rattle.std.specs.Prelude.{◌≡◌, length};
ghost use Rattle.us_flows.specs.Keys.{keys_of, typed_keys_of, has_key, top_keys, channel_keys, profile_keys, short_keys, all_flow_keys, station_keys};

use crate::flows::SchedulingType;
use crate::ranges::{
    MAX_BITS, MAX_BURST, MAX_CHANNEL_ID, MAX_CHANNELS, MAX_CHANNELS_OF_FLOW, MAX_CLUSTERS_OF_FLOW,
    MAX_EXPONENT, MAX_FEC_K, MAX_FEC_T, MAX_FLOWS, MAX_GRANT_BYTES, MAX_GRANTS, MAX_GUARD, MAX_ID,
    MAX_LEAD_TICKS, MAX_MAINTENANCE_EVERY, MAX_MINISLOT_LOG2, MAX_PREAMBLE, MAX_PRIORITY, MAX_RATE,
    MAX_RATE_LOG2, MAX_REQUEST_MINISLOTS, MAX_RESERVE_MINISLOTS, MAX_ROUND_TICKS,
    MAX_SHORT_MINISLOTS, MAX_STATION_MINISLOTS, MAX_STATIONS, MAX_UCD_COUNT, MAX_UNICAST_SID,
    MAX_US, MIN_BITS, MIN_FEC_K, MIN_INTERVAL_US,
};

/// What the value of a key must be. Of two numbers the first is the least and the second the greatest.
#[derive(Clone, Copy)]
pub enum Rule {
    /// A whole number.
    Number(u32, u32),
    /// A whole number whose key may be left out.
    OptionalNumber(u32, u32),
    /// A scheduling type: 2, 3, 4, 5 or 6.
    Type,
    /// The bytes of a unit: 1, 2, 4, 8 or 16.
    Unit,
    /// True or false.
    Flag,
    /// A list of so many whole numbers, and the range of each.
    Numbers(u32, u32, u32, u32),
    /// A list of so many lists of whole numbers, and the range of each number.
    Lists(u32, u32, u32, u32),
    /// A table.
    Table,
    /// A list of so many tables. Its key may be left out if the list may be empty.
    Tables(u32, u32),
}

/// A key of a table, and the rule of its value.
pub type Key = (&'static str, Rule);

/// The scheduling types whose flows have a key.
#[derive(Clone, Copy)]
pub enum Types {
    /// All.
    All,
    /// Those that make requests: 2, 3 and 4.
    Requesting,
    /// Those that are polled or have unsolicited grants, at intervals: 3, 4, 5 and 6.
    AtIntervals,
    /// Those of unsolicited grants: 5 and 6.
    Unsolicited,
}

impl Types {
    /// Whether a flow of this type has the key.
    pub fn have(self, kind: SchedulingType) -> bool
        ensures { result ≡ has_key self kind }
    {
        match self {
            Types::All => true,
            Types::Requesting => kind.makes_requests(),
            Types::AtIntervals => kind.has_intervals(),
            Types::Unsolicited => !kind.makes_requests(),
        }
    }
}

/// A key of flows, the scheduling types that have it, and the rule of its value.
pub type FlowKey = (&'static str, Types, Rule);

static TOP_KEYS: [Key; 5] = [
    ("round_ticks", Rule::Number(1, MAX_ROUND_TICKS)),
    ("lead_ticks", Rule::Number(1, MAX_LEAD_TICKS)),
    ("channel", Rule::Tables(1, MAX_CHANNELS)),
    ("flow", Rule::Tables(0, MAX_FLOWS)),
    ("station", Rule::Tables(0, MAX_STATIONS)),
];

static CHANNEL_KEYS: [Key; 14] = [
    ("id", Rule::Number(1, MAX_CHANNEL_ID)),
    ("minislot_log2", Rule::Number(0, MAX_MINISLOT_LOG2)),
    ("rate_log2", Rule::Number(0, MAX_RATE_LOG2)),
    ("ucd_count", Rule::Number(0, MAX_UCD_COUNT)),
    ("ranging_backoff", Rule::Numbers(2, 2, 0, MAX_EXPONENT)),
    ("data_backoff", Rule::Numbers(2, 2, 0, MAX_EXPONENT)),
    ("request_minislots", Rule::Number(1, MAX_REQUEST_MINISLOTS)),
    (
        "contention_minislots",
        Rule::Number(0, MAX_RESERVE_MINISLOTS),
    ),
    (
        "maintenance_minislots",
        Rule::Number(0, MAX_RESERVE_MINISLOTS),
    ),
    ("maintenance_every", Rule::Number(1, MAX_MAINTENANCE_EVERY)),
    ("station_minislots", Rule::Number(1, MAX_STATION_MINISLOTS)),
    ("long", Rule::Table),
    ("short", Rule::Table),
    ("unsolicited", Rule::Table),
];

/// The keys of a profile; behind these, that of short data grants alone.
static PROFILE_KEYS: [Key; 7] = [
    ("bits", Rule::Number(MIN_BITS, MAX_BITS)),
    ("preamble", Rule::Number(0, MAX_PREAMBLE)),
    ("guard", Rule::Number(0, MAX_GUARD)),
    ("fec_t", Rule::Number(0, MAX_FEC_T)),
    ("fec_k", Rule::Number(MIN_FEC_K, MAX_FEC_K)),
    ("shortened", Rule::Flag),
    ("max_minislots", Rule::Number(1, MAX_SHORT_MINISLOTS)),
];

/// How many keys there are of all flows.
pub(crate) const FLOW_KEY_COUNT: usize = 17;

/// The keys of all flows.
static FLOW_KEYS: [FlowKey; FLOW_KEY_COUNT] = [
    ("id", Types::All, Rule::Number(1, MAX_ID)),
    ("type", Types::All, Rule::Type),
    (
        "channels",
        Types::Requesting,
        Rule::Numbers(1, MAX_CHANNELS_OF_FLOW, 1, MAX_CHANNEL_ID),
    ),
    (
        "channels",
        Types::Unsolicited,
        Rule::Numbers(1, 1, 1, MAX_CHANNEL_ID),
    ),
    (
        "clusters",
        Types::Requesting,
        Rule::Lists(1, MAX_CLUSTERS_OF_FLOW, 1, MAX_UNICAST_SID),
    ),
    (
        "clusters",
        Types::Unsolicited,
        Rule::Lists(1, 1, 1, MAX_UNICAST_SID),
    ),
    ("priority", Types::Requesting, Rule::Number(0, MAX_PRIORITY)),
    ("rate", Types::Requesting, Rule::Number(0, MAX_RATE)),
    ("burst", Types::Requesting, Rule::Number(1, MAX_BURST)),
    (
        "min_rate",
        Types::Requesting,
        Rule::OptionalNumber(0, MAX_RATE),
    ),
    ("unit", Types::Requesting, Rule::Unit),
    ("headers", Types::Requesting, Rule::Flag),
    ("start_us", Types::AtIntervals, Rule::Number(0, MAX_US)),
    (
        "interval_us",
        Types::AtIntervals,
        Rule::Number(MIN_INTERVAL_US, MAX_US),
    ),
    ("jitter_us", Types::AtIntervals, Rule::Number(0, MAX_US)),
    (
        "grant_bytes",
        Types::Unsolicited,
        Rule::Number(1, MAX_GRANT_BYTES),
    ),
    (
        "grants_per_interval",
        Types::Unsolicited,
        Rule::Number(1, MAX_GRANTS),
    ),
];

static STATION_KEYS: [Key; 6] = [
    ("id", Rule::Number(1, MAX_ID)),
    ("channel", Rule::Number(1, MAX_CHANNEL_ID)),
    ("sid", Rule::Number(1, MAX_UNICAST_SID)),
    ("start_us", Rule::Number(0, MAX_US)),
    ("interval_us", Rule::Number(MIN_INTERVAL_US, MAX_US)),
    ("jitter_us", Rule::Number(0, MAX_US)),
];

/// The keys of the top level.
#[tactic(auto, unfolding(crate::specs::Keys::top_keys))]
pub fn top_keys() -> &'static [Key]
    ensures { keys_of result.now ≡ top_keys }
{
    TOP_KEYS.as_slice()
}

/// The keys of a channel.
#[tactic(auto, unfolding(crate::specs::Keys::channel_keys))]
pub fn channel_keys() -> &'static [Key]
    ensures { keys_of result.now ≡ channel_keys }
{
    CHANNEL_KEYS.as_slice()
}

/// The keys of a profile.
#[tactic(auto, unfolding(crate::specs::Keys::profile_keys))]
pub fn profile_keys() -> &'static [Key]
    ensures { keys_of result.now ≡ profile_keys }
{
    &PROFILE_KEYS[..PROFILE_KEYS.len() - 1]
}

/// The keys of the profile of short data grants.
#[tactic(auto, unfolding(crate::specs::Keys::profile_keys, crate::specs::Keys::short_keys))]
pub fn short_keys() -> &'static [Key]
    ensures { keys_of result.now ≡ short_keys }
{
    PROFILE_KEYS.as_slice()
}

/// The keys of all flows.
#[tactic(auto, unfolding(crate::specs::Keys::all_flow_keys))]
pub fn all_flow_keys() -> &'static [FlowKey]
    ensures keys { typed_keys_of result.now ≡ all_flow_keys }
    ensures count { length result.now ≡ 17 }
{
    FLOW_KEYS.as_slice()
}

/// The keys of a station.
#[tactic(auto, unfolding(crate::specs::Keys::station_keys))]
pub fn station_keys() -> &'static [Key]
    ensures { keys_of result.now ≡ station_keys }
{
    STATION_KEYS.as_slice()
}
