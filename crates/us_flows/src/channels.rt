use us_slots::BurstSet;

/// An upstream channel of the table.
#[derive(Clone, Copy)]
pub struct Channel {
    /// Upstream Channel ID, 1 to 255.
    pub id: u8,
    /// Its time and burst profiles.
    pub bursts: BurstSet,
    /// UCD Count, copied into each MAP.
    pub ucd_count: u8,
    /// Ranging Backoff Start and End, as exponents of 2, 0 to 15.
    pub ranging_backoff: [u8; 2],
    /// Data Backoff Start and End, as exponents of 2, 0 to 15.
    pub data_backoff: [u8; 2],
    /// Minislots of a request, 1 to 64: a shorter gap is no broadcast request.
    pub request_minislots: u8,
    /// Minislots of the contention reserve at the end of each MAP.
    pub contention_minislots: u16,
    /// Minislots of the Initial Maintenance reserve at the start of a MAP.
    pub maintenance_minislots: u16,
    /// Rounds from one maintenance reserve to the next, 1 to 65,536.
    pub maintenance_every: u32,
    /// Minislots of Station Maintenance, 1 to 64.
    pub station_minislots: u8,
}
