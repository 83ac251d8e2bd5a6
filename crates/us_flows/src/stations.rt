/// A station of the table: a modem whose ranging is kept up by Station Maintenance.
#[derive(Clone, Copy)]
pub struct Station {
    /// The number of the station, 1 to 65,535.
    pub id: u16,
    /// The id of its channel.
    pub channel: u8,
    /// Its SID on the channel, 1 to 15,871. It may also be a flow's.
    pub sid: u16,
    /// When its first interval begins, in microseconds, 0 to 10,000,000.
    pub start_us: u32,
    /// How long each interval is, in microseconds, 100 to 10,000,000.
    pub interval_us: u32,
    /// How late its maintenance may start in an interval, in microseconds, below the interval.
    pub jitter_us: u32,
}
