/// What an entry of the calendar is, in the order in which kinds have their turns.
#[derive(Clone, Copy, Debug, PartialEq, Eq)]
pub enum Kind {
    /// Grants of a flow with unsolicited grants.
    Unsolicited,
    /// Grants of a flow whose activity is detected, and its polls while it is silent.
    Activity,
    /// Polls of a real-time flow.
    RealTimePoll,
    /// Polls of a non-real-time flow.
    NonRealTimePoll,
    /// Station Maintenance.
    Station,
}
