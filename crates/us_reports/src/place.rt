/// Where a rule is looked at.
#[derive(Clone, Copy, Debug, PartialEq, Eq)]
pub struct Place {
    /// The number of a round.
    pub round: u64,
    /// The id of a channel.
    pub channel: u64,
    /// A third number, of which each rule says what it is.
    pub third: u64,
}
