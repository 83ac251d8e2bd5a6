/// What a SID asks for on a channel.
#[derive(Clone, Copy, Debug, PartialEq, Eq)]
pub enum Found {
    /// A SID cluster, by the number of its word.
    Cluster(u16),
    /// The activity of a flow that tells it: by the number of its word for silent, behind which stands that for active.
    Activity(u16),
    /// A flow with unsolicited grants at all times, which has no word.
    Unsolicited,
}
