/// What is asked for in a round.
#[derive(Clone, Copy, Debug, PartialEq, Eq, Hash)]
pub struct Ask {
    /// The number of the word by which it is: a cluster's, or one that tells a flow's activity.
    pub cluster: u16,
    /// The bytes that the cluster asks for; 1 where a flow marks that it is silent or active.
    pub bytes: u32,
}

/// How many requests of a trace are no asks, each counted under the first of these that holds.
#[derive(Clone, Copy, Debug, PartialEq, Eq, Hash)]
pub struct Counts {
    /// No flow has that SID on that channel.
    pub unknown: u32,
    /// It is a request, and the flow makes none; or a mark, and the flow doesn't tell its activity.
    pub not_requestable: u32,
    /// The round of the request is behind the end of the run.
    pub late: u32,
}
