/// What a replay did.
#[derive(Clone, Copy, Debug, PartialEq, Eq, Hash)]
pub struct Summary {
    /// Rounds that were scheduled.
    pub rounds: u32,
    /// G lines of the report: grants.
    pub granted: u64,
    /// M lines of the report: occurrences that were missed.
    pub missed: u64,
    /// Rows of the trace whose SID no flow has on their channel.
    pub unknown: u32,
    /// Rows of the trace that are requests of a flow that makes none, or marks of one that doesn't tell its activity.
    pub not_requestable: u32,
    /// Other rows of the trace whose round isn't below the number of rounds.
    pub late: u32,
}
