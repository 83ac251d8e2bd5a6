// In which order turns are.
mod ordering;

pub(crate) use ordering::turns_of;

/// A turn of a round: a SID cluster that makes requests, by its places in the tables.
#[derive(Clone, Copy, Debug, PartialEq, Eq)]
pub struct Turn {
    /// The place of its flow among the flows.
    pub flow: usize,
    /// Its place among the clusters of the flow.
    pub list: usize,
    /// The number of its word.
    pub cluster: usize,
}
