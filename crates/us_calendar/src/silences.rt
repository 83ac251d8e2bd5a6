/// What an entry has for the time in which its flow is silent, where the flow's activity is detected.
#[derive(Clone, Copy)]
pub struct Silence {
    /// The number of the word that marks the flow as silent. The next one marks it as active.
    pub word: u16,
    /// The minislots of a poll, at least one.
    pub slots: u32,
}
