/// A step of a round. A seat is who adds or takes: its number plays no part in what is answered.
#[derive(Clone, Copy, Debug, PartialEq, Eq, Hash)]
pub enum Step {
    /// The bytes of a row are added to its word.
    Add {
        /// The place of the row among all rows.
        row: usize,
        /// Who adds it.
        seat: usize,
    },
    /// What a word has moves into the cut, and the word is 0 then.
    Take {
        /// The number of the word.
        word: usize,
        /// Who takes it.
        seat: usize,
    },
    /// A channel is given to a worker.
    Open {
        /// The place of the channel in the table.
        channel: usize,
    },
    /// A channel's claims are placed.
    Built {
        /// The place of the channel in the table.
        channel: usize,
    },
}
