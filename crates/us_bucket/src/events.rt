/// What happens to a flow, from the start of round 0 on.
#[derive(Clone, Copy)]
pub enum Event {
    /// The next round starts.
    NextRound,
    /// So many bytes are credited in the present round, or planned first in it, where it is asked what is reserved.
    Credit(u64),
}
