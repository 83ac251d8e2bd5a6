use crate::asks::Ask;

/// An ask in the round that it is for.
#[derive(Clone, Copy, Debug, PartialEq, Eq)]
pub(crate) struct PlacedAsk {
    pub(crate) round: u32,
    pub(crate) ask: Ask,
}
