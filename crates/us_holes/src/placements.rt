/// What became of an assignment that was to be placed.
#[derive(Clone, Copy, Debug, PartialEq, Eq)]
pub enum Placed {
    /// It stands: its first minislot, and how many it has.
    At(u32, u32),
    /// There are as many assignments as there may be.
    Full,
    /// No start of the window has so many idle minislots behind it.
    NoRoom,
}
