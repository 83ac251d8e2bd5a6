//! Laws of a channel in a round, each as the contract of a function that does nothing.

ghost use Rattle.us_channel.specs.Laws.{BoardsAreBuilt, GrantsAreOfClaims, GrantsFit, PlacedHaveMinislots, ReservesFit};

/// Each grant of a channel fits where it is placed, after those before it.
pub fn grants_fit()
    ensures { GrantsFit }
{}

/// Where each claim has a byte at least, grants are of claims, in their order, and no claim has two.
pub fn grants_are_of_claims()
    ensures { GrantsAreOfClaims }
{}

/// A board with the reserves, where both have room, has these and no others, and each fitted.
pub fn reserves_fit()
    ensures { ReservesFit }
{}

/// A built board has its reserves, what its calendar granted, its grants and no more, and each of these fitted.
pub fn boards_are_built()
    ensures { BoardsAreBuilt }
{}

/// Each of these has a minislot at least, where the calendar's entries have.
pub fn placed_have_minislots()
    ensures { PlacedHaveMinislots }
{}
