ghost use Rattle.us_round.specs.TurnByTurn.{ByTurnsIsByChannels, RoundsAreByTurns};

/// Placing is told channel by channel, and comes to the same turn by turn: turn after turn, and within a turn channel
/// after channel in the flow's order, each share is placed on its channel's board.
pub fn turns_are_placed_in_order()
    ensures by_turns { ByTurnsIsByChannels }
    ensures rounds { RoundsAreByTurns }
{}
