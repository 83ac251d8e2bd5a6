//! Laws of the log of a `Live` and of the seats of its intake, each as the contract of a function that does nothing.

ghost use Rattle.us_live.specs.Laws.{LogBalances, SeatsFeed};

/// Where only the rounds of one `Live` cut an intake, the one seat that takes took what is in the log that they leave; so
/// what is left when the intake is closed, with the entries of this log, is all that was submitted.
pub fn log_balances()
    ensures { LogBalances }
{}

/// A seat by which a `Live` may cut its intake is one still after a submit, a split and a join.
pub fn seats_feed()
    ensures { SeatsFeed }
{}
