//! Laws of the account, each as the contract of a function that does nothing.

ghost use Rattle.us_intake.specs.Laws.{WholeIsAlone, WholeBalances, StepsKeepAccount};

/// A seat with the whole quota takes, and no other seat stands.
pub fn whole_is_alone()
    ensures { WholeIsAlone }
{}

/// With the whole quota a seat has all that was submitted in its part, and for each cluster it is what is in the word
/// and what it took. So it is when an intake is closed.
pub fn whole_balances()
    ensures { WholeBalances }
{}

/// An intake is opened with an account, and every step keeps it.
pub fn steps_keep_account()
    ensures { StepsKeepAccount }
{}
