//! Laws of the definitions of this crate, each as the contract of a function that does nothing.

ghost use Rattle.us_requests.specs.Asks.{RoundIsLeast};
ghost use Rattle.us_requests.specs.Cuts.{OrderIsNothing};

/// The round of a request is the least that starts no earlier than the lead after it.
pub fn round_is_least()
    ensures { RoundIsLeast }
{}

/// What is asked for in a round, and how requests are counted, depends on the requests of a trace and not on their
/// order.
pub fn order_is_nothing()
    ensures { OrderIsNothing }
{}
