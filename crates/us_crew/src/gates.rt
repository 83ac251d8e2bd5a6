ghost use Rattle.std.specs.Prelude.{ℕ, ⊤};

/// What a round does with its items.
#[derive(Clone, Copy, Debug, PartialEq, Eq)]
pub enum Phase {
    /// Requests are added to the intake.
    Collect,
    /// Calendars fill boards.
    Fill,
    /// Channels place what is planned.
    Build,
}

/// Where a worker stands before each item. It may be held there.
pub trait Gate {
    ghost use Rattle.us_crew.specs.declared.gates.Phase.{Phase};

    // What is known once a worker has entered for the item of this number.
    ghost entered: { Self → Phase → ℕ → Type 0 };

    /// Lets the worker in that is about to take this item.
    fn enter(&self, phase: Phase, index: usize)
        ensures { entered self.now phase index };
}

/// A gate that holds nobody.
#[derive(Clone, Copy)]
pub struct OpenGate;

impl Gate for OpenGate {
    ghost entered = { λ _ _ _. ⊤ };

    fn enter(&self, _phase: Phase, _index: usize) {}
}

impl<G: Gate> Gate for &G {
    ghost entered = { λ gate phase index. G.entered gate.now phase index };

    fn enter(&self, phase: Phase, index: usize) {
        (*self).enter(phase, index)
    }
}
