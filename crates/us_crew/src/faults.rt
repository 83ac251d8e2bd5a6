use std::fmt;
use thiserror::Error;
use us_slots::NoMemory;

/// Why there are no answers. The items were given up, and no worker is at work any more.
#[derive(Clone, Copy, Debug, PartialEq, Eq, Error)]
#[error_bound(E: fmt::Display)]
pub enum CrewFault<E> {
    /// CR1: no worker, or over 64.
    Workers,
    /// CR2: want of memory.
    NoMemory,
    /// CR3: an item, by its number from 0, with a fault that the work may answer for it; none before it must fail.
    Item(usize, E),
}

impl<E> CrewFault<E> {
    ghost use Rattle.std.specs.Prelude.{◌≡◌};
    ghost use Rattle.us_crew.specs.Codes.{code_of};

    /// Its code, CR1 to CR3.
    pub fn code(&self) -> &'static str
        ensures { result.now ≡ code_of self.now }
    {
        match self {
            CrewFault::Workers => "CR1",
            CrewFault::NoMemory => "CR2",
            CrewFault::Item(_, _) => "CR3",
        }
    }
}

/// Writes a fault as its code and what it says, behind that of an item the item's own fault.
impl<E: fmt::Display> fmt::Display for CrewFault<E> {
    ghost use Rattle.us_crew.specs.Codes.{fault_text};

    ghost output = { λ fault. fault_text E.output fault };

    fn fmt<W: fmt::Write>(&self, f: &mut fmt::Formatter<W>) -> fmt::Result {
        let code = self.code();
        match self {
            CrewFault::Workers => write!(f, "{code}: the workers are not 1 to 64"),
            CrewFault::NoMemory => write!(f, "{code}: out of memory"),
            CrewFault::Item(number, fault) => write!(f, "{code}: item {number}: {fault}"),
        }
    }
}

impl<E> From<NoMemory> for CrewFault<E> {
    ghost use Rattle.std.specs.Prelude.{◌≡◌};
    ghost use Rattle.us_crew.specs.declared.faults.CrewFault.TheVariants as fault;

    ghost from_gives = { λ _ given. given ≡ fault.NoMemory };

    fn from(_: NoMemory) -> CrewFault<E> {
        CrewFault::NoMemory
    }
}
