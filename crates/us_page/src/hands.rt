ghost use Rattle.std.specs.Prelude.{◌≡◌, Option, None, Some, option_map};
ghost use Rattle.us_page.specs.Runs.{Run as HeldRun};
ghost use Rattle.us_page.specs.Hands.{boxed_run, hand_owns, held_coded, loose_run};

use crate::loose::Loose;
use crate::runs::Run;
use std::alloc::Global;
use std::marker::Model;
use std::mem::replace;
use std::ptr::null_mut;

/// Holds a run for a caller that isn't Rattle, or nothing, as at first, when its bytes are 0.
#[repr(C)]
pub struct Hand {
    at: *mut u8,
    alloc: Global,
    pub ghost held: { Option HeldRun } by { held_coded },
}

impl Model for Hand {
    ghost also_owns = { λ h. hand_owns h.alloc h.at h.held };
}

impl Hand {
    /// A hand that holds nothing.
    pub fn empty(alloc: Global) -> Hand
        ensures { result.held ≡ None }
    {
        Hand {
            at: null_mut(),
            alloc,
        }
    }

    /// A hand that holds a run.
    fn of_loose(run: Loose<Run, Global>) -> Hand
        ensures { result.held ≡ Some run.value }
    {
        let Loose { at, alloc } = run;
        Hand {
            at: at as *mut u8,
            alloc,
        }
    }

    /// The run that it held.
    fn into_loose(self) -> Option<Loose<Run, Global>>
        ensures { option_map loose_run result ≡ self.held }
    {
        let Hand { at, alloc } = self;
        if at.is_null() {
            None
        } else {
            Some(Loose {
                at: at as *mut Run,
                alloc,
            })
        }
    }

    /// The run that it held, as a box.
    fn into_box(self) -> Option<Box<Run>>
        ensures { option_map boxed_run result ≡ self.held }
    {
        match self.into_loose() {
            Some(run) => Some(run.into_box()),
            None => None,
        }
    }

    /// Has it hold this run, and gives up what it held.
    pub(crate) fn put(&mut self, run: Box<Run>)
        ensures { self.new.held ≡ Some run.value }
    {
        drop(replace(self, Hand::of_loose(Loose::of(run))));
    }

    /// Takes what it holds.
    pub(crate) fn take(&mut self, alloc: Global) -> Option<Box<Run>>
        ensures run { option_map boxed_run result ≡ self.old.held }
        ensures empty { self.new.held ≡ None }
    {
        replace(self, Hand::empty(alloc)).into_box()
    }
}

impl Drop for Hand {
    fn drop(self) {
        drop(self.into_box());
    }
}
