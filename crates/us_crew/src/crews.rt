use super::calls::Calls;
use super::patience::Patience;
use crate::Mail;
use std::sync::Wait;
use std::thread::{Parker, Scope, Threads, scope, scope_env};

/// The workers of a call or a run: the owner, which is the calling thread, and its helpers, threads of their own. They
/// look for tasks where the owner says. One thread at a time hands out tasks, by mailboxes that no other crew has.
#[derive(Drop)]
pub struct Crew<'c, H> {
    threads: &'c H,
    calls: &'c Calls,
    owner: &'c Parker,
}

impl<'c, H: Wait> Crew<'c, H> {
    /// Calls all helpers to look for tasks.
    pub(crate) fn call(&self) {
        self.calls.call();
    }

    /// Waits for a turn: awake at first, and later until a helper has done a task.
    pub(crate) fn wait(&self, patience: &mut Patience) {
        if !patience.waits() {
            self.owner.park(self.threads);
        }
    }

    /// What may wait.
    pub(crate) fn threads(&self) -> &H {
        self.threads
    }
}

/// What is run with a crew. It is a value of a type parameter: of a closure that holds a `&mut` nothing would be told.
pub trait Beside<H> {
    type Output;

    // What is known before it runs.
    ghost can_run: { Self → Type 0 };

    // What it answers.
    ghost gives: { Self → Self.Output → Type 0 };

    /// Runs in the calling thread, which owns the crew.
    fn run(self, crew: &Crew<'_, H>) -> Self::Output
        requires { can_run self }
        ensures { gives self result };
}

/// Runs with a crew of the calling thread and so many helpers, who look for tasks in this mail. It returns once all
/// helpers have left.
///
/// A thread is started for each helper, until the system refuses one: a crew does all its work with those that came, or
/// by the owner alone. A helper without a task spins for some turns, gives its processor to others for some more, and
/// then sleeps until the owner calls.
pub fn with_crew<H: Threads + Wait + Sync, M: Mail + Sync, B: Beside<H> + Drop>(
    threads: &H,
    helpers: usize,
    mail: &M,
    beside: B,
) -> B::Output
    requires { B.can_run beside }
    ensures { B.gives beside result }
{
    let (calls, owner) = (Calls::new(), Parker::new());
    let (calls, owner) = (&calls, &owner);
    scope(
        scope_env(),
        threads,
        move |scope| -> B::Output
            requires { B.can_run beside }
            ensures { B.gives beside result }
        {
            start(scope, threads, helpers, mail, calls, owner);
            let crew = Crew {
                threads,
                calls,
                owner,
            };
            let found = beside.run(&crew);
            calls.end();
            found
        },
    )
}

/// Starts a thread for each helper, until the system refuses one.
fn start<'s, E, H: Wait + Sync, M: Mail + Sync>(
    scope: &'s Scope<'s, E>,
    threads: &'s H,
    helpers: usize,
    mail: &'s M,
    calls: &'s Calls,
    owner: &'s Parker,
) {
    for worker in 0..helpers {
        if scope
            .spawn(move || help(threads, worker, mail, calls, owner))
            .is_err()
        {
            return;
        }
    }
}

/// Looks for tasks at each call, until the last one.
fn help<H: Wait, M: Mail>(threads: &H, worker: usize, mail: &M, calls: &Calls, owner: &Parker) {
    let mut seen = 0;
    for _ in threads.forever() {
        seen = calls.next(threads, seen);
        mail.serve(worker, owner);
        if Calls::is_last(seen) {
            return;
        }
    }
}
