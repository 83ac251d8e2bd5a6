ghost use Rattle.std.specs.Prelude.{IfSome};
ghost use Rattle.rtrb.specs.Ring.{received};
ghost use Rattle.us_crew.specs.Rings.{AskFor};
ghost use Rattle.us_crew.specs.Tasks.{TellsTask};

use super::answers::Answered;
use super::orders::{Answers, Said};
use super::patience::Patience;
use super::tasks::Task;
use crate::{Crew, Gate, Mailboxes, Work};
use std::sync::Wait;

/// A task that was handed out, and whose answer is still to come.
#[derive(Drop)]
pub(crate) struct Pending<W: Work<T, R, E>, G, T, R, E> {
    pub(crate) answers: Answers<W, G, T, R, E>,
}

impl<W: Work<T, R, E> + Drop, G: Gate + Drop, T: Drop, R: Drop, E: Drop> Pending<W, G, T, R, E> {
    /// Waits until the task is done, and has its answer. Meanwhile the owner does tasks that nobody has begun, the last
    /// one first. Nothing is answered where the task itself comes back, which it never does.
    pub(crate) fn answer<H: Wait>(
        self,
        crew: &Crew<'_, H>,
        mailboxes: &Mailboxes<W, G, T, R, E>,
    ) -> Option<Answered<R, E>>
        ensures { IfSome result (λ answer. (task : Task W G T) → AskFor task (received self.answers) →
            TellsTask W.value W.may_fail W.must_fail task answer) }
    {
        let mut answers = self.answers;
        let mut patience = Patience::new();
        for _ in crew.threads().forever() {
            match answers.pop() {
                Ok(Said::Done(answer)) => return Some(answer),
                Ok(Said::Asked(_)) => return None,
                Err(_) => {}
            }
            if !mailboxes.do_last() {
                crew.wait(&mut patience);
            }
        }
        None
    }
}
