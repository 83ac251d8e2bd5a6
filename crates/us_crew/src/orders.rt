ghost use Rattle.std.specs.Prelude.{◌≡◌, ◌<◌, IfOk};
ghost use Rattle.rtrb.specs.Ring.{sent, received, known_free};
ghost use Rattle.us_crew.specs.Rings.{AskFor};
ghost use Rattle.us_crew.specs.Orders.{IsReadyOrder};

use super::answers::Answered;
use super::tasks::Task;
use crate::{Gate, Work};
use rtrb::{Consumer, Producer, Protocol, RingBuffer};
use std::alloc::Global;
use std::snapshot::Snapshot;
use us_slots::NoMemory;

/// What goes through the ring of one task, from whoever does it to the owner: the task, as clauses see it, while the
/// owner still has it, and then its answer.
#[derive(Drop)]
pub(crate) enum Said<J, A> {
    Asked(Snapshot<J>),
    Done(A),
}

/// What is answered is an answer to the task that was asked for.
pub(crate) struct TrueAnswers;

impl<W: Work<T, R, E>, G, T, R, E> Protocol<Said<Task<W, G, T>, Answered<R, E>>> for TrueAnswers {
    ghost use Rattle.us_crew.specs.Rings.{IsTrueAnswer};
    ghost use Rattle.us_crew.specs.Tasks.{TellsTask};

    ghost allows = { IsTrueAnswer (TellsTask W.value W.may_fail W.must_fail) };
}

/// A task, and the way back for its answer.
#[derive(Drop)]
pub(crate) struct Order<W: Work<T, R, E>, G, T, R, E> {
    pub(crate) task: Task<W, G, T>,
    pub(crate) back: Producer<Said<Task<W, G, T>, Answered<R, E>>, Global, TrueAnswers>,
}

/// The end where the answer to one task comes.
pub(crate) type Answers<W, G, T, R, E> = Consumer<
    Said<Task<W, G, T>, Answered<R, E>>,
    Global,
    TrueAnswers,
>;

/// A task as an order, and the end where its answer comes.
pub(crate) fn ordered<W: Work<T, R, E> + Drop, G: Gate + Drop, T: Drop, R: Drop, E: Drop>(
    task: Task<W, G, T>,
) -> Result<(Order<W, G, T, R, E>, Answers<W, G, T, R, E>), NoMemory>
    ensures task { IfOk result (λ made. made.0.task ≡ task) }
    ensures asked { IfOk result (λ made. AskFor task (sent made.0.back)) }
    ensures room { IfOk result (λ made. 0 < known_free made.0.back) }
    ensures answers { IfOk result (λ made. AskFor task (received made.1)) }
{
    let (mut back, mut answers) = RingBuffer::with_protocol::<Global, TrueAnswers>(task.alloc, 2)?;
    back.push_reserved(Said::Asked(Snapshot::of(&task)));
    answers.slots_beside(&mut back);
    let _asked = answers.pop_known();
    Ok((Order { task, back }, answers))
}

/// Does what is ordered, and sends the answer back.
pub(crate) fn obey<W: Work<T, R, E> + Drop, G: Gate + Drop, T: Drop, R: Drop, E: Drop>(
    order: Order<W, G, T, R, E>,
)
    requires { IsReadyOrder G.entered W.accepts order }
{
    let Order { task, mut back } = order;
    let answer = task.run();
    back.push_reserved(Said::Done(answer));
}
