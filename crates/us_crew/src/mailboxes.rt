ghost use Rattle.std.specs.Prelude.{◌≡◌, IfOk, vec_len};
ghost use Rattle.rtrb.specs.Ring.{received};
ghost use Rattle.us_crew.specs.Orders.{IsReadyOrder};
ghost use Rattle.us_crew.specs.Rings.{AskFor};
ghost use Rattle.us_crew.specs.Tasks.{IsReadyTask};

use super::orders::{Order, obey, ordered};
use super::pendings::Pending;
use super::tasks::Task;
use crate::{Gate, Work};
use crossbeam_queue::RuledArrayQueue;
use crossbeam_queue::protocol::{Outcome, Protocol};
use std::alloc::Global;
use std::thread::Parker;
use us_slots::NoMemory;

/// Whoever takes an order can obey it.
pub(crate) struct ReadyOrders;

impl<W: Work<T, R, E>, G: Gate, T, R, E> Protocol<Order<W, G, T, R, E>, ()> for ReadyOrders {
    ghost use Rattle.std.specs.List.{AllByRecursion};
    ghost use Rattle.us_crew.specs.Orders.{IsReadyOrder};

    ghost holds = { λ orders _. AllByRecursion (IsReadyOrder G.entered W.accepts) orders };

    ghost first = { tt };
}

impl<W: Work<T, R, E>, G: Gate, T, R, E> Outcome<Order<W, G, T, R, E>, ()> for ReadyOrders {
    ghost use Rattle.us_crew.specs.Orders.{IsReadyOrder};

    ghost then = { λ _ order _. IsReadyOrder G.entered W.accepts order };
}

/// Where one order lies until somebody takes it.
type Mailbox<W, G, T, R, E> = RuledArrayQueue<Order<W, G, T, R, E>, (), ReadyOrders>;

/// Where the tasks of one phase lie until workers take them: a mailbox for each worker beside the owner, with room for
/// one task.
#[derive(Drop)]
pub struct Mailboxes<W: Work<T, R, E>, G: Gate, T, R, E> {
    boxes: Vec<Mailbox<W, G, T, R, E>>,
}

impl<W: Work<T, R, E> + Drop, G: Gate + Drop, T: Drop, R: Drop, E: Drop> Mailboxes<W, G, T, R, E> {
    /// Empty mailboxes for so many workers beside the owner. The tasks of a phase need no more room then.
    pub fn open(alloc: Global, helpers: usize) -> Result<Mailboxes<W, G, T, R, E>, NoMemory>
        ensures { IfOk result (λ mailboxes. vec_len mailboxes.boxes ≡ helpers) }
    {
        let mut boxes = Vec::with_capacity(alloc, helpers)?;
        for _ in 0..helpers {
            let (mailbox, _) = RuledArrayQueue::ruled(alloc, 1)?;
            boxes.push(mailbox)?;
        }
        Ok(Mailboxes { boxes })
    }

    /// How many there are.
    pub(crate) fn len(&self) -> usize
        ensures { result ≡ vec_len self.now.boxes }
    {
        self.boxes.len()
    }

    /// Lays a task into the mailbox of a worker. A task for whom there is none, or whose mailbox isn't empty, is done at
    /// once; neither comes, since each phase lays one task at most into each, and is over once all are done.
    pub(crate) fn put(
        &self,
        worker: usize,
        task: Task<W, G, T>,
    ) -> Result<Pending<W, G, T, R, E>, NoMemory>
        requires { IsReadyTask G.entered W.accepts task }
        ensures { IfOk result (λ pending. AskFor task (received pending.answers)) }
    {
        let (order, answers) = ordered(task)?;
        self.lay(worker, order);
        Ok(Pending { answers })
    }

    /// Lays an order into the mailbox of a worker, or obeys it.
    fn lay(&self, worker: usize, order: Order<W, G, T, R, E>)
        requires { IsReadyOrder G.entered W.accepts order }
    {
        let Some(mailbox) = self.boxes.get(worker) else {
            return obey(order);
        };
        let mut pass = mailbox.pass();
        if let Err(order) = mailbox.try_push_as::<ReadyOrders>(&mut pass, order) {
            obey(order);
        }
    }

    /// Does the task in the mailbox of a worker. Whether there was one.
    pub(crate) fn do_one(&self, worker: usize) -> bool {
        let Some(mailbox) = self.boxes.get(worker) else {
            return false;
        };
        let mut pass = mailbox.pass();
        let Some(order) = mailbox.try_pop_as::<ReadyOrders>(&mut pass) else {
            return false;
        };
        obey(order);
        true
    }

    /// Does the last task that nobody has begun. Whether there was one.
    pub(crate) fn do_last(&self) -> bool {
        for behind in 1..=self.boxes.len() {
            if self.do_one(self.boxes.len() - behind) {
                return true;
            }
        }
        false
    }
}

/// Where a worker looks for tasks.
pub trait Mail {
    /// Does the task in the worker's own mailbox, then those that others haven't begun, and wakes this owner after each.
    fn serve(&self, worker: usize, owner: &Parker);
}

impl<W: Work<T, R, E> + Drop, G: Gate + Drop, T: Drop, R: Drop, E: Drop> Mail
    for Mailboxes<W, G, T, R, E> {
    fn serve(&self, worker: usize, owner: &Parker) {
        // A worker's own task first: so a channel mostly stays with one processor.
        if self.do_one(worker) {
            owner.unpark();
        }
        for other in 0..self.boxes.len() {
            if self.do_one(other) {
                owner.unpark();
            }
        }
    }
}
