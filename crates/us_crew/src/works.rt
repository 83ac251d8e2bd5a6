ghost use Rattle.std.specs.Prelude.{◌≡◌, ℕ, OnOk, IfOk, IfErr};

use std::alloc::Global;

/// What is done with each item, by the worker that has it. Items are numbered from 0.
pub trait Work<T, R, E> {
    // The condition of an item at its number.
    ghost accepts: { Self → ℕ → T → Type 0 };

    // Its value.
    ghost value: { Self → ℕ → T → R };

    // The faults that may be answered for it.
    ghost may_fail: { Self → ℕ → T → E → Type 0 };

    // Whether it has a fault of its own, so that no value is answered.
    ghost must_fail: { Self → ℕ → T → Type 0 };

    /// Takes an item with its number, and answers its value or a fault.
    fn run(&self, alloc: Global, index: usize, item: T) -> Result<R, E>
        requires { accepts self.now index item }
        ensures value { IfOk result (λ answer. answer ≡ value self.now index item) }
        ensures sound { OnOk result (¬ must_fail self.now index item) }
        ensures fault { IfErr result (λ fault. may_fail self.now index item fault) };
}

/// A work that is borrowed.
impl<W: Work<T, R, E>, T, R, E> Work<T, R, E> for &W {
    ghost accepts = { λ work index item. W.accepts work.now index item };

    ghost value = { λ work index item. W.value work.now index item };

    ghost may_fail = { λ work index item fault. W.may_fail work.now index item fault };

    ghost must_fail = { λ work index item. W.must_fail work.now index item };

    fn run(&self, alloc: Global, index: usize, item: T) -> Result<R, E> {
        (*self).run(alloc, index, item)
    }
}
