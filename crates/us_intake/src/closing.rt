ghost use Rattle.std.specs.Prelude.{◌≡◌, length, vec_len};
ghost use Rattle.std.specs.Mem.Slots.{slots_items, slots_len, IsFull};

use atomic_table::Closed;
use std::alloc::Global;

/// What an intake comes to, in bytes by cluster: what is left in its words, what was submitted by all its seats,
/// and what was taken. Of each cluster, what is left and what was taken are what was submitted.
#[derive(Drop)]
pub struct Closing {
    pub left: Vec<u64>,
    pub submitted: Vec<u64>,
    pub taken: Vec<u64>,
}

/// Reads the words of a table that is closed, in place of as many numbers.
pub(crate) fn read_words(left: &mut Vec<u64>, table: &Closed<(), Global>)
    requires row { vec_len left.old ≡ slots_len table.now.words }
    requires full { IsFull table.now.words }
    ensures { left.new.items ≡ slots_items table.now.words }
{
    copy_words(left, table);
}

fn copy_words(left: &mut [u64], table: &Closed<(), Global>)
    requires row { length left.old ≡ slots_len table.now.words }
    requires full { IsFull table.now.words }
    ensures { left.new ≡ slots_items table.now.words }
{
    for at in 0..left.len() {
        left[at] = table.word(at);
    }
}
