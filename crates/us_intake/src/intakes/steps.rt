//! The atomic steps of an intake but opening and closing, each on the token of a seat.

ghost use Rattle.std.specs.Prelude.{◌≡◌, ◌+◌, ◌<◌, ◌≤◌, true, [], length, sum};
ghost use Rattle.us_intake.specs.Accounts as spec;
ghost use Rattle.us_intake.specs.Parts.{Known, Covers};

use crate::accounts::{Adds, Bytes, CutOff, Looks, Merged, Part, Takes};
use crate::intakes::Intake;
use atomic_table::Seat;

impl Intake {
    /// One `fetch_add`: the bytes are in the word and in the seat's part at once.
    pub(super) fn add(&self, token: &mut Seat<(), Part>, at: usize, bytes: u64)
        requires own { token.old.table_id ≡ self.now.id }
        requires bare { token.old.me.1 ≡ [] }
        requires there { at < self.now.clusters }
        requires row { length token.old.me.0.submitted ≡ self.now.clusters }
        requires some { 1 ≤ token.old.me.0.quota }
        requires within { sum token.old.me.0.submitted + bytes ≤ token.old.me.0.quota }
        ensures own { token.new.table_id ≡ token.old.table_id }
        ensures part { token.new.me ≡ (spec.part_after_submit token.old.me.0 at bytes, []) }
    {
        self.table.shared.fetch_add::<Adds>(token, at, bytes);
    }

    /// One `swap`: what the word held is in the seat's part at once, and nothing in the word.
    pub(super) fn swap(&self, token: &mut Seat<(), Part>, at: usize) -> u64
        requires own { token.old.table_id ≡ self.now.id }
        requires bare { token.old.me.1 ≡ [] }
        requires there { at < self.now.clusters }
        requires row { length token.old.me.0.taken ≡ self.now.clusters }
        requires takes { token.old.me.0.takes ≡ true }
        ensures own { token.new.table_id ≡ token.old.table_id }
        ensures part { token.new.me ≡ (spec.part_after_swap token.old.me.0 at result, []) }
        ensures known { Known token.new.me.0 }
        ensures covers { Covers token.new.me.0 at }
    {
        self.table.shared.swap::<Takes>(token, at, 0)
    }

    /// One step that keeps the words: a seat's part is cut in two.
    pub(super) fn split_off<B: Bytes>(&self, token: &mut Seat<(), Part>) -> Seat<(), Part>
        requires own { token.old.table_id ≡ self.now.id }
        requires some { 1 ≤ B.bytes }
        requires less { B.bytes < token.old.me.0.quota }
        requires within { sum token.old.me.0.submitted + B.bytes ≤ token.old.me.0.quota }
        ensures own { (token.new.table_id ≡ token.old.table_id) × (result.table_id ≡ token.old.table_id) }
        ensures left { token.new.me ≡ (spec.part_after_split token.old.me.0 B.bytes, token.old.me.1) }
        ensures right { result.me ≡ (spec.new_part token.old.me.0 B.bytes, []) }
    {
        self.table.shared.split_seat::<CutOff<B>>(token)
    }

    /// Two steps that keep the words: two parts are made one, and a load, of which this is the one place, tells what the
    /// account says of it.
    pub(super) fn merge(&self, token: &mut Seat<(), Part>, other: Seat<(), Part>)
        requires own { (token.old.table_id ≡ self.now.id) × (other.table_id ≡ self.now.id) }
        requires bare { (token.old.me.1 ≡ []) × (other.me.1 ≡ []) }
        requires some { (1 ≤ token.old.me.0.quota) × (1 ≤ other.me.0.quota) }
        ensures own { token.new.table_id ≡ token.old.table_id }
        ensures part { token.new.me ≡ (spec.part_after_look (spec.joined_part token.old.me.0 other.me.0), []) }
        ensures known { Known token.new.me.0 }
    {
        self.table.shared.join_seat::<Merged>(token, other);
        self.table.shared.load::<Looks>(token, 0);
    }
}
