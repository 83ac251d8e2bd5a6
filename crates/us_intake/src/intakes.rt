ghost use Rattle.std.specs.Prelude.{◌≡◌, ℕ, ◌+◌, ◌^◌, ◌<◌, ◌≤◌, ◌⊎◌, ◌↔◌, true, length, sum, slice_index, IfOk, IfErr, OnOk, OnErr, Err, vec_len};
ghost use Rattle.us_intake.specs.Seats as spec;
ghost use Rattle.us_slots.specs.Lists.{added};
ghost use Rattle.us_intake.specs.declared.faults.IntakeFault.TheVariants as fault;

use crate::accounts::{Bytes, Kept, Part, Terms};
use crate::closing::{Closing, read_words};
use crate::faults::IntakeFault;
use crate::seats::Seat;
use crate::tallies::{add_up, join_taken};
use atomic_table::Table;
use std::alloc::Global;
use std::marker::{Brand, Model};

mod steps;

/// The most clusters of an intake (ours): as many as a configuration has words.
pub const MAX_CLUSTERS: u16 = 2_048;

/// The bytes that no quota reaches (ours), so that two numbers of bytes below it add up in a word.
const QUOTA_LIMIT: u64 = 1 << 62;

/// The words that threads add requests and marks to while rounds are cut, without a lock. An intake knows nothing of
/// flows: what it calls a cluster is one of its words, whatever is told by it.
#[derive(Drop)]
pub struct Intake {
    table: Table<(), Part, Terms, Kept, Global>,
    quota: u64,
}

impl Model for Intake {
    ghost use Rattle.us_intake.specs.Seats.{Intake};

    ghost Value = { Intake };

    ghost use Rattle.us_intake.specs.Insides.{intake_at, IsInsideIntake};

    ghost view = { λ i. intake_at i.table.shared.table_id i.quota };

    ghost invariant = { λ i. IsInsideIntake i.table.shared.table_id i.table.shared.key i.quota };
}

impl Intake {
    /// Opens an intake for 1 to 2,048 clusters, in which seats submit at most `quota` bytes in all, with a seat that
    /// has them all and takes. I2: the quota is 0, or 2^62 or more; I3: want of memory.
    pub fn open(alloc: Global, clusters: u16, quota: u64) -> Result<(Intake, Seat), IntakeFault>
        requires some { 1 ≤ clusters }
        requires most { clusters ≤ MAX_CLUSTERS }
        ensures quota { (result ≡ Err fault.BadQuota) ↔ ((quota ≡ 0) ⊎ (2 ^ 62 ≤ quota)) }
        ensures faults { IfErr result (λ given. (given ≡ fault.BadQuota) ⊎ (given ≡ fault.NoMemory)) }
        ensures intake { IfOk result (λ opened. (opened.0.clusters ≡ clusters) × (opened.0.quota ≡ quota)) }
        ensures seat { IfOk result (λ opened. opened.1 ≡ spec.first_seat opened.0) }
    {
        if quota == 0 || quota >= QUOTA_LIMIT {
            return Err(IntakeFault::BadQuota);
        }
        let clusters = usize::from(clusters);
        let taken = vec![in alloc; 0u64; clusters]?;
        let (table, token) = Table::of_words(alloc, &taken, &Terms { clusters, quota })?;
        let seat = Seat {
            token,
            quota,
            spent: 0,
            takes: true,
            taken,
        };
        Ok((Intake { table, quota }, seat))
    }

    /// The bytes that may be submitted in all.
    pub fn quota(&self) -> u64
        ensures value { result ≡ self.now.quota }
        ensures known { spec.IsIntake self.now }

        // The limit that conditions and docs name.
        ensures limit { MAX_CLUSTERS ≡ 2048 }
    {
        self.quota
    }

    /// Adds `bytes` to the word of a cluster by one `fetch_add`. I1, and nothing is changed: they are more than the
    /// seat's quota leaves. It needs no memory.
    pub fn submit(&self, seat: &mut Seat, cluster: u16, bytes: u32) -> Result<(), IntakeFault>
        requires own { seat.old.intake ≡ self.now }
        requires there { cluster < self.now.clusters }
        ensures ok { OnOk result (seat.new ≡ spec.seat_after_submit seat.old cluster bytes) }
        ensures spent { OnOk result (spec.spent seat.new ≡ spec.spent seat.old + bytes) }
        ensures refused { (result ≡ Err fault.QuotaSpent) ↔ (seat.old.quota < spec.spent seat.old + bytes) }
        ensures faults { IfErr result (λ given. given ≡ fault.QuotaSpent) }
        ensures same { OnErr result (seat.new ≡ seat.old) }
    {
        let bytes = u64::from(bytes);
        if bytes > seat.quota - seat.spent {
            return Err(IntakeFault::QuotaSpent);
        }
        self.add(&mut seat.token, usize::from(cluster), bytes);
        seat.spent += bytes;
        Ok(())
    }

    /// Takes what the words hold, one `swap` for each, in the order of the clusters. It needs no memory.
    pub fn cut(&self, seat: &mut Seat, cuts: &mut [u64])
        requires own { seat.old.intake ≡ self.now }
        requires row { length cuts.old ≡ self.now.clusters }
        requires takes { seat.old.takes ≡ true }
        ensures seat { seat.new ≡ spec.seat_after_cut seat.old cuts.new }
        ensures within { sum seat.new.taken ≤ self.now.quota }
        ensures least { (cluster : ℕ) → slice_index seat.new.submitted cluster ≤ slice_index seat.new.taken cluster }
        ensures whole { spec.IsWhole seat.old → seat.new.taken ≡ seat.new.submitted }
    {
        for at in 0..seat.taken.len() {
            cuts[at] = self.take(seat, at as u16);
        }
    }

    /// Takes what the word of a cluster holds, by one `swap`. It needs no memory.
    pub fn take(&self, seat: &mut Seat, cluster: u16) -> u64
        requires own { seat.old.intake ≡ self.now }
        requires there { cluster < self.now.clusters }
        requires takes { seat.old.takes ≡ true }
        ensures seat { seat.new ≡ spec.seat_after_take seat.old cluster result }
        ensures known { spec.IsSeat seat.new }
        ensures least { slice_index seat.new.submitted cluster ≤ slice_index seat.new.taken cluster }
        ensures whole { spec.IsWhole seat.old → slice_index seat.new.taken cluster ≡ slice_index seat.new.submitted cluster }
    {
        let at = usize::from(cluster);
        let found = self.swap(&mut seat.token, at);
        seat.taken[at] += found;
        found
    }

    /// Splits a seat that may submit `quota` bytes off another one. I2, with which the seat comes back as it was: there are
    /// no such bytes, they are all of the seat's, or more than it has left. It needs no memory.
    pub fn split(
        &self,
        alloc: Global,
        seat: Seat,
        quota: u64,
    ) -> Result<(Seat, Seat), (Seat, IntakeFault)>
        requires own { seat.intake ≡ self.now }
        ensures ok { IfOk result (λ both. (both.0 ≡ spec.seat_after_split seat quota)
            × (both.1 ≡ spec.new_seat seat.intake quota)) }
        ensures bad { (result ≡ Err (seat, fault.BadQuota)) ↔ spec.IsBadSplit seat quota }
        ensures same { IfErr result (λ given. given.0 ≡ seat) }
        ensures faults { IfErr result (λ given. given.1 ≡ fault.BadQuota) }
    {
        if quota == 0 || quota >= seat.quota || quota > seat.quota - seat.spent {
            return Err((seat, IntakeFault::BadQuota));
        }
        Ok(self.divide::<Brand>(alloc, seat, quota))
    }

    /// Splits a seat that has so many bytes left, and more.
    fn divide<B: Bytes>(&self, alloc: Global, mut seat: Seat, quota: u64) -> (Seat, Seat)
        requires own { seat.intake ≡ self.now }
        requires named { quota ≡ B.bytes }
        requires some { 1 ≤ quota }
        requires less { quota < seat.quota }
        requires within { spec.spent seat + quota ≤ seat.quota }
        ensures rest { result.0 ≡ spec.seat_after_split seat quota }
        ensures new { result.1 ≡ spec.new_seat seat.intake quota }
    {
        let token = self.split_off::<B>(&mut seat.token);
        seat.quota -= quota;
        let new = Seat {
            token,
            quota,
            spent: 0,
            takes: false,
            taken: Vec::new(alloc),
        };
        (seat, new)
    }

    /// Makes two seats one, with their quotas and lists added up. It needs no memory.
    pub fn join(&self, mut one: Seat, other: Seat) -> Seat
        requires own { (one.intake ≡ self.now) × (other.intake ≡ self.now) }
        ensures { result ≡ spec.joined_seat one other }
    {
        let Seat {
            token,
            quota,
            spent,
            takes,
            taken,
        } = other;
        self.merge(&mut one.token, token);
        one.quota += quota;
        one.spent += spent;
        one.takes |= takes;
        join_taken(&mut one.taken, takes, taken);
        one
    }

    /// Closes the intake by a seat that is whole. I3: want of memory, and both are given up.
    pub fn close(self, alloc: Global, seat: Seat) -> Result<Closing, IntakeFault>
        requires own { seat.intake ≡ self }
        requires whole { spec.IsWhole seat }
        ensures submitted { IfOk result (λ closing. closing.submitted.items ≡ seat.submitted) }
        ensures taken { IfOk result (λ closing. closing.taken.items ≡ seat.taken) }
        ensures row { IfOk result (λ closing. vec_len closing.left ≡ self.clusters) }
        ensures balanced { IfOk result (λ closing. closing.submitted.items ≡ added closing.taken.items closing.left.items) }
        ensures faults { IfErr result (λ given. given ≡ fault.NoMemory) }
    {
        let mut left = vec![in alloc; 0u64; seat.taken.len()]?;
        let mut submitted = vec![in alloc; 0u64; seat.taken.len()]?;
        let Seat {
            token,
            quota: _,
            spent: _,
            takes: _,
            taken,
        } = seat;
        let Intake { table, quota: _ } = self;
        let table = table.close_with(token);
        read_words(&mut left, &table);
        table.free();
        add_up(&mut submitted, &taken, &left);
        Ok(Closing {
            left,
            submitted,
            taken,
        })
    }
}
