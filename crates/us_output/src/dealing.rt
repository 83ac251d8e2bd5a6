ghost use Rattle.std.specs.Prelude.{◌≡◌, ◌+◌, ◌^◌, ◌<◌, ◌≤◌, ℕ, List, [], ◌∷◌, ◌++◌, length, take, set, slice_index_or, OnOk};
ghost use Rattle.std.specs.List.{AllByRecursion};
ghost use Rattle.us_channel.specs.Maps.{max_pendings};
ghost use Rattle.us_output.specs.Leftovers.{AreDealt};

use crate::pendings::PendingSid;
use std::alloc::Global;
use std::marker::Model;
use us_slots::NoMemory;

/// The most pendings of a MAP (ours).
const MAX_PENDINGS: usize = 38;

/// The SIDs that the MAP of a channel lists: the first that are pending there.
#[derive(Drop)]
pub(crate) struct Listed {
    sids: Vec<u16>,
}

impl Model for Listed {
    ghost use Rattle.std.specs.Prelude.{ℕ, ◌^◌, ◌<◌, ◌≤◌, List, length};
    ghost use Rattle.std.specs.List.{AllByRecursion};
    ghost use Rattle.us_channel.specs.Maps.{max_pendings};

    ghost Value = { List ℕ };

    ghost view = { λ l. l.sids.items };

    ghost invariant = { λ l. (length l.sids.items ≤ max_pendings) × AllByRecursion (λ sid. sid < 2 ^ 14) l.sids.items };
}

impl Listed {
    /// None.
    fn new(alloc: Global) -> Listed
        ensures { result ≡ [] }
    {
        Listed {
            sids: Vec::new(alloc),
        }
    }

    /// Drops all.
    fn clear(&mut self)
        ensures { self.new ≡ [] }
    {
        self.sids.clear();
    }

    /// Adds a SID, if a MAP has room for one more.
    fn add(&mut self, sid: u16) -> Result<(), NoMemory>
        requires { sid < 2 ^ 14 }
        ensures { OnOk result (self.new ≡ take max_pendings (self.old ++ sid ∷ [])) }
    {
        if self.sids.len() < MAX_PENDINGS {
            self.sids.push(sid)?;
        }
        Ok(())
    }

    /// These SIDs.
    fn sids(&self) -> &[u16]
        ensures value { result.now ≡ self.now }
        ensures few { length self.now ≤ max_pendings }
        ensures bits { AllByRecursion (λ sid. sid < 2 ^ 14) self.now }
    {
        &self.sids
    }
}

/// The pendings of a round, dealt out to their channels: a list stands at the place of a channel's id. The lists are kept
/// from round to round.
#[derive(Drop)]
pub(crate) struct Dealt {
    alloc: Global,
    pub lists: Vec<Listed>,
}

impl Dealt {
    /// No lists, which take no memory yet.
    pub(crate) fn new(alloc: Global) -> Dealt {
        Dealt {
            alloc,
            lists: Vec::new(alloc),
        }
    }

    /// Deals pendings out in one walk. What stood in the lists is dropped.
    pub(crate) fn deal(&mut self, pendings: &[PendingSid]) -> Result<(), NoMemory>
        ensures { OnOk result (AreDealt pendings.now self.new.lists.items) }
    {
        let Dealt { alloc, lists } = self;
        clear(lists);
        for pending in pendings {
            deal_one(*alloc, lists, *pending)?;
        }
        Ok(())
    }

    /// The SIDs that are pending on the channel with this id, as its MAP lists them.
    pub(crate) fn on(&self, id: u8) -> &[u16]
        ensures value { result.now ≡ slice_index_or self.now.lists.items id [] }
        ensures few { length result.now ≤ max_pendings }
        ensures bits { AllByRecursion (λ sid. sid < 2 ^ 14) result.now }
    {
        match self.lists.get(usize::from(id)) {
            Some(list) => list.sids(),
            None => &[],
        }
    }
}

/// Clears all lists.
fn clear(lists: &mut [Listed])
    ensures dealt { AreDealt [] lists.new }
    ensures len { length lists.new ≡ length lists.old }
{
    for at in 0..lists.len() {
        lists[at].clear();
    }
}

/// Deals one pending more.
fn deal_one(alloc: Global, lists: &mut Vec<Listed>, pending: PendingSid) -> Result<(), NoMemory>
    ensures { OnOk result ((before : List (ℕ × ℕ)) → AreDealt before lists.old.items →
        AreDealt (before ++ pending ∷ []) lists.new.items) }
{
    let place = pending.place();
    make_room(alloc, lists, place + 1)?;
    add(lists, place, pending.sid())?;
    Ok(())
}

/// Makes room for so many lists.
fn make_room(alloc: Global, lists: &mut Vec<Listed>, count: usize) -> Result<(), NoMemory>
    ensures same { OnOk result ((pendings : List (ℕ × ℕ)) → AreDealt pendings lists.old.items →
        AreDealt pendings lists.new.items) }
    ensures long { OnOk result (count ≤ length lists.new.items) }
{
    for _list in lists.len()..count {
        lists.push(Listed::new(alloc))?;
    }
    Ok(())
}

/// Adds a SID to the list at a place.
fn add(lists: &mut [Listed], place: usize, sid: u16) -> Result<(), NoMemory>
    requires inside { place < length lists.old }
    requires bits { sid < 2 ^ 14 }
    ensures { OnOk result (lists.new ≡
        set lists.old place (take max_pendings (slice_index_or lists.old place [] ++ sid ∷ []))) }
{
    lists[place].add(sid)
}
