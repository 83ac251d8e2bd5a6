ghost use Rattle.std.specs.Prelude.{◌≡◌, ◌≢◌, ◌<◌, ◌^◌};
ghost use Rattle.us_holes.specs.Boards as spec;

use std::marker::Model;
use us_slots::Iuc;

/// To whom minislots are assigned, and what for: a SID of 14 bits, and another IUC than the Null's.
#[derive(Clone, Copy)]
pub struct Owner {
    sid: u16,
    iuc: Iuc,
}

impl Model for Owner {
    ghost Value = { spec.Owner };

    ghost view = { λ o. record { sid = o.sid; iuc = o.iuc } };

    ghost invariant = { λ o. spec.IsOwner (record { sid = o.sid; iuc = o.iuc }) };

    ghost inverse = { λ o. record { sid = o.sid; iuc = o.iuc } };
}

impl Owner {
    /// The owner of a SID, of 14 bits, and of another IUC than the Null's.
    pub fn new(sid: u16, iuc: Iuc) -> Owner
        requires sid { sid < 2 ^ 14 }
        requires iuc { iuc ≢ 7 }
        ensures { result ≡ (record { sid = sid; iuc = iuc }) }
    {
        Owner { sid, iuc }
    }

    /// The SID.
    pub fn sid(self) -> u16
        ensures value { result ≡ self.sid }
        ensures known { spec.IsOwner self }
    {
        self.sid
    }

    /// The IUC.
    pub fn iuc(self) -> Iuc
        ensures value { result ≡ self.iuc }
        ensures known { spec.IsOwner self }
    {
        self.iuc
    }
}
