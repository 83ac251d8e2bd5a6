ghost use Rattle.std.specs.Prelude.{◌≡◌, ℕ, true, []};
ghost use Rattle.us_intake.specs.Accounts as spec;
ghost use Rattle.us_intake.specs.Parts.{Known, Covers};

use atomic_table::{Join, Play, Split, TableRule};
use std::marker::{Brand, Model, PhantomData};

/// What an intake was opened for.
#[derive(Clone, Copy)]
pub(crate) struct Terms {
    pub(crate) clusters: usize,
    pub(crate) quota: u64,
}

impl Model for Terms {
    ghost Value = { spec.Terms };

    ghost view = { λ t. record { clusters = t.clusters; quota = t.quota } };

    ghost inverse = { λ t. record { clusters = t.clusters; quota = t.quota } };
}

/// What one seat has in the account, of which the table's proofs keep track. No value of it is made.
pub(crate) struct Part;

impl Model for Part {
    ghost Value = { spec.Part };

    ghost view = { λ _. spec.spent_part };
}

/// The rule of the words and seats: between any two steps they meet the account.
pub(crate) struct Kept;

impl<S> TableRule<S, Part, Terms> for Kept {
    ghost holds = { λ terms state. spec.Account terms state.words state.views };

    ghost first = { spec.first_part };
}

/// What a `fetch_add` tells: the bytes are in the seat's part.
pub(crate) struct Adds;

impl<S> Play<S, Part> for Adds {
    ghost then = { λ step before found after. after ≡ (spec.part_after_submit before.0 step.word step.first, []) };
}

/// What a `swap` tells: what was found is in the seat's part, and with what it took before, it is enough.
pub(crate) struct Takes;

impl<S> Play<S, Part> for Takes {
    ghost then = { λ step before found after. (after ≡ (spec.part_after_swap before.0 step.word found, []))
        × Known after.0 × Covers after.0 step.word };
}

/// What a load tells, which a seat may make once it was joined: what the account says of it.
pub(crate) struct Looks;

impl<S> Play<S, Part> for Looks {
    ghost then = { λ step before found after. (before.0.looks ≡ true) × (after ≡ (spec.part_after_look before.0, []))
        × Known after.0 };
}

/// The bytes of a split, which each call names.
pub(crate) trait Bytes {
    ghost bytes: { ℕ };
}

impl Bytes for Brand {
    ghost bytes = { 0 };
}

/// How a part is cut in two.
pub(crate) struct CutOff<B>(PhantomData<B>);

impl<B: Bytes> Split<Part> for CutOff<B> {
    ghost left = { λ part. spec.part_after_split part B.bytes };

    ghost right = { λ part. spec.new_part part B.bytes };
}

/// How two parts are made one.
pub(crate) struct Merged;

impl Join<Part> for Merged {
    ghost both = { spec.joined_part };

    ghost spent = { spec.spent_part };
}
