//! The front of a G line, `G,round,channel,`. Lines of one round and channel stand together and begin alike, so that most
//! fronts are known by a comparison, and their numbers aren't read again.

ghost use Rattle.std.specs.Prelude.{◌≡◌, ◌++◌, ◌+◌, ◌-◌, ◌<◌, ◌≤◌, List, ℕ, drop, length, take, IfSome};
ghost use Rattle.std.specs.Int.{w64, to_le_bytes};
ghost use Rattle.us_reports.specs.Fronts.{Covers};

/// Bytes of a number of 64 bits.
const WORD: usize = 8;

/// The most bytes of a front that is remembered: two numbers have them.
const MOST: usize = 16;

/// A front of 8 to 16 bytes, by two numbers that cover it.
#[derive(Clone, Copy)]
pub(crate) struct Front {
    /// Its first 8 bytes.
    first: u64,
    /// Its last 8 bytes.
    last: u64,
    /// Where these begin in it.
    last_at: usize,
}

impl Front {
    /// The front that stands between two places, where it is one that can be remembered.
    pub(crate) fn between(bytes: &[u8], from: usize, to: usize) -> Option<Front>
        requires { (from ≤ to) × (to ≤ length bytes.now) }
        ensures { IfSome result (λ front. Covers front (take (to - from) (drop from bytes.now))) }
    {
        let len = to - from;
        if len < WORD || len > MOST {
            return None;
        }
        let last_at = len - WORD;
        Some(Front {
            first: word(bytes, from),
            last: word(bytes, from + last_at),
            last_at,
        })
    }

    /// The place behind this front, if it stands at a place of a text that has more than 16 bytes from there up to `end`: so one
    /// test of the length is enough.
    #[inline(always)]
    pub(crate) fn behind(&self, bytes: &[u8], end: usize, from: usize) -> Option<usize>
        requires within { (from ≤ end) × (end ≤ length bytes.now) }
        requires near { self.now.last_at ≤ 8 }
        ensures { IfSome result (λ at. (at < end) × ((text : List ℕ) → Covers self.now text →
            drop from bytes.now ≡ text ++ drop at bytes.now)) }
    {
        if end - from <= MOST || word(bytes, from) != self.first {
            return None;
        }
        let last_at = from + self.last_at;
        if word(bytes, last_at) != self.last {
            return None;
        }
        Some(last_at + WORD)
    }
}

/// The 8 bytes at a place, as one number.
#[inline(always)]
fn word(bytes: &[u8], at: usize) -> u64
    requires { at + 8 ≤ length bytes.now }
    ensures { to_le_bytes w64 result ≡ take 8 (drop at bytes.now) }
{
    u64::from_le_bytes([
        bytes[at],
        bytes[at + 1],
        bytes[at + 2],
        bytes[at + 3],
        bytes[at + 4],
        bytes[at + 5],
        bytes[at + 6],
        bytes[at + 7],
    ])
}
