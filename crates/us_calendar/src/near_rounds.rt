ghost use Rattle.std.specs.Prelude.{◌≡◌, ◌+◌, ◌*◌, ◌%◌, ◌/◌, ◌<◌, ◌≤◌, ℕ, List, true, false, [], length, slice_index, IfNone, IfOk, IfSome};
ghost use Rattle.std.specs.Bool.{OnTrue};
ghost use Rattle.us_calendar.specs.Agendas as spec;

use std::alloc::Global;
use std::marker::Model;
use us_slots::NoMemory;

/// How many rounds are near: the one that is run next, and those behind it.
pub(crate) const NEAR_ROUNDS: u32 = 64;

/// How many words stand together, one for each near round.
const ROUNDS: usize = NEAR_ROUNDS as usize;

/// How many places a word has a bit for.
const BITS: usize = 64;

/// For which of the near rounds the entry at each place is noted. Of each 64 places there is a word for each round.
pub(crate) struct NearRounds {
    words: Vec<u64>,
}

impl Model for NearRounds {
    ghost Value = { List ℕ };

    ghost view = { λ n. n.words.items };

    ghost invariant = { λ n. length n.words.items % 64 ≡ 0 };
}

/// Gives the words up. It is written out so that it is one step wherever the rounds end.
impl Drop for NearRounds {
    fn drop(self) {
        let NearRounds { words: _ } = self;
    }
}

impl NearRounds {
    /// Rounds for which none of these many entries is noted.
    pub(crate) fn new(alloc: Global, entries: usize) -> Result<NearRounds, NoMemory>
        requires few { entries ≤ 1280 }
        ensures room { IfOk result (λ near. entries ≤ length near) }
        ensures none { IfOk result (λ near. (round : ℕ) → spec.IsNone (spec.is_near near round)) }
    {
        let mut words = Vec::new(alloc);
        words.resize(entries.div_ceil(BITS) * ROUNDS, 0)?;
        Ok(NearRounds { words })
    }

    /// Notes the entry at a place for a round.
    pub(crate) fn note(&mut self, round: u32, place: usize)
        requires { place < length self.old }
        ensures { spec.IsBitChanged self.old round place true self.new }
    {
        self.words[word_of(round, place)] |= 1 << (place % BITS);
    }

    /// Takes the first place that is noted for a round, where none before `from` is.
    pub(crate) fn take_from(&mut self, round: u32, from: usize) -> Option<usize>
        requires { spec.NoneBefore (spec.is_near self.old round) from }
        ensures first { IfSome result (spec.IsFirst (spec.is_near self.old round)) }
        ensures taken { IfSome result (λ place. spec.IsBitChanged self.old round place false self.new) }
        ensures none { IfNone result (spec.IsNone (spec.is_near self.old round)) }
        ensures unchanged { IfNone result (self.new ≡ self.old) }
    {
        let word = first_word(&self.words, word_of(round, from));
        if word >= self.words.len() {
            return None;
        }
        let bits = self.words[word];
        let bit = lowest(bits);
        self.words[word] = bits & !(1 << bit);
        Some(word / ROUNDS * BITS + bit)
    }

    /// Whether nothing is noted for a round.
    pub(crate) fn is_idle(&self, round: u32) -> bool
        ensures { OnTrue result (spec.IsNone (spec.is_near self.now round)) }
    {
        first_word(&self.words, word_of(round, 0)) >= self.words.len()
    }

    /// Nothing is noted any more.
    pub(crate) fn clear(&mut self)
        ensures { self.new ≡ [] }
    {
        self.words.clear();
    }
}

/// The lowest bit that is set.
fn lowest(bits: u64) -> usize
    requires { 0 < bits }
    ensures { spec.IsLowest bits result }
{
    bits.trailing_zeros() as usize
}

/// The index of the word that has the bit of a place in a round.
fn word_of(round: u32, place: usize) -> usize
    ensures { result ≡ place / 64 * spec.near_rounds + round % spec.near_rounds }
{
    place / BITS * ROUNDS + (round % NEAR_ROUNDS) as usize
}

/// The first word of the same round from this one on in which a bit is set, or one that isn't there.
fn first_word(words: &[u64], from: usize) -> usize
    ensures { spec.IsFirstWord words.now from result }
{
    let mut word = from;
    while word < words.len() {
        if words[word] != 0 {
            break;
        }
        word += ROUNDS;
    }
    word
}
