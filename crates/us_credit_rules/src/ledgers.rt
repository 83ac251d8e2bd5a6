ghost use Rattle.std.specs.Prelude.{◌≡◌, ◌+◌, ◌-◌, ◌<◌, ◌≤◌, ◌==◌, ◌^◌, ℕ, List, find, length, replicate, slice_index, if◌then◌else◌, IfOk, IfSome};
ghost use Rattle.std.specs.Option.{option_copied};
ghost use Rattle.us_flows.specs.Clusters.{Turn};
ghost use Rattle.us_requests.specs.Cuts.{asked};
ghost use Rattle.us_credit_rules.specs.Ledgers as spec;
ghost use Rattle.us_credit_rules.specs.Ledgers.{AreAsked};
ghost use Rattle.us_credit_rules.specs.Seats.{AreNamed, names};

use crate::seats::Seat;
use std::alloc::{AllocError, Global};
use us_requests::{Ask, Trace};
use us_round::Grant;

/// What is credited to a cluster.
#[derive(Clone, Copy)]
pub(crate) struct Account {
    /// The bytes, or all that 64 bits tell.
    credited: u64,
    /// The round of the first credit of more than was outstanding.
    short: Option<u32>,
}

impl Account {
    /// That of a cluster that is credited nothing.
    fn new() -> Account
        ensures { result ≡ spec.nothing }
    {
        Account {
            credited: 0,
            short: None,
        }
    }

    /// A credit more, where so much was asked for.
    fn credit(&mut self, asked: u64, round: u32, bytes: u64)
        ensures { spec.TakesCredit asked round bytes self.old self.new }
    {
        if self.left_of(asked) < bytes && self.short.is_none() {
            self.short = Some(round);
        }
        self.credited = self.credited.saturating_add(bytes);
    }

    /// What is left of so many bytes.
    pub(crate) fn left_of(&self, asked: u64) -> u64
        ensures { result ≡ asked - self.now.credited }
    {
        asked.saturating_sub(self.credited)
    }

    /// The round of the first credit of more than was outstanding.
    pub(crate) fn short(&self) -> Option<u32>
        ensures { result ≡ self.now.short }
    {
        self.short
    }
}

/// What words ask for and clusters are credited, told one line of a request after another in the order of rounds.
#[derive(Drop)]
pub(crate) struct Ledger {
    /// How many rounds are begun.
    pub(crate) begun: u32,
    /// By the numbers of words, the bytes that are asked for in these rounds,
    pub(crate) asked: Vec<u64>,
    /// and what is credited to clusters.
    pub(crate) accounts: Vec<Account>,
}

impl Ledger {
    /// That of so many words, before all rounds.
    pub(crate) fn new(alloc: Global, words: usize) -> Result<Ledger, AllocError>
        ensures begun { IfOk result (λ ledger. ledger.begun ≡ 0) }
        ensures asked { IfOk result (λ ledger. ledger.asked.items ≡ replicate words 0) }
        ensures accounts { IfOk result (λ ledger. ledger.accounts.items ≡ replicate words spec.nothing) }
    {
        let asked = vec![in alloc; 0; words]?;
        let accounts = vec![in alloc; Account::new(); words]?;
        Ok(Ledger {
            begun: 0,
            asked,
            accounts,
        })
    }

    /// A line more, which is of no earlier round than the lines before. It credits this cluster.
    #[inline(always)]
    pub(crate) fn take(&mut self, trace: &Trace, seat: Option<&Seat>, grant: &Grant)
        requires ordered { self.old.begun ≤ grant.now.round + 1 }
        requires asked { AreAsked trace.now self.old.begun self.old.asked.items }
        requires known { IfSome seat (λ seat. (seat.now.number < length self.old.asked.items)
            × (seat.now.number < length self.old.accounts.items)) }
        ensures { (turns : List Turn) → AreNamed (length self.old.accounts.items) turns →
            option_copied seat.entry ≡ find (names grant.now.id grant.now.i) turns →
            spec.TakesLine trace.now turns grant.now self.old self.new }
    {
        if grant.round >= u64::from(trace.rounds()) {
            return;
        }
        let round = grant.round as u32;
        self.begin(trace, round + 1);
        if let Some(seat) = seat {
            let asked = bytes_at(&self.asked, seat.word());
            credit(&mut self.accounts, seat.word(), asked, round, grant.credit);
        }
    }

    /// Rounds begin, up to so many.
    fn begin(&mut self, trace: &Trace, rounds: u32)
        requires later { self.old.begun ≤ rounds }
        requires inside { rounds ≤ trace.now.rounds }
        requires asked { AreAsked trace.now self.old.begun self.old.asked.items }
        ensures begun { self.new.begun ≡ rounds }
        ensures accounts { self.new.accounts ≡ self.old.accounts }
        ensures words { length self.new.asked.items ≡ length self.old.asked.items }
        ensures asked { AreAsked trace.now rounds self.new.asked.items }
    {
        ask_rounds(&mut self.asked, trace, self.begun, rounds);
        self.begun = rounds;
    }
}

/// The bytes of a word; none where there is no such word.
pub(crate) fn bytes_at(sums: &[u64], word: u16) -> u64
    ensures { result ≡ slice_index sums.now word }
{
    let word = usize::from(word);
    if word < sums.len() {
        return sums[word];
    }
    0
}

/// The account of a word; that of nothing where there is no such word.
pub(crate) fn account_at(accounts: &[Account], word: u16) -> Account
    ensures { result ≡ spec.account_at accounts.now word }
{
    let word = usize::from(word);
    if word < accounts.len() {
        return accounts[word];
    }
    Account::new()
}

/// A credit of a cluster, in a round, where so much was asked for.
fn credit(accounts: &mut [Account], word: u16, asked: u64, round: u32, bytes: u64)
    requires { word < length accounts.old }
    ensures own { spec.TakesCredit asked round bytes
        (spec.account_at accounts.old word) (spec.account_at accounts.new word) }
    ensures others { (other : ℕ) → (other ≡ word → ⊥) →
        spec.account_at accounts.new other ≡ spec.account_at accounts.old other }
{
    let word = usize::from(word);
    accounts[word].credit(asked, round, bytes);
}

/// What is asked for in rounds, from one up to another.
pub(crate) fn ask_rounds(sums: &mut [u64], trace: &Trace, from: u32, to: u32)
    requires later { from ≤ to }
    requires inside { to ≤ trace.now.rounds }
    requires asked { AreAsked trace.now from sums.old }
    ensures { AreAsked trace.now to sums.new }
{
    for round in from..to {
        ask_all(sums, trace.asks(round));
    }
}

/// What is asked for in a round.
fn ask_all(sums: &mut [u64], asks: &[Ask])
    requires { (word : ℕ) → word < length sums.old → slice_index sums.old word + asked asks.now word < 2 ^ 64 }
    ensures { (word : ℕ) → word < length sums.old →
        slice_index sums.new word ≡ slice_index sums.old word + asked asks.now word }
{
    for ask in asks {
        put_ask(sums, *ask);
    }
}

/// One ask.
fn put_ask(sums: &mut [u64], ask: Ask)
    requires { ask.cluster < length sums.old → slice_index sums.old ask.cluster + ask.bytes < 2 ^ 64 }
    ensures { (word : ℕ) → word < length sums.old →
        slice_index sums.new word ≡ slice_index sums.old word + (if ask.cluster == word then ask.bytes else 0) }
{
    let word = usize::from(ask.cluster);
    if word < sums.len() {
        sums[word] += u64::from(ask.bytes);
    }
}
