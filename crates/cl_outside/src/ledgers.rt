//! The ledger that counts steps.
ghost use Rattle.std.specs.Prelude.{◌≡◌, ℕ, ◌+◌, ◌-◌, ◌^◌, min};

use crate::tallies::Tally;
use std::marker::Model;

/// What counts steps.
pub trait Ledger {
    // how many were counted
    ghost count: { Self → ℕ };

    /// Counts one more.
    fn add_one(&mut self)
        ensures { count self.new ≡ count self.old + 1 };
}

/// The steps that were made, counted in a ledger. A clause sees the ledger's count.
#[derive(Drop)]
pub struct Steps<L: Ledger> {
    ledger: L,
}

impl<L: Ledger> Model for Steps<L> {
    ghost Value = { ℕ };

    ghost view = { λ s. L.count s.ledger };
}

impl<L: Ledger> Steps<L> {
    /// Counts on in this ledger.
    pub fn new(ledger: L) -> Steps<L>
        ensures { result ≡ L.count ledger }
    {
        Steps { ledger }
    }

    /// One step more.
    pub fn tick(&mut self)
        ensures { self.new ≡ self.old + 1 }
    {
        self.ledger.add_one();
    }

    /// The ledger, to be looked at.
    pub fn ledger(&self) -> &L
        ensures { L.count result.now ≡ self.now }
    {
        &self.ledger
    }
}

/// A ledger of this crate. A clause sees its count, which has no bound; `seen` can be looked at.
#[derive(Drop)]
pub struct OwnLedger {
    tally: Tally,
    seen: u64,
}

impl Model for OwnLedger {
    ghost use Rattle.std.specs.Prelude.{◌≡◌, ℕ, ◌-◌, ◌^◌, min};

    ghost Value = { ℕ };

    ghost view = { λ l. l.tally.count };

    ghost invariant = { λ l. l.seen ≡ min l.tally.count (2 ^ 64 - 1) };
}

impl OwnLedger {
    /// The count, which is given as 2^64 - 1 where it is greater.
    pub fn seen(&self) -> u64
        ensures { result ≡ min self.now (2 ^ 64 - 1) }
    {
        self.seen
    }
}

impl Ledger for OwnLedger {
    ghost count = { λ l. l };

    fn add_one(&mut self) {
        self.tally.up();
        self.seen = self.seen.saturating_add(1);
    }
}

/// A counter of its own, at 0.
pub fn own_steps() -> Steps<OwnLedger>
    ensures { result ≡ 0 }
{
    Steps::new(OwnLedger {
        tally: Tally::new(),
        seen: 0,
    })
}
