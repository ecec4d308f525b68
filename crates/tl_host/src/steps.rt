ghost use Rattle.std.specs.Prelude.{◌≡◌, ℕ};
ghost use Rattle.tl_model.specs.Causes.{one_more};

use std::marker::Model;

/// A count of steps that each tick raises by one; at the greatest `u64` it stands still. It takes no memory.
pub trait Ledger {
    /// The count.
    ghost count: { Self → ℕ };

    /// One step more.
    fn tick(&mut self)
        ensures { count self.new ≡ one_more (count self.old) };
}

/// A ledger that counts, from 0.
#[derive(Debug, Drop)]
pub struct Tally {
    ticks: u64,
}

impl Model for Tally {
    ghost Value = { ℕ };

    ghost view = { λ t. t.ticks };
}

impl Tally {
    /// No step yet.
    pub fn new() -> Tally
        ensures { result ≡ 0 }
    {
        Tally { ticks: 0 }
    }

    /// The number of steps so far.
    pub fn count(&self) -> u64
        ensures { result ≡ self.now }
    {
        self.ticks
    }
}

impl Ledger for Tally {
    ghost count = { λ t. t };

    fn tick(&mut self) {
        self.ticks = self.ticks.saturating_add(1);
    }
}

/// The steps that calls have taken, kept in a ledger of the caller's: contracts see it as that ledger. A call takes at
/// most n steps where the count after it is at most the count before it and n.
#[derive(Drop)]
pub struct Steps<L: Ledger> {
    kept_in: L,
}

impl<L: Ledger> Model for Steps<L> {
    ghost Value = { L };

    ghost view = { λ s. s.kept_in };
}

impl<L: Ledger> Steps<L> {
    /// Steps that are kept in this ledger.
    pub fn new(ledger: L) -> Steps<L>
        ensures { result ≡ ledger }
    {
        Steps { kept_in: ledger }
    }

    /// One step more.
    pub fn tick(&mut self)
        ensures { L.count self.new ≡ one_more (L.count self.old) }
    {
        self.kept_in.tick();
    }

    /// The ledger.
    pub fn ledger(&self) -> &L
        ensures { result.now ≡ self.now }
    {
        &self.kept_in
    }
}
