ghost use Rattle.std.specs.Prelude.{◌≡◌, ◌+◌};

use http_server::Log;
use std::marker::{Model, PhantomData};

/// What units are counted for.
pub trait Ledger: Drop + Send {}

/// The ledger of a program whose count nobody reads.
#[derive(Drop)]
pub struct Free;

impl Ledger for Free {}

/// How many units were taken. It takes no bytes, and only `tick` changes it.
#[derive(Drop)]
pub struct Steps<L: Ledger> {
    ticks: Log<(), ()>,
    ledger: PhantomData<L>,
}

impl<L: Ledger> Model for Steps<L> {
    ghost use Rattle.std.specs.Prelude.{ℕ, length};

    ghost Value = { ℕ };

    ghost view = { λ s. length s.ticks.items };
}

impl<L: Ledger> Steps<L> {
    /// A count of 0, for this ledger.
    pub fn new(_ledger: L) -> Steps<L>
        ensures { result ≡ 0 }
    {
        Steps {
            ticks: Log::new(),
            ledger: PhantomData,
        }
    }

    /// One unit more.
    pub fn tick(&mut self)
        ensures { self.new ≡ self.old + 1 }
    {
        self.ticks = self.ticks.and(&(), &());
    }
}
