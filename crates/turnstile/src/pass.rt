ghost use Rattle.std.specs.Prelude.{◌≡◌, false};
ghost use Rattle.turnstile.specs.Steps.{slots_out};

use crate::kept::Kept;
use crate::view::SeatView;
use atomic_table::Seat;

/// What one thread knows of the history, and its right to take the turn.
#[derive(Drop)]
pub struct Pass<K: Kept> {
    pub(crate) label: u32,
    pub(crate) splits: u32,
    pub(crate) seat: Seat<Option<K>, SeatView<K::Entry>>,
    pub ghost counted: { (label ≡ seat.me.0.pass.label) × (splits ≡ seat.me.0.pass.splits) },
    pub ghost live: { seat.me.0.spent ≡ false },
    pub ghost slots: { seat.me.1 ≡ slots_out seat.me.0.pass.turn },
}

impl<K: Kept> Pass<K> {
    ghost use Rattle.turnstile.specs.Passes.{view};

    /// The label of the entries that the pass adds.
    pub fn label(&self) -> u32
        ensures { result ≡ (view self.now).label }
    {
        self.label
    }
}
