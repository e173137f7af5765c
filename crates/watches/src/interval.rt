ghost use Rattle.std.specs.Prelude.{◌≡◌};
ghost use Rattle.definitions.specs.Rows.{lies_in};

/// The ticks from one to before another.
#[derive(Debug, Clone, Copy, PartialEq, Eq, Drop)]
pub struct Interval {
    pub from: u64,
    pub to: u64,
}

impl Interval {
    /// Whether it has the tick.
    pub fn holds(&self, tick: u64) -> bool
        ensures { result ≡ lies_in self.now.from self.now.to tick }
    {
        self.from <= tick && tick < self.to
    }
}
