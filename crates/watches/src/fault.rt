use words::Memory;

/// Why an edit makes no version. The number is the current version.
#[derive(Debug, Clone, Copy, PartialEq, Eq, Drop)]
pub enum FeedFault {
    /// It appends a name that a row has.
    NameTaken(u64),
    /// It corrects or removes a name that no row has.
    NoRow(u64),
    /// Want of memory.
    Memory,
}

impl From<Memory> for FeedFault {
    ghost use Rattle.std.specs.Prelude.{◌≡◌};
    ghost use Rattle.watches.specs.declared.fault.FeedFault.TheVariants.{Memory as short};

    ghost from_gives = { λ _ fault. fault ≡ short };

    fn from(_memory: Memory) -> FeedFault {
        FeedFault::Memory
    }
}
