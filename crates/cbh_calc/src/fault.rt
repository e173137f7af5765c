use words::Memory;

/// Why a product of exponentials has no logarithm in coordinates.
#[derive(Debug, Clone, Copy, PartialEq, Eq, Drop)]
pub enum CbhFault {
    /// The weight of the moves, whose k-th power times the k-th factor of the table's bound is greater than 2^127 - 1 for some k up
    /// to the depth.
    Overflow(u128),
    /// Want of memory.
    Memory,
}

impl From<Memory> for CbhFault {
    ghost use Rattle.std.specs.Prelude.{◌≡◌};
    ghost use Rattle.cbh_calc.specs.declared.fault.CbhFault.TheVariants.{Memory as short};

    ghost from_gives = { λ _ fault. fault ≡ short };

    fn from(_memory: Memory) -> CbhFault {
        CbhFault::Memory
    }
}
