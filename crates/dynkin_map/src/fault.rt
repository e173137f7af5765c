use words::Memory;

/// Why there are no coordinates.
#[derive(Debug, Clone, Copy, PartialEq, Eq, Drop)]
pub enum LieFault {
    /// The weight, whose k-th power times the k-th factor of the bound is greater than 2^127 - 1
    /// for some k up to the depth.
    Overflow(u128),
    /// Want of memory.
    Memory,
}

impl From<Memory> for LieFault {
    ghost use Rattle.std.specs.Prelude.{◌≡◌};
    ghost use Rattle.dynkin_map.specs.declared.fault.LieFault.TheVariants.{Memory as short};

    ghost from_gives = { λ _ f. f ≡ short };

    fn from(_memory: Memory) -> LieFault {
        LieFault::Memory
    }
}
