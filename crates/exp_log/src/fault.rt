use words::Memory;

/// Why there is no logarithm.
#[derive(Debug, Clone, Copy, PartialEq, Eq, Drop)]
pub enum LogFault {
    /// The weight, whose k-th power times the bound of a logarithm at k letters is greater than
    /// 2^127 - 1 for some k up to the depth.
    Overflow(u128),
    /// Want of memory.
    Memory,
}

impl From<Memory> for LogFault {
    ghost use Rattle.std.specs.Prelude.{◌≡◌};
    ghost use Rattle.exp_log.specs.declared.fault.LogFault.TheVariants.{Memory as short};

    ghost from_gives = { λ _ f. f ≡ short };

    fn from(_memory: Memory) -> LogFault {
        LogFault::Memory
    }
}
