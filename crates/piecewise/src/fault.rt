use lie_bracket::ExpandFault;
use words::Memory;

/// Why coordinates with a weight are not those of the logarithm of a signature, or don't fit. The
/// tests are made in this order, the last two level by level.
#[derive(Debug, Clone, Copy, PartialEq, Eq, Drop)]
pub enum UnfoldFault {
    /// The weight, whose k-th power times twice the bound of a logarithm at k letters is greater
    /// than 2^127 - 1 for some k up to the depth.
    Overflow(u128),
    /// The first degree whose members can't be expanded, as `ExpandFault::Level` says.
    Expand(u32),
    /// The first k where a coefficient of the expansion at k letters is no multiple of k.
    Split(u32),
    /// The first k where a coefficient of the logarithm at k letters is greater than the k-th power
    /// of the weight times the bound of a logarithm.
    Log(u32),
    /// The first level that leaves a remainder: what the levels below leave of the logarithm at
    /// some word of k letters is no multiple of the least common multiple of 1 .. k.
    Whole(u32),
    /// The first level with a coefficient greater than the k-th power of the weight.
    Size(u32),
    /// Want of memory.
    Memory,
}

impl From<Memory> for UnfoldFault {
    ghost use Rattle.std.specs.Prelude.{◌≡◌};
    ghost use Rattle.piecewise.specs.declared.fault.UnfoldFault.TheVariants.{Memory as short};

    ghost from_gives = { λ _ f. f ≡ short };

    fn from(_memory: Memory) -> UnfoldFault {
        UnfoldFault::Memory
    }
}

impl From<ExpandFault> for UnfoldFault {
    ghost use Rattle.piecewise.specs.Expansions.{IsTaken};

    ghost from_gives = { IsTaken };

    fn from(fault: ExpandFault) -> UnfoldFault {
        match fault {
            ExpandFault::Level(k) => UnfoldFault::Expand(k),
            ExpandFault::Memory => UnfoldFault::Memory,
        }
    }
}

/// Why there is no signature of a whole.
#[derive(Debug, Clone, Copy, PartialEq, Eq, Drop)]
pub enum WholeFault {
    /// The place, from 0, of the first part that can't be unfolded, and why; want of memory is not
    /// named so.
    Part(u64, UnfoldFault),
    /// The sum of the weights, whose power at the depth is greater than 2^127 - 1.
    Overflow(u128),
    /// Want of memory.
    Memory,
}

impl From<Memory> for WholeFault {
    ghost use Rattle.std.specs.Prelude.{◌≡◌};
    ghost use Rattle.piecewise.specs.declared.fault.WholeFault.TheVariants.{Memory as short};

    ghost from_gives = { λ _ f. f ≡ short };

    fn from(_memory: Memory) -> WholeFault {
        WholeFault::Memory
    }
}
