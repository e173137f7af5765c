use std::alloc::AllocError;
use words::Memory;

/// Why a list of terms is no Lie element.
#[derive(Debug, Clone, Copy, PartialEq, Eq, Drop)]
pub enum TermsFault {
    /// The first place, from 0, whose number isn't a member's or isn't above the one before, or whose factor is 0 or -2^127.
    Place(u64),
}

/// Why there is no expansion.
#[derive(Debug, Clone, Copy, PartialEq, Eq, Drop)]
pub enum ExpandFault {
    /// The first degree k at which the sum of the absolute factors, times 2^(k - 1), is greater than 2^127 - 1.
    Level(u32),
    /// Want of memory.
    Memory,
}

impl From<Memory> for ExpandFault {
    ghost use Rattle.std.specs.Prelude.{◌≡◌};
    ghost use Rattle.lie_bracket.specs.declared.fault.ExpandFault.TheVariants.{Memory as short};

    ghost from_gives = { λ _ fault. fault ≡ short };

    fn from(_memory: Memory) -> ExpandFault {
        ExpandFault::Memory
    }
}

/// Why a table isn't made.
#[derive(Debug, Clone, Copy, PartialEq, Eq, Drop)]
pub enum TableFault {
    /// Want of memory.
    Memory,
    /// The first pair of members whose bracket has a majorant of a mass above 2^40.
    Pair(u32, u32),
    /// The first degree at which coordinates grow by a factor above 2^40.
    Level(u32),
}

impl From<AllocError> for TableFault {
    ghost use Rattle.std.specs.Prelude.{◌≡◌};
    ghost use Rattle.lie_bracket.specs.declared.fault.TableFault.TheVariants.{Memory as short};

    ghost from_gives = { λ _ fault. fault ≡ short };

    fn from(_error: AllocError) -> TableFault {
        TableFault::Memory
    }
}

impl From<Memory> for TableFault {
    ghost use Rattle.std.specs.Prelude.{◌≡◌};
    ghost use Rattle.lie_bracket.specs.declared.fault.TableFault.TheVariants.{Memory as short};

    ghost from_gives = { λ _ fault. fault ≡ short };

    fn from(_memory: Memory) -> TableFault {
        TableFault::Memory
    }
}

/// Why there is no bracket.
#[derive(Debug, Clone, Copy, PartialEq, Eq, Drop)]
pub enum BracketFault {
    /// The greatest absolute factors of the two, whose product, times 2^60, is greater than 2^127 - 1.
    Size(u128, u128),
    /// Want of memory.
    Memory,
}

impl From<Memory> for BracketFault {
    ghost use Rattle.std.specs.Prelude.{◌≡◌};
    ghost use Rattle.lie_bracket.specs.declared.fault.BracketFault.TheVariants.{Memory as short};

    ghost from_gives = { λ _ fault. fault ≡ short };

    fn from(_memory: Memory) -> BracketFault {
        BracketFault::Memory
    }
}
