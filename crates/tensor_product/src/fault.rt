use crate::sig::Overflow;
use words::Memory;

/// Why there is no product or exponential.
#[derive(Debug, Clone, Copy, PartialEq, Eq, Drop)]
pub enum ProductFault {
    /// The weight, whose power at the depth is greater than 2^127 - 1.
    Overflow(u128),
    /// Want of memory.
    Memory,
}

impl From<Overflow> for ProductFault {
    ghost use Rattle.std.specs.Prelude.{◌≡◌};
    ghost use Rattle.tensor_product.specs.declared.fault.ProductFault.TheVariants.{Overflow as past};

    ghost from_gives = { λ e f. f ≡ past e.0 };

    fn from(overflow: Overflow) -> ProductFault {
        ProductFault::Overflow(overflow.0)
    }
}

impl From<Memory> for ProductFault {
    ghost use Rattle.std.specs.Prelude.{◌≡◌};
    ghost use Rattle.tensor_product.specs.declared.fault.ProductFault.TheVariants.{Memory as short};

    ghost from_gives = { λ _ f. f ≡ short };

    fn from(_memory: Memory) -> ProductFault {
        ProductFault::Memory
    }
}
