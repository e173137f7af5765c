use tensor_product::Overflow;

/// Why plans are refused; the tests are made in this order.
#[derive(Debug, Clone, Copy, PartialEq, Eq, Drop)]
pub enum WorkFault {
    /// A plan isn't valid: the first one, from 0.
    Plan(u64),
    /// The power of the weight at the depth is greater than 2^127 - 1: this weight.
    Overflow(u128),
}

impl From<Overflow> for WorkFault {
    ghost use Rattle.std.specs.Prelude.{◌≡◌};
    ghost use Rattle.solve.specs.declared.fault.WorkFault.TheVariants.{Overflow as Refused};

    ghost from_gives = { λ overflow fault. fault ≡ Refused overflow.0 };

    fn from(overflow: Overflow) -> WorkFault {
        WorkFault::Overflow(overflow.0)
    }
}
