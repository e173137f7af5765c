ghost use Rattle.std.specs.Prelude.{◌≡◌, ◌≤◌, unsigned_abs};
ghost use Rattle.definitions.specs.Signature.{limit};
ghost use Rattle.lie_bracket.specs.Entries.{signed};

/// The sign of what a bracket subtracts: minus, or plus in the majorant.
#[derive(Clone, Copy, Drop)]
pub(crate) enum Sign {
    Minus,
    Plus,
}

impl Sign {
    /// The number with this sign before it.
    pub(crate) fn of(self, k: i128) -> i128
        requires { unsigned_abs k ≤ limit }
        ensures { result ≡ signed self k }
    {
        match self {
            Sign::Minus => -k,
            Sign::Plus => k,
        }
    }
}
