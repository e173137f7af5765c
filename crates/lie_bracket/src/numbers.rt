//! Sums, differences and products in the range of a coefficient.
ghost use Rattle.std.specs.Prelude.{◌≡◌, ◌≤◌, ◌+ℤ◌, ◌-ℤ◌, ◌*ℤ◌, unsigned_abs};
ghost use Rattle.definitions.specs.Signature.{limit};

/// The product, where it is within the range of a coefficient.
pub(crate) fn product_of(a: i128, b: i128) -> i128
    requires { unsigned_abs (a *ℤ b) ≤ limit }
    ensures { result ≡ a *ℤ b }
{
    a * b
}

/// The sum, where it is within that range.
pub(crate) fn sum_of(a: i128, b: i128) -> i128
    requires { unsigned_abs (a +ℤ b) ≤ limit }
    ensures { result ≡ a +ℤ b }
{
    a + b
}

/// The difference, where it is within that range.
pub(crate) fn difference_of(a: i128, b: i128) -> i128
    requires { unsigned_abs (a -ℤ b) ≤ limit }
    ensures { result ≡ a -ℤ b }
{
    a - b
}
