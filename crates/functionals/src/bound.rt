//! A bound on the weights at which a functional has its value in range.
ghost use Rattle.std.specs.Prelude.{◌≡◌, ◌≤◌};
ghost use Rattle.functionals.specs.Bounds.{IsSmall, eval_factor, eval_factors};

use crate::functional::Functional;
use crate::value::part_of;
use words::Bound;

/// The factor of the words of k letters.
fn factor_at(f: &Functional, k: u32) -> u128
    requires within { k ≤ f.now.extent.depth }
    requires small { IsSmall f.now.terms }
    ensures value { result ≡ eval_factor f.now.extent.depth f.now.terms k }
    ensures some { 1 ≤ result }
{
    let depth = f.shape().depth();
    let most = part_of(depth, k) as u128 * f.mass(k);
    ((depth as u128 + 1) * most).max(1)
}

/// The factors, one for each number of letters from 1.
fn factors_of(f: &Functional) -> Bound
    requires { IsSmall f.now.terms }
    ensures { result ≡ eval_factors f.now.extent f.now.terms }
{
    let depth = f.shape().depth() as usize;
    let mut factors = [1u128; 8];
    for k in 0..depth {
        factors[k] = factor_at(f, k as u32 + 1);
    }
    Bound::of(&factors[..depth])
}

impl Functional {
    /// The bound of the weights at which `value_within` evaluates. Takes no memory.
    pub fn bound(&self) -> Bound
        requires { IsSmall self.now.terms }
        ensures { result ≡ eval_factors self.now.extent self.now.terms }
    {
        factors_of(self)
    }
}
