ghost use Rattle.std.specs.Prelude.{◌≡◌, ◌^◌, ◌<◌, ◌≤◌, ◌↔◌, ◌*◌, length, replicate, All, IsTrue, SomeIff};
ghost use Rattle.definitions.specs.Signature.{Fits, limit};

use crate::shape::Shape;
use std::marker::Model;

/// At most eight factors: a weight fits where its k-th power times the k-th factor is at most 2^127 - 1, for each k.
#[derive(Drop)]
pub struct Bound {
    factors: [u128; 8],
    count: usize,
}

impl Model for Bound {
    ghost use Rattle.std.specs.Prelude.{ℕ, List, take};
    ghost use Rattle.words.specs.Bounds.{IsBound};

    ghost Value = { List ℕ };

    ghost view = { λ b. take b.count b.factors };

    ghost invariant = { λ b. IsBound b.count b.factors };
}

/// The greatest absolute value of a coefficient: 2^127 - 1.
const LIMIT: u128 = i128::MAX as u128;

/// The next power of the weight, where that times the factor is at most the limit.
fn next_power(power: u128, weight: u128, factor: u128) -> Option<u128>
    requires { 1 ≤ factor }
    ensures { SomeIff result (power * weight * factor ≤ limit) (power * weight) }
{
    let next = power.checked_mul(weight)?;
    let product = next.checked_mul(factor)?;
    if product <= LIMIT { Some(next) } else { None }
}

/// Whether a weight fits all factors.
fn fits_all(factors: &[u128], weight: u128) -> bool
    requires { All (λ f. 1 ≤ f) factors.now }
    ensures { IsTrue result ↔ Fits factors.now weight }
{
    let mut power: u128 = 1;
    for factor in factors {
        match next_power(power, weight, *factor) {
            Some(next) => power = next,
            None => return false,
        }
    }
    true
}

impl Bound {
    /// As many factors 1 as the shape is deep.
    pub fn flat(shape: Shape) -> Bound
        ensures { result ≡ replicate shape.depth 1 }
    {
        Bound {
            factors: [1; 8],
            count: shape.depth() as usize,
        }
    }

    /// The bound of these factors.
    pub fn of(factors: &[u128]) -> Bound
        requires count { length factors.now ≤ 8 }
        requires some { All (λ f. 1 ≤ f) factors.now }
        ensures { result ≡ factors.now }
    {
        let mut all = [1u128; 8];
        let count = factors.len();
        all[..count].copy_from_slice(factors);
        Bound {
            factors: all,
            count,
        }
    }

    /// Whether the weight's k-th power times the k-th factor is at most 2^127 - 1, for each k from 1.
    pub fn fits(&self, weight: u128) -> bool
        ensures { IsTrue result ↔ Fits self.now weight }
    {
        fits_all(&self.factors[..self.count], weight)
    }
}
