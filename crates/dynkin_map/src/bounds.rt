ghost use Rattle.std.specs.Prelude.{◌≡◌, ◌≤◌, ◌-◌, ◌^◌, ℕ, length, slice_index_or};
ghost use Rattle.definitions.specs.Words.{IsShape};
ghost use Rattle.dynkin_map.specs.Coordinates.{lie_bounds};
ghost use Rattle.dynkin_map.specs.Table.{growth_of};

use words::{Bound, Shape, log_bound};

/// The factors that bound the coordinates of a logarithm, one for each degree from 1.
pub(crate) fn bound_of(shape: Shape, growths: &[u64]) -> Bound
    requires eight { length growths.now ≡ 8 }
    requires values { (k : ℕ) → 1 ≤ k → k ≤ shape.depth → slice_index_or growths.now (k - 1) 0 ≡ growth_of shape k }
    ensures value { result ≡ lie_bounds shape }
    ensures shape { IsShape shape }
{
    let depth = shape.depth() as usize;
    let mut factors = [1u128; 8];
    for k in 0..depth {
        factors[k] = log_bound(k as u32 + 1) as u128 * growths[k].max(1) as u128;
    }
    Bound::of(&factors[..depth])
}
