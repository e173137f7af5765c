//! Roots of whole numbers, rounded up.
ghost use Rattle.std.specs.Prelude.{◌↔◌, ◌≡◌, ◌≤◌, ◌^◌, IsTrue};
ghost use Rattle.definitions.specs.Moves.{root as least_root};

/// Whether n is at most the j-th power of r: n divided by r so many times, each time rounded up, leaves at most 1.
fn is_reached(r: u128, j: u32, n: u128) -> bool
    requires { 1 ≤ r }
    ensures { IsTrue result ↔ n ≤ r ^ j }
{
    let mut left = n;
    for _at in 0..j {
        left = left.div_ceil(r);
    }
    left <= 1
}

/// The least number whose j-th power is at least n. Takes some 130 j divisions at most.
pub fn root(j: u32, n: u128) -> u128
    requires { 1 ≤ j }
    ensures { result ≡ least_root j n }
{
    if n == 0 {
        return 0;
    }
    if j == 1 {
        return n;
    }
    let mut low = 0;
    let mut high = n;
    while high - low > 1 {
        let middle = low + (high - low) / 2;
        if is_reached(middle, j, n) {
            high = middle;
        } else {
            low = middle;
        }
    }
    high
}
