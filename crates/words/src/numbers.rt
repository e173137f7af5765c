ghost use Rattle.std.specs.Prelude.{◌≡◌, ◌≤◌, ◌*◌};
ghost use Rattle.definitions.specs.Words.{binom as binomial, factorial as product_to};
ghost use Rattle.definitions.specs.Logarithm.{lcm_to as least_multiple, log_bound as bound_factor};

/// The binomials of n over k in row n and column k, for both up to 8.
const BINOMIALS: [[u64; 9]; 9] = [
    [1, 0, 0, 0, 0, 0, 0, 0, 0],
    [1, 1, 0, 0, 0, 0, 0, 0, 0],
    [1, 2, 1, 0, 0, 0, 0, 0, 0],
    [1, 3, 3, 1, 0, 0, 0, 0, 0],
    [1, 4, 6, 4, 1, 0, 0, 0, 0],
    [1, 5, 10, 10, 5, 1, 0, 0, 0],
    [1, 6, 15, 20, 15, 6, 1, 0, 0],
    [1, 7, 21, 35, 35, 21, 7, 1, 0],
    [1, 8, 28, 56, 70, 56, 28, 8, 1],
];

/// The factorials of 0 to 8.
const FACTORIALS: [u64; 9] = [1, 1, 2, 6, 24, 120, 720, 5040, 40320];

/// The least common multiples of 1 .. k, for k from 0 to 8.
const LEAST_MULTIPLES: [u64; 9] = [1, 1, 2, 6, 12, 60, 60, 420, 840];

/// The bounds of the logarithm of a signature at words of 0 to 8 letters, for the weight 1.
const LOG_BOUNDS: [u64; 9] = [0, 1, 4, 36, 312, 9000, 64920, 3933720, 79452240];

/// The binomial by Pascal's rule.
pub fn binom(n: u32, k: u32) -> u64
    requires { n ≤ 8 }
    ensures { result ≡ binomial n k }
{
    if k > n {
        return 0;
    }
    BINOMIALS[n as usize][k as usize]
}

/// The product 1 .. n.
pub fn factorial(n: u32) -> u64
    requires { n ≤ 8 }
    ensures { result ≡ product_to n }
{
    FACTORIALS[n as usize]
}

/// The denominator of a signature's coefficients at k letters, which is k!.
pub fn sig_den(k: u32) -> u64
    requires { k ≤ 8 }
    ensures { result ≡ product_to k }
{
    factorial(k)
}

/// The least common multiple of 1 .. k.
pub fn lcm_to(k: u32) -> u64
    requires { k ≤ 8 }
    ensures { result ≡ least_multiple k }
{
    LEAST_MULTIPLES[k as usize]
}

/// The denominator of a logarithm's coefficients at k letters, which is k! times the least common
/// multiple of 1 .. k.
pub fn log_den(k: u32) -> u64
    requires { k ≤ 8 }
    ensures { result ≡ product_to k * least_multiple k }
{
    factorial(k) * lcm_to(k)
}

/// The denominator of a Lie element's coordinates of degree k, which is k times that of a
/// logarithm's coefficients.
pub fn lie_den(k: u32) -> u64
    requires { k ≤ 8 }
    ensures { result ≡ k * (product_to k * least_multiple k) }
{
    k as u64 * log_den(k)
}

/// The factor that bounds a logarithm's coefficients at k letters: none is greater than this times
/// the k-th power of the weight. It is the sum, over m from 1 to k, of the m-th part of the least
/// common multiple of 1 .. k times the number of maps of k things onto m things.
pub fn log_bound(k: u32) -> u64
    requires { k ≤ 8 }
    ensures { result ≡ bound_factor k }
{
    LOG_BOUNDS[k as usize]
}
