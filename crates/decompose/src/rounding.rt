ghost use Rattle.std.specs.Prelude.{◌≡◌, ◌^◌, ◌≤◌};
ghost use Rattle.definitions.specs.Rows.{rounded};

/// Down to a multiple of 2^-r, which is 2^(16 - r) ticks.
fn round_down(tick: u64, r: u8) -> u64
    requires { r ≤ 16 }
    ensures value { result ≡ rounded r tick }
    ensures bound { result ≤ tick }
{
    let step: u64 = 1 << (16 - r);
    tick / step * step
}

/// Both ends of an interval at a resolution r from 0 to 16: each down to a multiple of 2^-r, which is 2^(16 - r) ticks.
pub fn round(a: u64, b: u64, r: u8) -> (u64, u64)
    requires order { a ≤ b }
    requires line { b ≤ 2 ^ 32 }
    requires resolution { r ≤ 16 }
    ensures from { result.0 ≡ rounded r a }
    ensures to { result.1 ≡ rounded r b }
    ensures order { result.0 ≤ result.1 }
    ensures line { result.1 ≤ 2 ^ 32 }
{
    (round_down(a, r), round_down(b, r))
}
