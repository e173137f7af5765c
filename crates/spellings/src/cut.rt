//! A list of bytes in two.

ghost use Rattle.std.specs.Prelude.{◌≡◌, ◌==◌, ◌<◌, length, IfSome, MatchOption, true, false};
ghost use Rattle.std.specs.List.{list_any, position, before_first, after_first};

// The index of the first such byte.
fn place_of(bytes: &[u8], byte: u8) -> Option<usize>
    ensures value { result ≡ position (λ c. c == byte) bytes.now }
    ensures within { IfSome result (λ place. place < length bytes.now) }
{
    bytes.iter().position(|other| *other == byte)
}

// What stands before the first such byte, and what stands after it.
#[tactic(auto, using(crate::proofs::Places::any_before_end))]
pub(crate) fn cut_at(bytes: &[u8], byte: u8) -> Option<(&[u8], &[u8])>
    ensures { MatchOption result (list_any (λ c. c == byte) bytes.now ≡ false) (λ r. (list_any (λ c. c == byte) bytes.now ≡ true) × (r.0.now ≡ before_first (λ c. c == byte) bytes.now) × (r.1.now ≡ after_first (λ c. c == byte) bytes.now)) }
{
    let place = place_of(bytes, byte)?;
    Some((&bytes[..place], &bytes[place + 1..]))
}
