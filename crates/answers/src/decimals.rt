//! Numbers in decimal.
ghost use Rattle.std.specs.Prelude.{◌≡◌, ◌++◌, ◌<◌, ◌≤◌, ◌^◌, map, string_bytes, OnOk};
ghost use Rattle.std.specs.List.{join_with_byte};
ghost use Rattle.std.specs.Fmt.{decimal, signed_decimal};
ghost use Rattle.answers.specs.Padded.{padded};
ghost use Rattle.answers.specs.Watched.{listed};

use itoa::{Buffer, Integer};
use words::Memory;

/// The least number of twenty digits.
const TWENTY_DIGITS: u128 = 10_000_000_000_000_000_000;

/// Zeros, one for each digit of a number below that.
const ZEROS: &str = "0000000000000000000";

/// Appends a number in decimal.
pub(crate) fn push_number<I: Integer>(text: &mut String, number: I) -> Result<(), Memory>
    ensures { OnOk result (string_bytes text.new ≡ string_bytes text.old ++ I.text number) }
{
    let mut buffer = Buffer::new();
    text.push_str(buffer.format(number))?;
    Ok(())
}

/// Appends a number with zeros before it, nineteen digits in all.
fn push_padded(text: &mut String, number: u64) -> Result<(), Memory>
    requires { number < 10 ^ 19 }
    ensures { OnOk result (string_bytes text.new ≡ string_bytes text.old ++ padded 19 number) }
{
    let mut buffer = Buffer::new();
    let digits = buffer.format(number);
    text.push_str(&ZEROS[digits.len()..])?;
    text.push_str(digits)?;
    Ok(())
}

/// Appends a number of at most 128 bits and a sign: what is above its last nineteen digits, and these.
fn push_wide(text: &mut String, number: u128) -> Result<(), Memory>
    requires { number ≤ 2 ^ 127 }
    ensures { OnOk result (string_bytes text.new ≡ string_bytes text.old ++ decimal number) }
{
    if number < TWENTY_DIGITS {
        return push_number(text, number as u64);
    }
    push_number(text, (number / TWENTY_DIGITS) as u64)?;
    push_padded(text, (number % TWENTY_DIGITS) as u64)
}

/// Appends a number in decimal, with its sign where it is less than 0.
pub(crate) fn push_signed(text: &mut String, number: i128) -> Result<(), Memory>
    ensures { OnOk result (string_bytes text.new ≡ string_bytes text.old ++ signed_decimal number) }
{
    if number < 0 {
        text.push_str("-")?;
    }
    push_wide(text, number.unsigned_abs())
}

/// Appends numbers with commas between.
pub(crate) fn push_joined<I: Integer>(text: &mut String, numbers: &[I]) -> Result<(), Memory>
    ensures { OnOk result (string_bytes text.new ≡ string_bytes text.old ++ join_with_byte 44 (map I.text numbers.now)) }
{
    let Some((first, rest)) = numbers.split_first() else {
        return Ok(());
    };
    push_number(text, *first)?;
    for number in rest {
        text.push_str(",")?;
        push_number(text, *number)?;
    }
    Ok(())
}

/// Appends numbers with commas between; `none` where there are none.
pub(crate) fn push_listed<I: Integer>(text: &mut String, numbers: &[I]) -> Result<(), Memory>
    ensures { OnOk result (string_bytes text.new ≡ string_bytes text.old ++ listed (map I.text numbers.now)) }
{
    if numbers.is_empty() {
        text.push_str("none")?;
        return Ok(());
    }
    push_joined(text, numbers)
}
