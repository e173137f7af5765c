//! The text of a product of exponentials.
ghost use Rattle.std.specs.Prelude.{◌≡◌, ◌++◌, string_bytes, OnOk, IfOk};
ghost use Rattle.answers.specs.CbhText.{HasNumbers, result_text, cbh_text};

use crate::coordinates::push_log_levels;
use crate::names::Names;
use hall_set::HallSet;
use lie_bracket::LieElement;
use std::alloc::Global;
use words::{Memory, Shape};

/// The logarithm of a product of exponentials, or why there is none.
#[derive(Drop)]
pub enum CbhResult {
    /// Its Hall coordinates.
    Lie(LieElement),
    /// The bracket of these two members of the Hall set is too heavy.
    Pair(u32, u32),
    /// The images of words of so many letters are too heavy.
    Level(u32),
    /// The elements don't fit: their weight.
    Overflow(u128),
}

/// Appends the levels of a logarithm, or why there are none.
fn push_result(
    text: &mut String,
    names: &mut Names,
    hall: &HallSet,
    reply: &CbhResult,
) -> Result<(), Memory>
    requires { HasNumbers hall.now reply.now }
    ensures { OnOk result (string_bytes text.new ≡ string_bytes text.old ++ result_text hall.now reply.now) }
{
    match reply {
        CbhResult::Lie(lie) => push_log_levels(text, names, hall, lie)?,
        CbhResult::Pair(a, b) => writeln!(text, "growth {a} {b}")?,
        CbhResult::Level(k) => writeln!(text, "growth-level {k}")?,
        CbhResult::Overflow(weight) => writeln!(text, "overflow {weight}")?,
    }
    Ok(())
}

/// The text of a product of exponentials: the shape, the number of elements, and the levels of the logarithm, or why there are none.
/// The set is that of the shape.
pub fn cbh_text(
    alloc: Global,
    shape: Shape,
    count: u64,
    reply: &CbhResult,
    hall: &HallSet,
) -> Result<Vec<u8>, Memory>
    requires shape { hall.now ≡ shape }
    requires numbers { HasNumbers shape reply.now }
    ensures { IfOk result (λ text. text.items ≡ cbh_text shape count reply.now) }
{
    let mut text = String::new(alloc);
    let width = shape.width();
    let depth = shape.depth();
    writeln!(text, "shape {width} {depth}")?;
    writeln!(text, "cbh {count}")?;
    push_result(&mut text, &mut Names::new(alloc), hall, reply)?;
    Ok(text.into_bytes())
}
