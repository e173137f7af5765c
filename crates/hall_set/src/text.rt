ghost use Rattle.std.specs.Prelude.{◌≡◌, ◌++◌, OnOk, OnErr, decimal, string_bytes};
ghost use mathlib.Core.List.{IsPrefix};
ghost use Rattle.definitions.specs.Hall.{InHall, IsHallList, text_of};

use definitions::Member;
use itoa::Buffer;
use std::alloc::AllocError;

/// Appends a number, or leaves the text as it was.
fn push_number(number: u32, text: &mut String) -> Result<(), AllocError>
    ensures text { OnOk result (string_bytes text.new ≡ string_bytes text.old ++ decimal number) }
    ensures kept { OnErr result (string_bytes text.new ≡ string_bytes text.old) }
{
    let mut buffer = Buffer::new();
    text.push_str(buffer.format(number))
}

/// Appends the text of a member. After want of memory the text begins with what it had.
pub(crate) fn push_text(members: &[Member], h: u32, text: &mut String) -> Result<(), AllocError>
    requires list { IsHallList members.now }
    requires number { InHall members.now h }
    ensures text { OnOk result (string_bytes text.new ≡ string_bytes text.old ++ text_of members.now h) }
    ensures begins { OnErr result (IsPrefix (string_bytes text.old) (string_bytes text.new)) }
{
    match members[h as usize - 1] {
        Member::Letter => push_number(h, text)?,
        Member::Pair { left, right, .. } => {
            text.push_str("[")?;
            push_text(members, left, text)?;
            text.push_str(",")?;
            push_text(members, right, text)?;
            text.push_str("]")?;
        }
    }
    Ok(())
}
