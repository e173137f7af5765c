//! The lines of a logarithm's levels.
ghost use Rattle.std.specs.Prelude.{◌≡◌, ◌++◌, ◌≤◌, flat_map, string_bytes, OnOk, All};
ghost use Rattle.definitions.specs.Hall.{InHall, hall_list};
ghost use Rattle.answers.specs.Text.{coordinate_text, log_level_text, log_levels_text};

use crate::levels::{push_head, push_term};
use crate::member_texts::MemberTexts;
use crate::names::Names;
use hall_set::HallSet;
use lie_bracket::{LieElement, Term};
use words::{Memory, lie_den};

/// Appends the members of degree k with their coordinates.
fn push_coordinates(
    text: &mut String,
    hall: &HallSet,
    members: &MemberTexts,
    terms: &[Term],
    k: u32,
) -> Result<(), Memory>
    requires members { members.now ≡ hall.now }
    requires numbers { All (λ t. InHall (hall_list hall.now.width hall.now.depth) t.number) terms.now }
    ensures { OnOk result (string_bytes text.new ≡ string_bytes text.old ++ flat_map (coordinate_text (hall_list hall.now.width hall.now.depth) k) terms.now) }
{
    for term in terms {
        if hall.degree(term.number) == k {
            push_term(text, members.text(term.number), term.factor)?;
        }
    }
    Ok(())
}

/// Appends the line of degree k.
fn push_log_level(
    text: &mut String,
    hall: &HallSet,
    members: &MemberTexts,
    terms: &[Term],
    k: u32,
) -> Result<(), Memory>
    requires members { members.now ≡ hall.now }
    requires numbers { All (λ t. InHall (hall_list hall.now.width hall.now.depth) t.number) terms.now }
    requires small { k ≤ 8 }
    ensures { OnOk result (string_bytes text.new ≡ string_bytes text.old ++ log_level_text hall.now terms.now k) }
{
    let denominator = lie_den(k);
    push_head(text, k, denominator)?;
    push_coordinates(text, hall, members, terms, k)?;
    text.push_str("\n")?;
    Ok(())
}

/// Appends the lines of all degrees.
pub(crate) fn push_log_levels(
    text: &mut String,
    names: &mut Names,
    hall: &HallSet,
    lie: &LieElement,
) -> Result<(), Memory>
    requires { All (λ t. InHall (hall_list hall.now.width hall.now.depth) t.number) lie.now }
    ensures { OnOk result (string_bytes text.new ≡ string_bytes text.old ++ log_levels_text hall.now lie.now) }
{
    let members = names.members(hall)?;
    let terms = lie.terms();
    for before in 0..hall.shape().depth() {
        push_log_level(text, hall, members, terms, before + 1)?;
    }
    Ok(())
}
