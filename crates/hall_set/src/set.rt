ghost use Rattle.std.specs.Prelude.{◌≡◌, ◌++◌, ◌≤◌, IfOk, OnOk, OnErr, MatchOption, length, string_bytes};
ghost use mathlib.Core.List.{IsPrefix};
ghost use Rattle.definitions.specs.Words.{IsShape};
ghost use Rattle.definitions.specs.Hall.{InHall, hall_list, member, degree, number_of, text_of};
ghost use Rattle.definitions.specs.declared.member.Member.TheVariants.{Letter, Pair};

use crate::growth::grow;
use crate::search::find_pair;
use crate::text::push_text;
use definitions::Member;
use std::alloc::Global;
use std::marker::Model;
use words::{Memory, Shape};

/// The Hall set of a shape: the members of degree at most the shape's depth, over its letters.
#[derive(Drop)]
pub struct HallSet {
    shape: Shape,
    members: Vec<Member>,
}

impl Model for HallSet {
    ghost use Rattle.std.specs.Prelude.{◌≡◌};
    ghost use Rattle.definitions.specs.Words.{Extent, IsShape};
    ghost use Rattle.definitions.specs.Hall.{hall_list};

    ghost Value = { Extent };

    ghost view = { λ s. s.shape };

    ghost invariant = { λ s. IsShape s.shape × (s.members.items ≡ hall_list s.shape.width s.shape.depth) };
}

impl HallSet {
    /// The set of a shape.
    pub fn build(alloc: Global, shape: Shape) -> Result<HallSet, Memory>
        ensures { IfOk result (λ s. s ≡ shape) }
    {
        Ok(HallSet {
            shape,
            members: grow(alloc, shape)?,
        })
    }

    /// How many members there are.
    pub fn len(&self) -> u32
        ensures value { result ≡ length (hall_list self.now.width self.now.depth) }
        ensures bound { result ≤ 1024 }
        ensures shape { IsShape self.now }
    {
        self.members.len() as u32
    }

    /// The shape whose letters the members have, and whose depth bounds their degrees.
    pub fn shape(&self) -> Shape
        ensures value { result ≡ self.now }
        ensures shape { IsShape self.now }
    {
        self.shape
    }

    /// The members in the order of their numbers, of which the first is 1.
    pub fn members(&self) -> &[Member]
        ensures value { result.now ≡ hall_list self.now.width self.now.depth }
        ensures bound { length result.now ≤ 1024 }
        ensures shape { IsShape self.now }
    {
        &self.members
    }

    /// The degree of the member of the number h: how many letters its text has.
    pub fn degree(&self, h: u32) -> u32
        requires { InHall (hall_list self.now.width self.now.depth) h }
        ensures value { result ≡ degree (hall_list self.now.width self.now.depth) h }
        ensures some { 1 ≤ result }
        ensures bound { result ≤ self.now.depth }
        ensures shape { IsShape self.now }
    {
        self.members[h as usize - 1].degree()
    }

    /// The numbers of the two members of which the member of the number h is the bracket, `None` for a letter.
    pub fn parents(&self, h: u32) -> Option<(u32, u32)>
        requires { InHall (hall_list self.now.width self.now.depth) h }
        ensures { MatchOption result (member (hall_list self.now.width self.now.depth) h ≡ Letter) (λ p. member (hall_list self.now.width self.now.depth) h ≡ Pair (degree (hall_list self.now.width self.now.depth) h) p.0 p.1) }
    {
        match self.members[h as usize - 1] {
            Member::Letter => None,
            Member::Pair { left, right, .. } => Some((left, right)),
        }
    }

    /// The number of the pair of the members of the numbers i and j, `None` where it isn't in the set. Takes no memory.
    pub fn find(&self, i: u32, j: u32) -> Option<u32>
        ensures { MatchOption result (number_of (hall_list self.now.width self.now.depth) i j ≡ 0) (λ h. InHall (hall_list self.now.width self.now.depth) h × (h ≡ number_of (hall_list self.now.width self.now.depth) i j)) }
    {
        find_pair(&self.members, i, j)
    }

    /// Appends the text of the member of the number h: of a letter its number, of a pair the texts of the two in square brackets, with a comma between.
    /// After want of memory the text begins with what it had; a part of the member's text may stand after it.
    pub fn write_text(&self, h: u32, text: &mut String) -> Result<(), Memory>
        requires { InHall (hall_list self.now.width self.now.depth) h }
        ensures text { OnOk result (string_bytes text.new ≡ string_bytes text.old ++ text_of (hall_list self.now.width self.now.depth) h) }
        ensures begins { OnErr result (IsPrefix (string_bytes text.old) (string_bytes text.new)) }
    {
        push_text(&self.members, h, text)?;
        Ok(())
    }

    /// The text of the member of the number h, as `write_text` appends it.
    pub fn text(&self, alloc: Global, h: u32) -> Result<String, Memory>
        requires { InHall (hall_list self.now.width self.now.depth) h }
        ensures { IfOk result (λ text. string_bytes text ≡ text_of (hall_list self.now.width self.now.depth) h) }
    {
        let mut text = String::new(alloc);
        self.write_text(h, &mut text)?;
        Ok(text)
    }
}
