//! The texts of the members of a Hall set.
ghost use Rattle.std.specs.Prelude.{◌≡◌, IfOk};
ghost use Rattle.definitions.specs.Hall.{InHall, hall_list, text_of};

use crate::texts::Texts;
use hall_set::HallSet;
use std::alloc::Global;
use std::marker::Model;
use words::{Memory, Shape};

/// The texts of all members of the Hall set of a shape.
#[derive(Drop)]
pub(crate) struct MemberTexts {
    shape: Shape,
    texts: Texts,
}

impl Model for MemberTexts {
    ghost use Rattle.std.specs.Prelude.{◌≡◌, map, length};
    ghost use Rattle.definitions.specs.Words.{Extent, up_to};
    ghost use Rattle.definitions.specs.Hall.{hall_list, text_of};

    ghost Value = { Extent };

    ghost view = { λ t. t.shape };

    ghost invariant = { λ t. t.texts ≡ map (text_of (hall_list t.shape.width t.shape.depth)) (up_to (length (hall_list t.shape.width t.shape.depth))) };
}

impl MemberTexts {
    /// Those of a set.
    pub(crate) fn of(alloc: Global, hall: &HallSet) -> Result<MemberTexts, Memory>
        ensures { IfOk result (λ texts. texts ≡ hall.now) }
    {
        let mut texts = Texts::new(alloc)?;
        for before in 0..hall.len() {
            let text = hall.text(alloc, before + 1)?;
            texts = texts.with(&text)?;
        }
        Ok(MemberTexts {
            shape: hall.shape(),
            texts,
        })
    }

    /// The shape of the set.
    pub(crate) fn shape(&self) -> Shape
        ensures { result ≡ self.now }
    {
        self.shape
    }

    /// The text of the member of the number h.
    pub(crate) fn text(&self, h: u32) -> &str
        requires { InHall (hall_list self.now.width self.now.depth) h }
        ensures { result.now ≡ text_of (hall_list self.now.width self.now.depth) h }
    {
        self.texts.get(h as usize - 1)
    }
}
