//! The texts of words and of members of Hall sets, made when they are asked for.
ghost use Rattle.std.specs.Prelude.{◌≡◌, IfOk};

use crate::member_texts::MemberTexts;
use crate::word_texts::WordTexts;
use hall_set::HallSet;
use std::alloc::Global;
use words::{Memory, Shape};

/// The texts of the words of a shape and of the members of a Hall set, once they were asked for.
#[derive(Drop)]
pub(crate) struct Names {
    alloc: Global,
    words: Option<WordTexts>,
    members: Option<MemberTexts>,
}

impl Names {
    /// No texts.
    pub(crate) fn new(alloc: Global) -> Names {
        Names {
            alloc,
            words: None,
            members: None,
        }
    }

    /// The texts of the words of a shape: those of the call before where that asked for the same shape.
    pub(crate) fn words(&mut self, shape: Shape) -> Result<&WordTexts, Memory>
        ensures { IfOk result (λ texts. texts.now ≡ shape) }
    {
        let texts = match self.words.take() {
            Some(texts) if texts.shape() == shape => texts,
            _ => WordTexts::of(self.alloc, shape)?,
        };
        Ok(self.words.insert(texts))
    }

    /// The texts of the members of a set: those of the call before where that asked for the same set.
    pub(crate) fn members(&mut self, hall: &HallSet) -> Result<&MemberTexts, Memory>
        ensures { IfOk result (λ texts. texts.now ≡ hall.now) }
    {
        let texts = match self.members.take() {
            Some(texts) if texts.shape() == hall.shape() => texts,
            _ => MemberTexts::of(self.alloc, hall)?,
        };
        Ok(self.members.insert(texts))
    }
}
