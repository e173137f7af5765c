//! Texts in one buffer.
ghost use Rattle.std.specs.Prelude.{◌≡◌, ◌++◌, ◌∷◌, [], ◌<◌, length, slice_index_or, IfOk};

use std::alloc::Global;
use std::marker::Model;
use words::Memory;

/// Texts one after another in one buffer, and the places where they are cut.
#[derive(Drop)]
pub(crate) struct Texts {
    bytes: String,
    places: Vec<usize>,
}

impl Model for Texts {
    ghost use Rattle.std.specs.Prelude.{ℕ, List, string_bytes};
    ghost use Rattle.answers.specs.Pieces.{pieces, AreCuts};

    ghost Value = { List (List ℕ) };

    ghost view = { λ t. pieces (string_bytes t.bytes) t.places.items };

    ghost invariant = { λ t. AreCuts (string_bytes t.bytes) t.places.items };
}

impl Texts {
    /// No texts.
    pub(crate) fn new(alloc: Global) -> Result<Texts, Memory>
        ensures { IfOk result (λ texts. texts ≡ []) }
    {
        Ok(Texts {
            bytes: String::new(alloc),
            places: vec![in alloc; 0]?,
        })
    }

    /// These texts, and one more at the end.
    pub(crate) fn with(self, text: &str) -> Result<Texts, Memory>
        ensures { IfOk result (λ texts. texts ≡ self ++ text.now ∷ []) }
    {
        let Texts {
            mut bytes,
            mut places,
        } = self;
        bytes.push_str(text)?;
        places.push(bytes.len())?;
        Ok(Texts { bytes, places })
    }

    /// The text of that number, from 0.
    pub(crate) fn get(&self, i: usize) -> &str
        requires { i < length self.now }
        ensures { result.now ≡ slice_index_or self.now i [] }
    {
        &self.bytes.as_str()[self.places[i]..self.places[i + 1]]
    }
}
