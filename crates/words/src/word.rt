ghost use Rattle.std.specs.Prelude.{◌≡◌, ◌^◌, ◌<◌, ◌≤◌, length, IfOk};
ghost use Rattle.definitions.specs.Words.{IsWord, number};

use crate::memory::Memory;
use crate::shape::Shape;
use std::alloc::Global;
use std::marker::Model;

/// A word: a list of letters.
#[derive(Drop)]
pub struct Word {
    letters: Vec<u32>,
}

impl Model for Word {
    ghost use Rattle.std.specs.Prelude.{ℕ, List};

    ghost Value = { List ℕ };

    ghost view = { λ w. w.letters.items };
}

impl Word {
    /// The word of these letters.
    pub fn of(letters: Vec<u32>) -> Word
        ensures { result ≡ letters.items }
    {
        Word { letters }
    }

    /// The letters.
    pub fn list(&self) -> &[u32]
        ensures { result.now ≡ self.now }
    {
        &self.letters
    }

    /// An equal word.
    pub fn copy(&self, alloc: Global) -> Result<Word, Memory>
        ensures { IfOk result (λ w. w ≡ self.now) }
    {
        Ok(Word {
            letters: Vec::from_slice(alloc, &self.letters)?,
        })
    }
}

impl Shape {
    /// The word of k letters with that number among the words of k letters, in lexicographic order from 0.
    pub fn word_at(&self, alloc: Global, k: u32, index: u64) -> Result<Word, Memory>
        requires depth { k ≤ self.now.depth }
        requires index { index < self.now.width ^ k }
        ensures length { IfOk result (λ w. length w ≡ k) }
        ensures word { IfOk result (λ w. IsWord self.now w) }
        ensures number { IfOk result (λ w. number self.now.width w ≡ index) }
    {
        let mut letters = vec![in alloc; 1u32; k as usize]?;
        self.write_word(index, &mut letters);
        Ok(Word { letters })
    }
}
