//! The texts of words.
ghost use Rattle.std.specs.Prelude.{◌≡◌, ◌++◌, ◌≤◌, ◌<◌, ◌^◌, [], map, slice_index_or, string_bytes, IfOk};
ghost use Rattle.definitions.specs.Words.{IsShape, words_of};
ghost use Rattle.answers.specs.Text.{word_text};

use crate::decimals::push_joined;
use crate::texts::Texts;
use std::alloc::Global;
use std::marker::Model;
use words::{Memory, Shape};

/// The texts of all words of a shape.
#[derive(Drop)]
pub(crate) struct WordTexts {
    shape: Shape,
    texts: Texts,
}

impl Model for WordTexts {
    ghost use Rattle.std.specs.Prelude.{◌≡◌, suc, map};
    ghost use Rattle.definitions.specs.Words.{Extent};
    ghost use Rattle.definitions.specs.AllWords.{words_below};
    ghost use Rattle.answers.specs.Text.{word_text};

    ghost Value = { Extent };

    ghost view = { λ t. t.shape };

    ghost invariant = { λ t. t.texts ≡ map word_text (words_below t.shape.width (suc t.shape.depth)) };
}

/// The letters of a word in round brackets, with commas between.
fn text_of_word(alloc: Global, word: &[u32]) -> Result<String, Memory>
    ensures { IfOk result (λ text. string_bytes text ≡ word_text word.now) }
{
    let mut text = String::new(alloc);
    text.push_str("(")?;
    push_joined(&mut text, word)?;
    text.push_str(")")?;
    Ok(text)
}

/// These texts, and those of the words of k letters at the end.
fn with_words(texts: Texts, alloc: Global, shape: Shape, k: u32) -> Result<Texts, Memory>
    requires { k ≤ shape.depth }
    ensures { IfOk result (λ all. all ≡ texts ++ map word_text (words_of shape.width k)) }
{
    let mut texts = texts;
    let mut letters = [1u32; 8];
    let word = &mut letters[..k as usize];
    for number in 0..shape.count(k) {
        shape.write_word(number, word);
        let text = text_of_word(alloc, word)?;
        texts = texts.with(&text)?;
    }
    Ok(texts)
}

impl WordTexts {
    /// Those of a shape.
    pub(crate) fn of(alloc: Global, shape: Shape) -> Result<WordTexts, Memory>
        ensures { IfOk result (λ texts. texts ≡ shape) }
    {
        let mut texts = Texts::new(alloc)?;
        for k in 0..shape.depth() + 1 {
            texts = with_words(texts, alloc, shape, k)?;
        }
        Ok(WordTexts { shape, texts })
    }

    /// The shape of the words.
    pub(crate) fn shape(&self) -> Shape
        ensures { result ≡ self.now }
    {
        self.shape
    }

    /// The text of the word of that number among those of k letters.
    pub(crate) fn text(&self, k: u32, number: u64) -> &str
        requires depth { k ≤ self.now.depth }
        requires number { number < self.now.width ^ k }
        ensures { result.now ≡ word_text (slice_index_or (words_of self.now.width k) number []) }
    {
        self.texts.get((self.shape.before(k) + number) as usize)
    }
}
