//! The lines of a signature's levels.
ghost use Rattle.std.specs.Prelude.{◌≡◌, ◌^◌, ◌++◌, ◌<◌, ◌≤◌, [], length, codes, pos, flat_map, slice_index_or, string_bytes, OnOk, All};
ghost use Rattle.std.specs.Fmt.{decimal, signed_decimal};
ghost use Rattle.definitions.specs.Words.{words_of, number};
ghost use Rattle.scaled_tensor.specs.Tensors.{coefficient};
ghost use Rattle.answers.specs.Text.{word_text, term_text, level_text, levels_text};

use crate::decimals::{push_number, push_signed};
use crate::names::Names;
use crate::word_texts::WordTexts;
use scaled_tensor::Tensor;
use words::{Memory, sig_den};

/// Appends how the line of level k begins.
pub(crate) fn push_head(text: &mut String, k: u32, denominator: u64) -> Result<(), Memory>
    ensures { OnOk result (string_bytes text.new ≡ string_bytes text.old ++ (codes "level " ++ decimal k ++ codes " over " ++ decimal denominator)) }
{
    text.push_str("level ")?;
    push_number(text, k)?;
    text.push_str(" over ")?;
    push_number(text, denominator)
}

/// Appends a name and its coefficient.
pub(crate) fn push_term(text: &mut String, name: &str, value: i128) -> Result<(), Memory>
    ensures { OnOk result (string_bytes text.new ≡ string_bytes text.old ++ (codes " " ++ name.now ++ codes "=" ++ signed_decimal value)) }
{
    text.push_str(" ")?;
    text.push_str(name)?;
    text.push_str("=")?;
    push_signed(text, value)
}

/// Appends the word of that number among those of k letters and its coefficient, and nothing where
/// that is 0.
fn push_numbered(
    text: &mut String,
    words: &WordTexts,
    k: u32,
    number: u64,
    value: i128,
) -> Result<(), Memory>
    requires depth { k ≤ words.now.depth }
    requires number { number < words.now.width ^ k }
    ensures { OnOk result (string_bytes text.new ≡ string_bytes text.old ++ term_text (word_text (slice_index_or (words_of words.now.width k) number [])) value) }
{
    if value == 0 {
        return Ok(());
    }
    push_term(text, words.text(k, number), value)
}

/// Appends the words of k letters whose coefficients aren't 0, in lexicographic order.
fn push_terms(
    text: &mut String,
    words: &WordTexts,
    k: u32,
    coefficients: &[i128],
) -> Result<(), Memory>
    requires depth { k ≤ words.now.depth }
    requires all_words { length coefficients.now ≡ words.now.width ^ k }
    ensures { OnOk result (string_bytes text.new ≡ string_bytes text.old ++ flat_map (λ word. term_text (word_text word) (slice_index_or coefficients.now (number words.now.width word) (pos 0))) (words_of words.now.width k)) }
{
    for (index, value) in coefficients.iter().enumerate() {
        push_numbered(text, words, k, index as u64, *value)?;
    }
    Ok(())
}

/// Appends the line of level k, which is at least 1.
fn push_level(text: &mut String, words: &WordTexts, tensor: &Tensor, k: u32) -> Result<(), Memory>
    requires words { words.now ≡ tensor.now.extent }
    requires depth { k ≤ tensor.now.extent.depth }
    requires small { k ≤ 8 }
    ensures { OnOk result (string_bytes text.new ≡ string_bytes text.old ++ level_text tensor.now.extent (coefficient tensor.now) k) }
{
    push_head(text, k, sig_den(k))?;
    push_terms(text, words, k, tensor.level(k))?;
    text.push_str("\n")?;
    Ok(())
}

/// Appends the lines of the levels from 1 on.
pub(crate) fn push_levels(
    text: &mut String,
    names: &mut Names,
    tensor: &Tensor,
) -> Result<(), Memory>
    ensures { OnOk result (string_bytes text.new ≡ string_bytes text.old ++ levels_text tensor.now.extent (coefficient tensor.now)) }
{
    let shape = tensor.shape();
    let words = names.words(shape)?;
    for before in 0..shape.depth() {
        push_level(text, words, tensor, before + 1)?;
    }
    Ok(())
}
