//! The levels of an answer in JSON.
ghost use Rattle.std.specs.Prelude.{◌≡◌, ◌^◌, ◌++◌, ◌∷◌, ◌<◌, ◌≤◌, [], length, pos, map, flat_map, slice_index_or, string_bytes, OnOk, IfOk, All};
ghost use Rattle.std.specs.Fmt.{signed_decimal};
ghost use Rattle.definitions.specs.Words.{words_of, number};
ghost use Rattle.scaled_tensor.specs.Tensors.{coefficient};
ghost use Rattle.definitions.specs.Hall.{InHall, hall_list, text_of};
ghost use Rattle.serde_json.specs.Data.{string};
ghost use Rattle.serde_json.specs.View.{view};
ghost use Rattle.answers.specs.Text.{word_text};
ghost use Rattle.answers.specs.Json.{list, term_json, level_json, signature_level, signature_levels, coordinate_json, logarithm_level, logarithm_levels};

use crate::decimals::{push_number, push_signed};
use crate::member_texts::MemberTexts;
use crate::names::Names;
use crate::word_texts::WordTexts;
use hall_set::HallSet;
use itoa::Integer;
use lie_bracket::{LieElement, Term};
use scaled_tensor::Tensor;
use serde_json::{Value, json};
use std::alloc::Global;
use words::{Memory, lie_den, sig_den};

/// A number in decimal.
pub(crate) fn decimal_text<I: Integer>(alloc: Global, number: I) -> Result<String, Memory>
    ensures { IfOk result (λ text. string_bytes text ≡ I.text number) }
{
    let mut text = String::new(alloc);
    push_number(&mut text, number)?;
    Ok(text)
}

/// A number with its sign in decimal.
fn signed_text(alloc: Global, number: i128) -> Result<String, Memory>
    ensures { IfOk result (λ text. string_bytes text ≡ signed_decimal number) }
{
    let mut text = String::new(alloc);
    push_signed(&mut text, number)?;
    Ok(text)
}

/// A name and its coefficient, both as text.
fn term_value(alloc: Global, name: &str, factor: i128) -> Result<Value, Memory>
    ensures { IfOk result (λ term. view term ≡ list (string name.now ∷ string (signed_decimal factor) ∷ [])) }
{
    let name = String::from_str(alloc, name)?;
    let factor = signed_text(alloc, factor)?;
    Ok(json!(in alloc; [name, factor])?)
}

/// Adds the word of that number among those of k letters and its coefficient, and nothing where
/// that is 0.
fn add_numbered(
    terms: &mut Vec<Value>,
    alloc: Global,
    words: &WordTexts,
    k: u32,
    number: u64,
    value: i128,
) -> Result<(), Memory>
    requires depth { k ≤ words.now.depth }
    requires number { number < words.now.width ^ k }
    ensures { OnOk result (map view terms.new.items ≡ map view terms.old.items ++ term_json (word_text (slice_index_or (words_of words.now.width k) number [])) value) }
{
    if value == 0 {
        return Ok(());
    }
    let term = term_value(alloc, words.text(k, number), value)?;
    terms.push(term)?;
    Ok(())
}

/// The words of k letters whose coefficients aren't 0, in lexicographic order.
fn word_terms(
    alloc: Global,
    words: &WordTexts,
    k: u32,
    coefficients: &[i128],
) -> Result<Vec<Value>, Memory>
    requires depth { k ≤ words.now.depth }
    requires all_words { length coefficients.now ≡ words.now.width ^ k }
    ensures { IfOk result (λ terms. map view terms.items ≡ flat_map (λ word. term_json (word_text word) (slice_index_or coefficients.now (number words.now.width word) (pos 0))) (words_of words.now.width k)) }
{
    let mut terms = Vec::new(alloc);
    for (index, value) in coefficients.iter().enumerate() {
        add_numbered(&mut terms, alloc, words, k, index as u64, *value)?;
    }
    Ok(terms)
}

/// A level of these terms over this denominator.
fn level_value(alloc: Global, denominator: u64, terms: Vec<Value>) -> Result<Value, Memory>
    ensures { IfOk result (λ level. view level ≡ level_json denominator (map view terms.items)) }
{
    let over = decimal_text(alloc, denominator)?;
    Ok(json!(in alloc; {"over": over, "terms": terms})?)
}

/// Level k of a signature.
fn signature_level_value(
    alloc: Global,
    words: &WordTexts,
    tensor: &Tensor,
    k: u32,
) -> Result<Value, Memory>
    requires words { words.now ≡ tensor.now.extent }
    requires depth { k ≤ tensor.now.extent.depth }
    requires small { k ≤ 8 }
    ensures { IfOk result (λ level. view level ≡ signature_level tensor.now.extent (coefficient tensor.now) k) }
{
    let terms = word_terms(alloc, words, k, tensor.level(k))?;
    level_value(alloc, sig_den(k), terms)
}

/// The levels of a signature from 1 on.
pub(crate) fn signature_values(
    alloc: Global,
    names: &mut Names,
    tensor: &Tensor,
) -> Result<Vec<Value>, Memory>
    ensures { IfOk result (λ levels. map view levels.items ≡ signature_levels tensor.now.extent (coefficient tensor.now)) }
{
    let shape = tensor.shape();
    let words = names.words(shape)?;
    let mut levels = Vec::new(alloc);
    for before in 0..shape.depth() {
        let level = signature_level_value(alloc, words, tensor, before + 1)?;
        levels.push(level)?;
    }
    Ok(levels)
}

/// The members of degree k with their coordinates.
fn coordinate_terms(
    alloc: Global,
    hall: &HallSet,
    members: &MemberTexts,
    terms: &[Term],
    k: u32,
) -> Result<Vec<Value>, Memory>
    requires members { members.now ≡ hall.now }
    requires numbers { All (λ t. InHall (hall_list hall.now.width hall.now.depth) t.number) terms.now }
    ensures { IfOk result (λ coordinates. map view coordinates.items ≡ flat_map (coordinate_json (hall_list hall.now.width hall.now.depth) k) terms.now) }
{
    let mut coordinates = Vec::new(alloc);
    for term in terms {
        if hall.degree(term.number) == k {
            let coordinate = term_value(alloc, members.text(term.number), term.factor)?;
            coordinates.push(coordinate)?;
        }
    }
    Ok(coordinates)
}

/// Level k of a logarithm.
fn logarithm_level_value(
    alloc: Global,
    hall: &HallSet,
    members: &MemberTexts,
    terms: &[Term],
    k: u32,
) -> Result<Value, Memory>
    requires members { members.now ≡ hall.now }
    requires numbers { All (λ t. InHall (hall_list hall.now.width hall.now.depth) t.number) terms.now }
    requires small { k ≤ 8 }
    ensures { IfOk result (λ level. view level ≡ logarithm_level hall.now terms.now k) }
{
    let coordinates = coordinate_terms(alloc, hall, members, terms, k)?;
    level_value(alloc, lie_den(k), coordinates)
}

/// The levels of a logarithm.
pub(crate) fn logarithm_values(
    alloc: Global,
    names: &mut Names,
    hall: &HallSet,
    lie: &LieElement,
) -> Result<Vec<Value>, Memory>
    requires { All (λ t. InHall (hall_list hall.now.width hall.now.depth) t.number) lie.now }
    ensures { IfOk result (λ levels. map view levels.items ≡ logarithm_levels hall.now lie.now) }
{
    let members = names.members(hall)?;
    let terms = lie.terms();
    let mut levels = Vec::new(alloc);
    for before in 0..hall.shape().depth() {
        let level = logarithm_level_value(alloc, hall, members, terms, before + 1)?;
        levels.push(level)?;
    }
    Ok(levels)
}
