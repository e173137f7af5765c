//! The signature of one row, by the Lie element of its move.
ghost use Rattle.std.specs.Prelude.{◌≡◌, ◌+◌, ◌^◌, ◌≤◌, ◌++◌, ◌∷◌, [], ℕ, List, All, length, IfOk, IfErr, OnOk, OnErr};
ghost use Rattle.definitions.specs.Words.{IsShape, IsWord};
ghost use Rattle.definitions.specs.Hall.{hall_list, of_degree};
ghost use Rattle.definitions.specs.Moves.{IsMove, total, lie_series, move_weight, sizes_of};
ghost use Rattle.definitions.specs.Signature.{limit};
ghost use Rattle.lie_bracket.specs.MoveTerms.{part_terms, parts_terms, entry_terms};
ghost use Rattle.scaled_tensor.specs.Tensors.{coefficient};
ghost use Rattle.tensor_product.specs.Exponentiation.{HasSizes};
ghost use Rattle.tensor_product.specs.Faults.{IsRefusedBy};
ghost use Rattle.tensor_product.specs.Sigs.{StandsFor};

use hall_set::HallSet;
use lie_bracket::{ExpandFault, LieElement, Term, expand};
use scaled_tensor::Tensor;
use std::alloc::Global;
use tensor_product::{ProductFault, Sig, exp_move, fitting};
use words::{Ledger, Memory, Move, Steps};

/// Adds the term of the entry at a place, where there is one other than 0.
fn push_entry(
    terms: &mut Vec<Term>,
    entries: &[i64],
    place: usize,
    number: u32,
) -> Result<(), Memory>
    ensures { OnOk result (terms.new.items ≡ terms.old.items ++ entry_terms number entries.now place) }
{
    let entry = entries.get(place).copied().unwrap_or(0);
    if entry != 0 {
        terms.push(Term {
            factor: entry as i128,
            number,
        })?;
    }
    Ok(())
}

/// Adds the terms of one part: its entries other than 0, for the members of degree j in their order.
fn push_part(terms: &mut Vec<Term>, hall: &HallSet, j: u32, entries: &[i64]) -> Result<(), Memory>
    ensures { OnOk result (terms.new.items ≡ terms.old.items ++ part_terms (of_degree (hall_list hall.now.width hall.now.depth) j) entries.now) }
{
    let mut place = 0;
    for at in 0..hall.len() {
        if hall.degree(at + 1) == j {
            push_entry(terms, entries, place, at + 1)?;
            place += 1;
        }
    }
    Ok(())
}

/// The terms of a move: its entries other than 0, by the numbers of their members.
fn terms_of(alloc: Global, x: &Move, hall: &HallSet) -> Result<Vec<Term>, Memory>
    requires { IsMove hall.now x.now }
    ensures { IfOk result (λ terms. terms.items ≡ parts_terms (hall_list hall.now.width hall.now.depth) 1 x.now) }
{
    let mut terms = Vec::new(alloc);
    for k in 0..hall.shape().depth() {
        push_part(&mut terms, hall, k + 1, x.part(k + 1))?;
    }
    Ok(terms)
}

/// The tensor of a move's Lie element.
fn tensor_of(alloc: Global, x: &Move, hall: &HallSet) -> Result<Tensor, Memory>
    requires shape { IsShape hall.now }
    requires move_of { IsMove hall.now x.now }
    requires small { All (λ part. total part ≤ 2 ^ 95) x.now }
    ensures extent { IfOk result (λ t. t.extent ≡ hall.now) }
    ensures value { IfOk result (λ t. (word : List ℕ) → IsWord hall.now word → coefficient t word ≡ lie_series x.now word) }
{
    let terms = terms_of(alloc, x, hall)?;
    match LieElement::of(hall, terms) {
        Err(_) => unreachable!(),
        Ok(element) => match expand(alloc, hall, &element) {
            Ok(tensor) => Ok(tensor),
            Err(ExpandFault::Memory) => Err(Memory),
            Err(ExpandFault::Level(_)) => unreachable!(),
        },
    }
}

/// The tensor of a move's Lie element, whose coefficients at k letters are at most the k-th size.
pub fn sized_tensor(
    alloc: Global,
    x: &Move,
    hall: &HallSet,
    sizes: &mut [u128],
) -> Result<Tensor, Memory>
    requires move_of { IsMove hall.now x.now }
    requires places { length sizes.old ≡ hall.now.depth }
    ensures sizes { sizes.new ≡ sizes_of x.now }
    ensures extent { IfOk result (λ z. z.extent ≡ hall.now) }
    ensures value { IfOk result (λ z. (word : List ℕ) → IsWord hall.now word → coefficient z word ≡ lie_series x.now word) }
    ensures sized { IfOk result (λ z. HasSizes z sizes.new) }
{
    let _shape = hall.shape();
    x.write_sizes(sizes);
    let tensor = tensor_of(alloc, x, hall)?;
    Ok(tensor)
}

/// The signature of one row, by the exponential of its move's Lie element. Takes one unit.
pub fn row_sig<L: Ledger>(
    alloc: Global,
    x: &Move,
    hall: &HallSet,
    steps: &mut Steps<L>,
) -> Result<Sig, ProductFault>
    requires { IsMove hall.now x.now }
    ensures fits { OnOk result (move_weight x.now ^ hall.now.depth ≤ limit) }
    ensures refused { IfErr result (λ fault. IsRefusedBy (move_weight x.now) hall.now.depth fault) }
    ensures extent { IfOk result (λ s. s.tensor.extent ≡ hall.now) }
    ensures stands { IfOk result (λ s. StandsFor s (x.now ∷ [])) }
    ensures ticks { OnOk result (steps.new ≡ steps.old + 1) }
    ensures at_most { (steps.old ≤ steps.new) × (steps.new ≤ steps.old + 1) }
{
    fitting(hall.shape(), x.weight())?;
    let mut all = [0u128; 8];
    let sizes = &mut all[..hall.shape().depth() as usize];
    let tensor = sized_tensor(alloc, x, hall, sizes)?;
    exp_move(alloc, &tensor, sizes, steps)
}
