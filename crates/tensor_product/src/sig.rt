ghost use Rattle.std.specs.Prelude.{MatchResult, ◌≡◌, ◌+◌, ◌^◌, ◌<◌, ◌≤◌, ◌++◌, ◌∷◌, [], List, length, IfOk, IfErr, OnOk, OnErr};
ghost use Rattle.definitions.specs.Words.{IsShape};
ghost use Rattle.definitions.specs.Moves.{Parts, plain, greatest, weight_from};
ghost use Rattle.definitions.specs.Signature.{limit};
ghost use Rattle.tensor_product.specs.Exponentiation.{HasSizes, IsExponentialOf};
ghost use Rattle.tensor_product.specs.Faults.{IsRefusedBy};
ghost use Rattle.tensor_product.specs.Sigs.{SigValue, IsSig, StandsFor};

use crate::exponent::exponential_of;
use crate::extend::{extend_bounded, narrow_depth};
use crate::fault::ProductFault;
use crate::multiply::join_bounded;
use scaled_tensor::Tensor;
use std::alloc::Global;
use std::marker::Model;
use words::{Bound, Ledger, Memory, Shape, Steps, greatest_entry, weight_of};

/// A signature up to the depth of its shape: at a word of k letters the numerator over k!. Its
/// weight is the sum of the weights of the moves; no coefficient of k letters is greater than the
/// k-th power of it.
#[derive(Drop)]
pub struct Sig {
    tensor: Tensor,
    weight: u128,
}

impl Model for Sig {
    ghost use Rattle.tensor_product.specs.Sigs.{SigValue, IsSig};

    ghost Value = { SigValue };

    ghost view = { λ s. record { tensor = s.tensor; weight = s.weight } };

    ghost invariant = { λ s. IsSig (record { tensor = s.tensor; weight = s.weight }) };
}

/// The weight whose power at the depth is greater than 2^127 - 1.
#[derive(Debug, Clone, Copy, PartialEq, Eq, Drop)]
pub struct Overflow(pub u128);

impl Sig {
    /// The signature of no moves: 1 at the empty word, 0 at the others, weight 0.
    pub fn unit(alloc: Global, shape: Shape) -> Result<Sig, Memory>
        ensures extent { IfOk result (λ s. s.tensor.extent ≡ shape) }
        ensures stands { IfOk result (λ s. StandsFor s []) }
    {
        Ok(Sig {
            tensor: Tensor::unit(alloc, shape)?,
            weight: 0,
        })
    }

    /// An equal signature.
    pub fn copy(&self, alloc: Global) -> Result<Sig, Memory>
        ensures { IfOk result (λ s. s ≡ self.now) }
    {
        Ok(Sig {
            tensor: self.tensor.copy(alloc)?,
            weight: self.weight,
        })
    }

    /// The coefficients.
    pub fn tensor(&self) -> &Tensor
        ensures value { result.now ≡ self.now.tensor }
        ensures sig { IsSig self.now }
    {
        &self.tensor
    }

    /// The coefficients alone.
    pub fn into_tensor(self) -> Tensor
        ensures { result ≡ self.tensor }
    {
        self.tensor
    }

    /// The sum of the weights of the moves.
    pub fn weight(&self) -> u128
        ensures value { result ≡ self.now.weight }
        ensures sig { IsSig self.now }
    {
        self.weight
    }
}

/// The weight, where it fits the shape: its power at the depth is at most 2^127 - 1.
pub fn fitting(shape: Shape, weight: u128) -> Result<u128, Overflow>
    ensures { MatchResult result (λ v. (v ≡ weight) × (weight ^ shape.depth ≤ limit)) (λ e. (e.0 ≡ weight) × (limit < weight ^ shape.depth)) }
{
    if narrow_depth(weight, shape.depth()) == shape.depth() {
        return Ok(weight);
    }
    if Bound::flat(shape).fits(weight) {
        Ok(weight)
    } else {
        Err(Overflow(weight))
    }
}

/// Multiplies a signature by the exponential of a row of this weight, on the right.
fn extend_by<L: Ledger>(s: &mut Sig, x: &[i64], added: u128, steps: &mut Steps<L>)
    requires shape { IsShape s.old.tensor.extent }
    requires x { length x.now ≡ s.old.tensor.extent.width }
    requires added { added ≡ greatest x.now }
    requires fits { (s.old.weight + added) ^ s.old.tensor.extent.depth ≤ limit }
    ensures extent { s.new.tensor.extent ≡ s.old.tensor.extent }
    ensures stands { (moves : List Parts) → StandsFor s.old moves → StandsFor s.new (moves ++ plain s.old.tensor.extent.depth x.now ∷ []) }
    ensures ticks { steps.new ≡ steps.old + 1 }
{
    extend_bounded(&mut s.tensor, x, added, s.weight);
    s.weight += added;
    steps.tick();
}

/// Multiplies a signature by the exponential of a row, on the right: that of some moves becomes
/// that of one move more. Takes one unit, and no memory.
pub fn extend_row<L: Ledger>(s: &mut Sig, x: &[i64], steps: &mut Steps<L>) -> Result<(), Overflow>
    requires { length x.now ≡ s.old.tensor.extent.width }
    ensures fits { OnOk result ((s.old.weight + greatest x.now) ^ s.old.tensor.extent.depth ≤ limit) }
    ensures overflow { IfErr result (λ e. (e.0 ≡ s.old.weight + greatest x.now) × (limit < e.0 ^ s.old.tensor.extent.depth)) }
    ensures extent { s.new.tensor.extent ≡ s.old.tensor.extent }
    ensures stands { OnOk result ((moves : List Parts) → StandsFor s.old moves → StandsFor s.new (moves ++ plain s.old.tensor.extent.depth x.now ∷ [])) }
    ensures unchanged { OnErr result (s.new ≡ s.old) }
    ensures ticks { OnOk result (steps.new ≡ steps.old + 1) }
    ensures at_most { (steps.old ≤ steps.new) × (steps.new ≤ steps.old + 1) }
{
    let added = greatest_entry(x);
    fitting(s.tensor().shape(), s.weight() + added)?;
    extend_by(s, x, added, steps);
    Ok(())
}

/// The exponential of a row, which is the signature of that one move. Takes one unit.
pub fn exp_row<L: Ledger>(
    alloc: Global,
    shape: Shape,
    x: &[i64],
    steps: &mut Steps<L>,
) -> Result<Sig, ProductFault>
    requires { length x.now ≡ shape.width }
    ensures fits { OnOk result (greatest x.now ^ shape.depth ≤ limit) }
    ensures refused { IfErr result (λ fault. IsRefusedBy (greatest x.now) shape.depth fault) }
    ensures extent { IfOk result (λ s. s.tensor.extent ≡ shape) }
    ensures stands { IfOk result (λ s. StandsFor s (plain shape.depth x.now ∷ [])) }
    ensures ticks { OnOk result (steps.new ≡ steps.old + 1) }
    ensures unticked { OnErr result (steps.new ≡ steps.old) }
{
    let weight = fitting(shape, greatest_entry(x))?;
    let mut sig = Sig::unit(alloc, shape)?;
    extend_by(&mut sig, x, weight, steps);
    Ok(sig)
}

/// The exponential of a tensor that is 0 at the empty word, and whose coefficients at k letters are at
/// most the k-th size. Takes one unit.
pub fn exp_move<L: Ledger>(
    alloc: Global,
    z: &Tensor,
    sizes: &[u128],
    steps: &mut Steps<L>,
) -> Result<Sig, ProductFault>
    requires { HasSizes z.now sizes.now }
    ensures fits { OnOk result (weight_from z.now.extent.depth 1 sizes.now ^ z.now.extent.depth ≤ limit) }
    ensures refused { IfErr result (λ fault. IsRefusedBy (weight_from z.now.extent.depth 1 sizes.now) z.now.extent.depth fault) }
    ensures value { IfOk result (λ s. IsExponentialOf z.now sizes.now s) }
    ensures ticks { OnOk result (steps.new ≡ steps.old + 1) }
    ensures unticked { OnErr result (steps.new ≡ steps.old) }
{
    let weight = fitting(z.shape(), weight_of(sizes))?;
    let tensor = exponential_of(alloc, z)?;
    steps.tick();
    Ok(Sig { tensor, weight })
}

/// Multiplies a signature by one of its shape, on the right, where the sum of the weights fits.
fn join_by(s: &mut Sig, b: &Sig)
    requires shape { IsShape s.old.tensor.extent }
    requires same { b.now.tensor.extent ≡ s.old.tensor.extent }
    requires sig { IsSig b.now }
    requires fits { (s.old.weight + b.now.weight) ^ s.old.tensor.extent.depth ≤ limit }
    ensures extent { s.new.tensor.extent ≡ s.old.tensor.extent }
    ensures weight { s.new.weight ≡ s.old.weight + b.now.weight }
    ensures stands { (A B : List Parts) → StandsFor s.old A → StandsFor b.now B → StandsFor s.new (A ++ B) }
{
    let added = b.weight();
    join_bounded(&mut s.tensor, b.tensor(), s.weight, added);
    s.weight += added;
}

/// Multiplies a signature by another one, on the right: that of some moves becomes that of these and
/// then the moves of the other. Takes no memory.
pub fn multiply_in(s: &mut Sig, b: &Sig) -> Result<(), Overflow>
    requires { b.now.tensor.extent ≡ s.old.tensor.extent }
    ensures fits { OnOk result ((s.old.weight + b.now.weight) ^ s.old.tensor.extent.depth ≤ limit) }
    ensures overflow { IfErr result (λ e. (e.0 ≡ s.old.weight + b.now.weight) × (limit < e.0 ^ s.old.tensor.extent.depth)) }
    ensures extent { s.new.tensor.extent ≡ s.old.tensor.extent }
    ensures weight { OnOk result (s.new.weight ≡ s.old.weight + b.now.weight) }
    ensures stands { OnOk result ((A B : List Parts) → StandsFor s.old A → StandsFor b.now B → StandsFor s.new (A ++ B)) }
    ensures unchanged { OnErr result (s.new ≡ s.old) }
{
    fitting(s.tensor().shape(), s.weight() + b.weight())?;
    join_by(s, b);
    Ok(())
}

/// The product of the signatures of two lists of moves, which is that of the one list and then the
/// other.
pub fn product(alloc: Global, a: &Sig, b: &Sig) -> Result<Sig, ProductFault>
    requires { b.now.tensor.extent ≡ a.now.tensor.extent }
    ensures fits { OnOk result ((a.now.weight + b.now.weight) ^ a.now.tensor.extent.depth ≤ limit) }
    ensures refused { IfErr result (λ fault. IsRefusedBy (a.now.weight + b.now.weight) a.now.tensor.extent.depth fault) }
    ensures extent { IfOk result (λ s. s.tensor.extent ≡ a.now.tensor.extent) }
    ensures weight { IfOk result (λ s. s.weight ≡ a.now.weight + b.now.weight) }
    ensures stands { IfOk result (λ s. (A B : List Parts) → StandsFor a.now A → StandsFor b.now B → StandsFor s (A ++ B)) }
{
    let shape = a.tensor().shape();
    let weight = fitting(shape, a.weight() + b.weight())?;
    let mut tensor = a.tensor().copy(alloc)?;
    join_bounded(&mut tensor, b.tensor(), a.weight(), b.weight());
    Ok(Sig { tensor, weight })
}
