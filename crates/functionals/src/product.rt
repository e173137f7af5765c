ghost use Rattle.std.specs.Prelude.{◌≡◌, ◌+◌, ◌*◌, ◌≤◌, All, length, suc, IfOk, IfErr};
ghost use Rattle.definitions.specs.Signature.{limit};
ghost use Rattle.definitions.specs.Words.{shorter};
ghost use Rattle.functionals.specs.Functionals.{IsFunctional, norm, reach, shuffled, shuffle_product as product_of};
ghost use Rattle.functionals.specs.Faults.{ReachFits, NormFits, HasNoProduct};
ghost use Rattle.functionals.specs.Tables.{IsTableOf, IsTerm};

use crate::collecting::collect;
use crate::fault::ShuffleFault;
use crate::functional::Functional;
use crate::shuffling::add_terms;
use crate::term::WordTerm;
use crate::value::product_within;
use std::alloc::Global;
use words::{Memory, Shape};

/// The greatest number of shuffles of two words of together eight letters.
const MOST_SHUFFLES: u128 = 70;

/// The sums of the coefficients of the shuffles of two lists, a number for each word of the shape.
fn table_of(
    alloc: Global,
    shape: Shape,
    f: &[WordTerm],
    g: &[WordTerm],
) -> Result<Vec<i128>, Memory>
    requires first { All (IsTerm shape) f.now }
    requires second { All (IsTerm shape) g.now }
    requires short { ReachFits shape f.now g.now }
    requires room { NormFits f.now g.now }
    ensures len { IfOk result (λ sums. length sums.items ≡ shorter shape.width (suc shape.depth)) }
    ensures table { IfOk result (λ sums. IsTableOf shape sums.items (shuffled f.now g.now)) }
{
    let mut sums = vec![in alloc; 0i128; shape.total() as usize]?;
    add_terms(shape, &mut sums, f, g);
    Ok(sums)
}

/// The terms of the shuffle product.
fn product_terms(
    alloc: Global,
    shape: Shape,
    f: &[WordTerm],
    g: &[WordTerm],
) -> Result<Vec<WordTerm>, Memory>
    requires first { IsFunctional shape f.now }
    requires second { IsFunctional shape g.now }
    requires reach { ReachFits shape f.now g.now }
    requires norm { NormFits f.now g.now }
    ensures product { IfOk result (λ terms. terms.items ≡ product_of shape f.now g.now) }
    ensures functional { IfOk result (λ terms. IsFunctional shape terms.items) }
    ensures norm { IfOk result (λ terms. norm terms.items ≤ 70 * (norm f.now * norm g.now)) }
{
    let sums = table_of(alloc, shape, f, g)?;
    collect(alloc, shape, &sums)
}

/// The shuffle product of two functionals of one shape: the words of all shuffles with the sums of
/// the products of the coefficients, those that are 0 left out. Its value at a signature, times N!
/// where N is the depth, is the product of their values (`laws::value_of_shuffle_product`).
/// The norms decide `Size`, whatever the answer's norm turns out to be.
pub fn shuffle_product(
    alloc: Global,
    f: &Functional,
    g: &Functional,
) -> Result<Functional, ShuffleFault>
    requires { f.now.extent ≡ g.now.extent }
    ensures extent { IfOk result (λ h. h.extent ≡ f.now.extent) }
    ensures product { IfOk result (λ h. h.terms ≡ product_of f.now.extent f.now.terms g.now.terms) }
    ensures norm { IfOk result (λ h. norm h.terms ≤ 70 * (norm f.now.terms * norm g.now.terms)) }
    ensures fits { IfOk result (λ h. ReachFits f.now.extent f.now.terms g.now.terms × NormFits f.now.terms g.now.terms) }
    ensures refused { IfErr result (λ fault. HasNoProduct f.now.extent f.now.terms g.now.terms fault) }
{
    let shape = f.shape();
    let reach = f.reach() + g.reach();
    if reach > shape.depth() {
        return Err(ShuffleFault::Reach(reach));
    }
    let (a, b) = (f.norm(), g.norm());
    if product_within(a, b, MOST_SHUFFLES).is_none() {
        return Err(ShuffleFault::Size(a, b));
    }
    let terms = product_terms(alloc, shape, f.terms(), g.terms())?;
    Ok(Functional { shape, terms })
}
