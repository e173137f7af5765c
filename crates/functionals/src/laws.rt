//! The law of the shuffle product. The function does nothing: what it ensures is the law.
ghost use Rattle.std.specs.Prelude.{◌≡◌, ◌+◌, ◌*◌, ◌≤◌, ◌*ℤ◌, List, pos};
ghost use Rattle.definitions.specs.Words.{Extent, factorial};
ghost use Rattle.definitions.specs.Moves.{Parts};
ghost use Rattle.definitions.specs.Signature.{signature, limit};
ghost use Rattle.functionals.specs.declared.term.WordTerm.{WordTerm};
ghost use Rattle.functionals.specs.Functionals.{IsFunctional, value, norm, reach, shuffle_product};

/// The product of the values of two functionals at a signature is the value of their shuffle
/// product, where no word of it is longer than the depth N. A value is over N!, so that the
/// product of two is over N! N!. So the numbers that `apply` answers at one signature for two
/// functionals and for what `shuffle_product` makes of them obey it, where none of the three calls
/// refuses.
/// (Ree 1958; Reutenauer, Free Lie Algebras, theorem 3.2.)
pub fn value_of_shuffle_product()
    ensures { (moves : List Parts) (extent : Extent) (f g : List WordTerm) → IsFunctional extent f → IsFunctional extent g → reach f + reach g ≤ extent.depth → pos (factorial extent.depth) *ℤ value extent.depth (signature moves) (shuffle_product extent f g) ≡ value extent.depth (signature moves) f *ℤ value extent.depth (signature moves) g }
{}

/// The norm of the shuffle product is at most 70 times the product of the norms: that many shuffles
/// have two words of together eight letters at most.
pub fn norm_of_shuffle_product()
    ensures { (extent : Extent) (f g : List WordTerm) → IsFunctional extent f → IsFunctional extent g → reach f + reach g ≤ extent.depth → norm (shuffle_product extent f g) ≤ 70 * (norm f * norm g) }
{}

/// The shuffle product of two functionals is a functional, where 70 times the product of the norms
/// is at most 2^127 - 1.
pub fn shuffle_product_is_functional()
    ensures { (extent : Extent) (f g : List WordTerm) → IsFunctional extent f → IsFunctional extent g → reach f + reach g ≤ extent.depth → 70 * (norm f * norm g) ≤ limit → IsFunctional extent (shuffle_product extent f g) }
{}
