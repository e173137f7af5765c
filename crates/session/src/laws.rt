//! Laws of runs. The functions do nothing: what each ensures is the law.
ghost use Rattle.std.specs.Prelude.{◌≡◌, ℕ, List, None};
ghost use Rattle.session.specs.Play.{illegal_place, round_order};
ghost use Rattle.session.specs.Logarithms.{ExpandIn};
ghost use Rattle.session.specs.Versions.{NeverFall};

use script_reader::Script;

/// The Hall coordinates that are due, expanded by brackets, are exactly the logarithm: for each answer to a query for a logarithm and each
/// word of k letters, the sum over the members of the Hall set, with their coordinates, of their expansions is k times the logarithm of
/// the signature of the rows. (Reutenauer, Free Lie Algebras, theorem 1.4 and section 3.1.)
pub fn logarithms_expand(script: &Script)
    ensures { (capacity : ℕ) → (order : List ℕ) → ExpandIn capacity script.now order }
{
    let _shape = script.shape();
}

/// The steps of a round are legal: each is of a session that has anything to do, and after the last one none has.
pub fn round_is_legal(script: &Script)
    ensures { (capacity : ℕ) → illegal_place capacity script.now (round_order capacity script.now) ≡ None }
{
    let _shape = script.shape();
}

/// The versions of the answers never fall along an order, those of queries that name one left out. So the version of such an answer is no
/// older than any that its session had seen.
pub fn versions_never_fall(script: &Script)
    ensures { (capacity : ℕ) → (order : List ℕ) → NeverFall capacity script.now order }
{
    let _shape = script.shape();
    book::laws::versions_never_fall();
}
