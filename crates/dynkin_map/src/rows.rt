ghost use Rattle.std.specs.Prelude.{◌≡◌, ◌++◌, ◌∷◌, [], ◌-◌, ◌<◌, ◌≤◌, length, take, drop, slice_index_or, OnOk, OnErr};
ghost use Rattle.dynkin_map.specs.Rows.{rows_from, AreEnds};

use lie_bracket::Term;
use std::alloc::Global;
use std::marker::Model;
use words::Memory;

/// Lists of terms, kept one after another in one list.
#[derive(Drop)]
pub(crate) struct Rows {
    terms: Vec<Term>,
    ends: Vec<usize>,
}

impl Model for Rows {
    ghost use Rattle.std.specs.Prelude.{List, length};
    ghost use Rattle.lie_bracket.specs.declared.term.Term.{Term};
    ghost use Rattle.dynkin_map.specs.Rows.{rows_from, AreEnds};

    ghost Value = { List (List Term) };

    ghost view = { λ r. rows_from r.terms.items 0 r.ends.items };

    ghost invariant = { λ r. AreEnds 0 r.ends.items (length r.terms.items) };
}

/// Appends a row and its end, or neither.
fn push_row(terms: &mut Vec<Term>, ends: &mut Vec<usize>, row: &[Term]) -> Result<(), Memory>
    requires ends { AreEnds 0 ends.old.items (length terms.old.items) }
    ensures ends { AreEnds 0 ends.new.items (length terms.new.items) }
    ensures pushed { OnOk result (rows_from terms.new.items 0 ends.new.items ≡ rows_from terms.old.items 0 ends.old.items ++ row.now ∷ []) }
    ensures same { OnErr result (rows_from terms.new.items 0 ends.new.items ≡ rows_from terms.old.items 0 ends.old.items) }
{
    let before = terms.len();
    terms.extend_from_slice(row)?;
    if ends.push(terms.len()).is_err() {
        terms.truncate(before);
        return Err(Memory);
    }
    Ok(())
}

/// Where a row begins.
fn start_of(ends: &[usize], at: usize) -> usize
    requires { at < length ends.now }
    ensures { result ≡ slice_index_or (0 ∷ ends.now) at 0 }
{
    if at == 0 { 0 } else { ends[at - 1] }
}

/// The terms from one place up to another.
fn part(terms: &[Term], from: usize, to: usize) -> &[Term]
    requires order { from ≤ to }
    requires end { to ≤ length terms.now }
    ensures { result.now ≡ take (to - from) (drop from terms.now) }
{
    &terms[from..to]
}

/// A row by its ends.
fn row_of<'a>(terms: &'a [Term], ends: &[usize], at: usize) -> &'a [Term]
    requires ends { AreEnds 0 ends.now (length terms.now) }
    requires at { at < length ends.now }
    ensures { result.now ≡ slice_index_or (rows_from terms.now 0 ends.now) at [] }
{
    part(terms, start_of(ends, at), ends[at])
}

impl Rows {
    /// No rows.
    pub(crate) fn new(alloc: Global) -> Rows
        ensures { result ≡ [] }
    {
        Rows {
            terms: Vec::new(alloc),
            ends: Vec::new(alloc),
        }
    }

    /// Appends a row.
    pub(crate) fn push(&mut self, row: &[Term]) -> Result<(), Memory>
        ensures pushed { OnOk result (self.new ≡ self.old ++ row.now ∷ []) }
        ensures same { OnErr result (self.new ≡ self.old) }
    {
        push_row(&mut self.terms, &mut self.ends, row)
    }

    /// The row at a place, from 0.
    pub(crate) fn row(&self, at: usize) -> &[Term]
        requires { at < length self.now }
        ensures { result.now ≡ slice_index_or self.now at [] }
    {
        row_of(&self.terms, &self.ends, at)
    }
}
