ghost use Rattle.std.specs.Prelude.{◌≡◌, ◌<◌, length, IfOk};
ghost use Rattle.functionals.specs.Bounds.{IsSmall};

use crate::{Functional, FunctionalFault, ShuffleFault, WordTerm, apply, shuffle_product};
use std::alloc::Global;
use std::process::Abort;
use std::test::Fail;
use tensor_product::{Overflow, ProductFault, Sig, exp_row};
use words::{Free, Memory, Shape, Steps, Word};

const LIMIT: i128 = i128::MAX;

fn list(alloc: Global, terms: &[(i128, &[u32])]) -> Result<Vec<WordTerm>, Memory> {
    let mut list = Vec::new(alloc);
    for (coefficient, letters) in terms {
        let word = Word::of(Vec::from_slice(alloc, letters)?);
        list.push(WordTerm {
            word,
            coefficient: *coefficient,
        })?;
    }
    Ok(list)
}

fn functional(alloc: Global, shape: Shape, terms: &[(i128, &[u32])]) -> Result<Functional, Fail>
    ensures { IfOk result (λ f. f.extent ≡ shape) }
{
    let f = Functional::of(shape, list(alloc, terms)?)?;
    Ok(f)
}

fn terms_are(rt: &impl Abort, f: &Functional, expected: &[(i128, &[u32])]) {
    assert_eq!(rt; f.terms().len(), expected.len());
    for (term, (coefficient, letters)) in f.terms().iter().zip(expected) {
        assert_eq!(rt; term.coefficient, *coefficient);
        assert_eq!(rt; term.word.list(), *letters);
    }
}

/// The exponential of a row, with a count of its own.
fn exponential(alloc: Global, shape: Shape, row: &[i64]) -> Result<Sig, ProductFault>
    requires row { length row.now ≡ shape.width }
    ensures { IfOk result (λ s. s.tensor.extent ≡ shape) }
{
    let mut steps = Steps::new(Free);
    exp_row(alloc, shape, row, &mut steps)
}

#[test]
fn products(rt: HostRuntime) -> Result<(), Fail> {
    let alloc = rt.alloc();
    let shape = Shape::new(2, 2)?;
    let first = functional(alloc, shape, &[(1, &[1])])?;
    let second = functional(alloc, shape, &[(1, &[2])])?;
    let mixed = shuffle_product(alloc, &first, &second)?;
    terms_are(&rt, &mixed, &[(1, &[1, 2]), (1, &[2, 1])]);
    let square = shuffle_product(alloc, &first, &first)?;
    terms_are(&rt, &square, &[(2, &[1, 1])]);
    let difference = functional(alloc, shape, &[(1, &[1]), (-1, &[2])])?;
    let sum = functional(alloc, shape, &[(1, &[1]), (1, &[2])])?;
    let cancelled = shuffle_product(alloc, &difference, &sum)?;
    terms_are(&rt, &cancelled, &[(2, &[1, 1]), (-2, &[2, 2])]);
    let one = functional(alloc, shape, &[(1, &[])])?;
    terms_are(
        &rt,
        &shuffle_product(alloc, &one, &sum)?,
        &[(1, &[1]), (1, &[2])],
    );
    let none = functional(alloc, shape, &[])?;
    terms_are(&rt, &shuffle_product(alloc, &none, &sum)?, &[]);
    Ok(())
}

#[test]
fn products_refused(rt: HostRuntime) -> Result<(), Fail> {
    let alloc = rt.alloc();
    let shape = Shape::new(2, 2)?;
    let long = functional(alloc, shape, &[(18446744073709551616, &[1, 1])])?;
    let great = functional(alloc, shape, &[(-18446744073709551616, &[1])])?;
    let half = functional(alloc, shape, &[(9223372036854775808, &[2])])?;
    let reach = shuffle_product(alloc, &long, &half);
    assert!(rt; matches!(&reach, Err(ShuffleFault::Reach(3))));
    let size = shuffle_product(alloc, &great, &half);
    assert!(rt;
        matches!(
            &size,
            Err(ShuffleFault::Size(18446744073709551616, 9223372036854775808))
        )
    );
    Ok(())
}

#[test]
fn values(rt: HostRuntime) -> Result<(), Fail> {
    let alloc = rt.alloc();
    let square = Shape::new(2, 2)?;
    let high = functional(
        alloc,
        square,
        &[(85070591730234615865843651857942052864, &[1, 1])],
    )?;
    let unit = Sig::unit(alloc, square)?;
    assert_eq!(rt; apply(&high, &unit)?, 0);
    let line = Shape::new(1, 8)?;
    let greatest = exponential(alloc, line, &[60096])?;
    let one = functional(alloc, line, &[(1, &[1])])?;
    assert_eq!(rt; apply(&one, &greatest)?, 2423070720);
    let much = functional(
        alloc,
        line,
        &[(1329227995784915872903807060280344576, &[1])],
    )?;
    assert!(rt; matches!(&apply(&much, &greatest), Err(Overflow(60096))));
    Ok(())
}

#[test]
fn value_of_a_product(rt: HostRuntime) -> Result<(), Fail> {
    let alloc = rt.alloc();
    let shape = Shape::new(2, 2)?;
    let s = exponential(alloc, shape, &[3, 5])?;
    let f = functional(alloc, shape, &[(2, &[]), (1, &[1])])?;
    let g = functional(alloc, shape, &[(-1, &[2])])?;
    let product = shuffle_product(alloc, &f, &g)?;
    assert_eq!(rt; apply(&f, &s)?, 10);
    assert_eq!(rt; apply(&g, &s)?, -10);
    assert_eq!(rt; apply(&product, &s)?, -50);
    Ok(())
}

/// A functional whose norm is at most 2^47.
fn small(
    rt: &impl Abort,
    alloc: Global,
    shape: Shape,
    terms: &[(i128, &[u32])],
) -> Result<Functional, Fail>
    ensures extent { IfOk result (λ f. f.extent ≡ shape) }
    ensures small { IfOk result (λ f. IsSmall f.terms) }
{
    let f = functional(alloc, shape, terms)?;
    assert!(rt; f.norm() <= 140737488355328);
    Ok(f)
}

#[test]
fn bounds(rt: HostRuntime) -> Result<(), Fail> {
    let alloc = rt.alloc();
    let line = Shape::new(1, 8)?;
    let first = small(&rt, alloc, line, &[(1, &[1])])?;
    let last = small(&rt, alloc, line, &[(1, &[1, 1, 1, 1, 1, 1, 1, 1])])?;
    assert!(rt; first.bound().fits(60096));
    assert!(rt; !first.bound().fits(60097));
    assert!(rt; !last.bound().fits(60096));
    let s = exponential(alloc, line, &[45000])?;
    assert!(rt; first.bound().fits(s.weight()));
    assert_eq!(rt; apply(&first, &s)?, 1814400000);
    assert!(rt; last.bound().fits(s.weight()));
    assert_eq!(rt; apply(&last, &s)?, 16815125390625000000000000000000000000);
    Ok(())
}

fn fault_of(
    alloc: Global,
    shape: Shape,
    terms: &[(i128, &[u32])],
) -> Result<Option<FunctionalFault>, Memory> {
    match Functional::of(shape, list(alloc, terms)?) {
        Ok(_f) => Ok(None),
        Err(fault) => Ok(Some(fault)),
    }
}

#[test]
fn terms_refused(rt: HostRuntime) -> Result<(), Fail> {
    let alloc = rt.alloc();
    let shape = Shape::new(2, 2)?;
    let place = |i: usize| Some(FunctionalFault::Place(i));
    assert_eq!(rt; fault_of(alloc, shape, &[(1, &[1]), (1, &[3])])?, place(1));
    assert_eq!(rt; fault_of(alloc, shape, &[(1, &[0])])?, place(0));
    assert_eq!(rt; fault_of(alloc, shape, &[(1, &[1, 1, 1])])?, place(0));
    assert_eq!(rt; fault_of(alloc, shape, &[(1, &[1]), (1, &[1])])?, place(1));
    assert_eq!(rt;
        fault_of(alloc, shape, &[(1, &[1, 1]), (1, &[2])])?,
        place(1)
    );
    assert_eq!(rt; fault_of(alloc, shape, &[(0, &[1])])?, place(0));
    assert_eq!(rt; fault_of(alloc, shape, &[(i128::MIN, &[1])])?, place(0));
    Ok(())
}

#[test]
fn norms_refused(rt: HostRuntime) -> Result<(), Fail> {
    let alloc = rt.alloc();
    let shape = Shape::new(2, 2)?;
    let past = fault_of(alloc, shape, &[(LIMIT, &[1]), (-1, &[2])])?;
    assert_eq!(rt; past, Some(FunctionalFault::Norm(1)));
    let later = fault_of(alloc, shape, &[(LIMIT, &[1]), (-1, &[2]), (0, &[1, 1])])?;
    assert_eq!(rt; later, Some(FunctionalFault::Place(2)));
    Ok(())
}

#[test]
fn sizes(rt: HostRuntime) -> Result<(), Fail> {
    let f = functional(
        rt.alloc(),
        Shape::new(2, 2)?,
        &[(2, &[]), (-3, &[2]), (5, &[1, 2])],
    )?;
    assert_eq!(rt; f.norm(), 10);
    assert_eq!(rt; f.reach(), 2);
    assert_eq!(rt; f.mass(1), 3);
    Ok(())
}
