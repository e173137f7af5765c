use crate::shuffles;
use std::test::Fail;

#[test]
fn a_letter_and_two(rt: HostRuntime) -> Result<(), Fail> {
    let mut letters = Vec::new(rt.alloc());
    for word in shuffles(rt.alloc(), &[1], &[2, 3])?.iter() {
        letters.extend_from_slice(word.list())?;
    }
    assert_eq!(rt; letters.as_slice(), [1, 2, 3, 2, 1, 3, 2, 3, 1].as_slice());
    Ok(())
}

#[test]
fn an_empty_word(rt: HostRuntime) -> Result<(), Fail> {
    for (u, v) in [([].as_slice(), [2, 1].as_slice()), (&[2, 1], &[])] {
        let words = shuffles(rt.alloc(), u, v)?;
        assert_eq!(rt; words.len(), 1);
        assert_eq!(rt; words[0].list(), [2, 1].as_slice());
    }
    assert_eq!(rt;
        shuffles(rt.alloc(), &[1, 1, 1, 1], &[1, 1, 1, 1])?.len(),
        70
    );
    Ok(())
}

#[test]
fn words_of_five_and_of_eight_letters(rt: HostRuntime) -> Result<(), Fail> {
    for (u, v, count) in [
        ([1, 2].as_slice(), [3, 4, 5].as_slice(), 10),
        (&[1, 2, 3, 4], &[5, 6, 7, 8], 70),
        (&[1], &[2, 3, 4, 5, 6, 7, 8], 8),
    ] {
        let words = shuffles(rt.alloc(), u, v)?;
        assert_eq!(rt; words.len(), count);
        for (word, first, second) in [(words.first(), u, v), (words.last(), v, u)] {
            let mut letters = Vec::from_slice(rt.alloc(), first)?;
            letters.extend_from_slice(second)?;
            assert_eq!(rt; word.ok_or("no word")?.list(), letters.as_slice());
        }
    }
    Ok(())
}
