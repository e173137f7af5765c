use crate::{Wish, read_words};
use std::alloc::{AllocError, Global};
use std::test::Fail;
use words::Memory;

// The words between single spaces.
fn words_of(alloc: Global, line: &str) -> Result<Vec<String>, Memory> {
    let mut words = Vec::new(alloc);
    for word in line.split(' ') {
        words.push(String::from_str(alloc, word)?)?;
    }
    Ok(words)
}

// The wish in one line.
fn text_of(alloc: Global, wish: &Wish) -> Result<String, AllocError> {
    match wish {
        Wish::Refused => String::from_str(alloc, "refused"),
        Wish::Gen { n, capacity } => format!(in alloc; "gen {n} {}", capacity.get()),
        Wish::Given {
            order,
            capacity,
            form,
        } => format!(in alloc; "given {:?} {} {form:?}", order.list(), capacity.get()),
        Wish::Threads { capacity, form } => format!(in alloc;
            "threads {} {form:?}",
            capacity.get()
        ),
        Wish::Cbh => String::from_str(alloc, "cbh"),
    }
}

/// Command lines that are refused, their words cut at each space.
const REFUSED: [&str; 59] = [
    "",
    "x",
    "-",
    "--",
    "--help",
    "--version",
    "--orders=1",
    "--json=",
    "--json --json",
    "--json=--json",
    "--cache",
    "--json --cache",
    "--cache=",
    "--cache ",
    "--cache=0",
    "--cache 0",
    "--cache 16385",
    "--cache 000001",
    "--cache -1",
    "--cache=-1",
    "--cache +1",
    "--cache --json",
    "--cache 1 --cache=2",
    "--cache none",
    "--cache 1 2",
    "--order",
    "--order=",
    "--order ",
    "--order 0",
    "--order 17",
    "--order 1,,1",
    "--order ,1",
    "--order 1,",
    "--order -1",
    "--order=1,-1",
    "--order none,1",
    "--order none --order none",
    "--gen",
    "--gen=",
    "--gen 0",
    "--gen=10001",
    "--gen=-8",
    "--gen 8 --gen 8",
    "--gen 8 --json",
    "--json --gen 8",
    "--gen 8 --order none",
    "--order=1 --gen=8",
    "--cbh --json",
    "--json --cbh",
    "--cbh --cache 5",
    "--cbh --order 1",
    "--order 1 --cbh",
    "--cbh --gen 8",
    "--gen 8 --cbh",
    "--cbh --cbh",
    "--cbh=",
    "--cbh=1",
    "--cache --cbh",
    "--cbh ",
];

#[test]
fn refused_words(rt: HostRuntime) -> Result<(), Fail> {
    for line in REFUSED {
        let wish = read_words(rt.alloc(), &words_of(rt.alloc(), line)?)?;
        assert_eq!(rt; text_of(rt.alloc(), &wish)?.as_str(), "refused", "{line}");
    }
    Ok(())
}

#[test]
fn accepted_words(rt: HostRuntime) -> Result<(), Fail> {
    let wish = read_words(rt.alloc(), &[])?;
    assert_eq!(rt; text_of(rt.alloc(), &wish)?.as_str(), "threads 4096 Text");
    for (line, want) in [
        ("--cbh", "cbh"),
        ("--json", "threads 4096 Json"),
        ("--cache 1", "threads 1 Text"),
        ("--cache=16384", "threads 16384 Text"),
        ("--cache 00001", "threads 1 Text"),
        ("--gen 1", "gen 1 4096"),
        ("--gen=10000", "gen 10000 4096"),
        ("--order none", "given [] 4096 Text"),
        ("--order=none", "given [] 4096 Text"),
        ("--order 1", "given [1] 4096 Text"),
        ("--order=16,2,00001,2", "given [16, 2, 1, 2] 4096 Text"),
        ("--json --cache 9", "threads 9 Json"),
        ("--cache=9 --gen 8", "gen 8 9"),
        ("--gen=8 --cache 9", "gen 8 9"),
        ("--order 1,2 --cache=9", "given [1, 2] 9 Text"),
        ("--cache 9 --order=none", "given [] 9 Text"),
        ("--json --order 1", "given [1] 4096 Json"),
        ("--order=1 --json --cache=9", "given [1] 9 Json"),
    ] {
        let wish = read_words(rt.alloc(), &words_of(rt.alloc(), line)?)?;
        assert_eq!(rt; text_of(rt.alloc(), &wish)?.as_str(), want, "{line}");
    }
    Ok(())
}
