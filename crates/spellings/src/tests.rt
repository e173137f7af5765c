use crate::{
    is_content, is_name, line_at, name_text, plain, plain_number, tick, whole_number, word_in,
    words_in,
};
use std::test::Fail;

#[test]
fn numbers(rt: HostRuntime) {
    for (word, most, want) in [
        ("00001", 1, Some(1)),
        ("00000000000000000007", u64::MAX, Some(7)),
        ("000000000000000000007", u64::MAX, None),
        ("18446744073709551615", u64::MAX, Some(18446744073709551615)),
        ("18446744073709551616", u64::MAX, None),
        ("99999999999999999999", u64::MAX, None),
        ("4294967295", 4294967295, Some(4294967295)),
        ("4294967296", 4294967295, None),
        ("", 9, None),
        ("+1", 9, None),
        ("-1", 9, None),
    ] {
        assert_eq!(rt; plain_number(word.as_bytes(), most), want, "{word}");
    }
    for (word, want) in [
        ("7", Some(7)),
        ("-0", Some(0)),
        ("-00000000000000000012", Some(-12)),
        ("-000000000000000000012", None),
        ("9223372036854775807", Some(9223372036854775807)),
        ("9223372036854775808", None),
        ("-9223372036854775808", Some(-9223372036854775808)),
        ("-9223372036854775809", None),
        ("-", None),
        ("--1", None),
        ("", None),
    ] {
        assert_eq!(rt; whole_number(word.as_bytes()), want, "{word}");
    }
}

#[test]
fn times(rt: HostRuntime) {
    for (word, most, want) in [
        ("0", 0, Some(0)),
        ("1/2", 4294967296, Some(32768)),
        ("3/4", 4294967296, Some(49152)),
        ("3/0004", 4294967296, Some(49152)),
        ("1/3", 4294967296, None),
        ("65535/65536", 4294967296, Some(65535)),
        ("1/131072", 4294967296, None),
        ("65536", 4294967296, Some(4294967296)),
        ("65536", 4294967295, None),
        ("4294967295/65536", 4294967295, Some(4294967295)),
        ("4294967297/65536", 4294967296, None),
        ("99999999999999999999", u64::MAX, None),
        ("99999999999999999999/65536", u64::MAX, None),
        ("1/0", 4294967296, None),
        ("/2", 4294967296, None),
        ("1/", 4294967296, None),
        ("4/2/2", 4294967296, None),
        ("-1", 4294967296, None),
    ] {
        assert_eq!(rt; tick(word.as_bytes(), most), want, "{word}");
    }
}

#[test]
fn names(rt: HostRuntime) -> Result<(), Fail> {
    for (word, want) in [
        ("a", true),
        ("Z9_z", true),
        ("remove", true),
        ("abcdefghijklmnopqrstuvwxyz012345", true),
        ("abcdefghijklmnopqrstuvwxyz0123456", false),
        ("_a", false),
        ("9a", false),
        ("a-b", false),
        ("", false),
    ] {
        assert_eq!(rt; is_name(word.as_bytes()), want, "{word}");
        if is_name(word.as_bytes()) {
            let text = name_text(rt.alloc(), word.as_bytes())?;
            assert_eq!(rt; text.as_str(), word);
        }
    }
    Ok(())
}

#[test]
fn lines(rt: HostRuntime) -> Result<(), Fail> {
    let text = "shape 2  2\r\n\t# a\r\r\n\n \t\r\n\tsig\t0 1 ".as_bytes();
    let mut from = 0;
    for (line, content, words) in [
        ("shape 2  2", true, 3),
        ("\t# a\r", false, 2),
        ("", false, 0),
        (" \t", false, 0),
        ("\tsig\t0 1 ", true, 3),
    ] {
        let (end, after) = line_at(text, from).expect(&rt, "a line");
        let first = &text[from..end];
        assert_eq!(rt; first, line.as_bytes(), "{line}");
        assert_eq!(rt; is_content(first), content, "{line}");
        assert_eq!(rt; words_in(rt.alloc(), first)?.len(), words, "{line}");
        from = after;
    }
    assert_eq!(rt; from, text.len());
    assert!(rt; line_at(text, from).is_none());
    for (word, want) in words_in(rt.alloc(), "\tsig\t0 1/2 ".as_bytes())?
        .iter()
        .zip(["sig", "0", "1/2"].iter())
    {
        assert_eq!(rt; *word, want.as_bytes());
    }
    Ok(())
}

#[test]
fn places(rt: HostRuntime) {
    let line = "\tsig\t0 1/2 ".as_bytes();
    for (from, place) in [
        (0, Some((1, 4))),
        (4, Some((5, 6))),
        (6, Some((7, 10))),
        (10, None),
        (11, None),
    ] {
        assert_eq!(rt; word_in(line, from), place, "from {from}");
    }
    for (bytes, from, place) in [
        ("", 0, None),
        ("\r", 0, Some((0, 1))),
        ("\n\r\n", 0, Some((0, 1))),
        ("\n\r\n", 1, Some((1, 3))),
        ("a\r\r", 0, Some((2, 3))),
        ("a\n", 2, None),
    ] {
        assert_eq!(rt;
            line_at(bytes.as_bytes(), from),
            place,
            "{bytes:?} from {from}"
        );
    }
    assert_eq!(rt;
        plain("99999999999999999999".as_bytes()),
        Some(99_999_999_999_999_999_999)
    );
    assert_eq!(rt; plain("099999999999999999999".as_bytes()), None);
    assert_eq!(rt; plain("-1".as_bytes()), None);
}
