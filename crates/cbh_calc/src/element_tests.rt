use crate::read_moves;
use script_reader::{Reason, ScriptFault};
use std::alloc::{AllocError, Global};
use std::test::Fail;

/// Why the bytes are no list of elements, `None` where they are one.
fn fault_of(alloc: Global, bytes: &[u8]) -> Option<ScriptFault> {
    read_moves(alloc, bytes).err()
}

/// Lists whose fault is in the line of this number.
const BAD: [(&str, u64, Reason); 22] = [
    ("", 1, Reason::End),
    ("# none\n", 2, Reason::End),
    ("# none", 2, Reason::End),
    ("1 2", 1, Reason::Place),
    ("\n1\u{0} 2", 2, Reason::Byte),
    ("Shape 2 2", 1, Reason::Place),
    ("shape 2", 1, Reason::Fields),
    ("shape x y z", 1, Reason::Fields),
    ("shape x 2", 1, Reason::Number),
    ("shape 4294967296 2", 1, Reason::Number),
    ("shape 13 9", 1, Reason::Width),
    ("shape 2 9", 1, Reason::Depth),
    ("shape 7 4", 1, Reason::Words),
    ("shape 2 2\nshape 2 2", 2, Reason::Number),
    ("shape 2 1\nshape 2 1", 2, Reason::Fields),
    ("shape 2 3\n1 2 3 4", 2, Reason::Fields),
    ("shape 2 3\n1 2 x 4", 2, Reason::Fields),
    ("shape 2 3\n1 2 x", 2, Reason::Number),
    ("shape 2 3\n1 9223372036854775808", 2, Reason::Number),
    ("shape 2 3\n1 2\u{1}", 2, Reason::Byte),
    ("shape 2 3\r\r\n1 2", 1, Reason::Byte),
    ("shape 2 3\n# x\n\n1", 4, Reason::Fields),
];

#[test]
fn bad_lists(rt: HostRuntime) {
    for (text, line, reason) in BAD {
        assert_eq!(rt;
            fault_of(rt.alloc(), text.as_bytes()),
            Some(ScriptFault::Line(line, reason)),
            "{text}"
        );
    }
}

#[test]
fn elements_in_order(rt: HostRuntime) -> Result<(), Fail> {
    let text = "# \u{0}\r\n\tshape 2 3\r\n\n1 -2\r\n#\n 3 4\t5 \n-0 0 6 7 9223372036854775807";
    let list = read_moves(rt.alloc(), text.as_bytes())
        .ok()
        .ok_or("refused")?;
    assert_eq!(rt; (list.shape.width(), list.shape.depth()), (2, 3));
    let due: [[&[i64]; 3]; 3] = [
        [&[1, -2], &[], &[]],
        [&[3, 4], &[5], &[]],
        [&[0, 0], &[6], &[7, i64::MAX]],
    ];
    assert_eq!(rt; list.moves.len(), due.len());
    for (x, parts) in list.moves.iter().zip(due) {
        assert_eq!(rt; x.shape().depth(), 3);
        for (before, part) in parts.iter().enumerate() {
            assert_eq!(rt; x.part(before as u32 + 1), *part);
        }
    }
    Ok(())
}

/// A comment of 78 bytes: a shape line and 53,773 of them are as long as a list may be.
const COMMENT: &str =
    "#############################################################################\n";

/// A shape line, and then a line over and over, and a last one.
fn repeated(alloc: Global, line: &str, count: u32, last: &str) -> Result<Vec<u8>, AllocError> {
    let mut bytes = Vec::from_slice(alloc, "shape 1 1\n".as_bytes())?;
    for _i in 0..count {
        bytes.extend_from_slice(line.as_bytes())?;
    }
    bytes.extend_from_slice(last.as_bytes())?;
    Ok(bytes)
}

#[test]
fn long_lists(rt: HostRuntime) -> Result<(), Fail> {
    for (line, count, last, fault) in [
        ("-7\n", 0, "", None),
        ("-7\n", 4_095, "7", None),
        (
            "-7\n",
            4_096,
            "7",
            Some(ScriptFault::Line(4_098, Reason::Commands)),
        ),
        (
            "-7\n",
            4_096,
            "x",
            Some(ScriptFault::Line(4_098, Reason::Number)),
        ),
        ("-7\n", 4_096, "# 7", None),
        (COMMENT, 53_773, "", None),
        (COMMENT, 53_773, "#", Some(ScriptFault::Size)),
    ] {
        let bytes = repeated(rt.alloc(), line, count, last)?;
        assert_eq!(rt;
            fault_of(rt.alloc(), &bytes),
            fault,
            "{count} of {line}, {last}"
        );
    }
    Ok(())
}
