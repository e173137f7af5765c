use crate::{Command, Edit, Kind, Reason, ScriptFault, read_script};
use std::alloc::{AllocError, Global};
use std::test::Fail;

/// Why the bytes are no script, `None` where they are one.
fn fault_of(alloc: Global, bytes: &[u8]) -> Option<ScriptFault> {
    read_script(alloc, bytes).err()
}

/// A text, and then a line over and over.
fn repeated(alloc: Global, head: &str, line: &str, count: u32) -> Result<Vec<u8>, AllocError> {
    let mut bytes = Vec::from_slice(alloc, head.as_bytes())?;
    for _i in 0..count {
        bytes.extend_from_slice(line.as_bytes())?;
    }
    Ok(bytes)
}

/// Scripts whose fault is in their first lines, with the bad line and its reason.
const FIRST_LINES: [(&str, u64, Reason); 33] = [
    ("", 1, Reason::End),
    ("\n", 2, Reason::End),
    ("\r", 2, Reason::End),
    ("shape 2 2", 2, Reason::End),
    ("# no session\n\nshape 2 2\n#\n", 5, Reason::End),
    ("shape 2 2\u{1}", 1, Reason::Byte),
    ("shape\r 2 2", 1, Reason::Byte),
    ("shape 2 2\r\r\n", 1, Reason::Byte),
    ("\u{7f}shapes", 1, Reason::Byte),
    ("shapes 2 2", 1, Reason::Keyword),
    ("\nShape 2 2", 2, Reason::Keyword),
    ("session 1", 1, Reason::Place),
    ("log", 1, Reason::Place),
    ("watch", 1, Reason::Place),
    ("shape 2 2\n\nshape", 3, Reason::Place),
    ("shape 2 2\nappend a", 2, Reason::Place),
    ("shape 2 2\ncorrect a", 2, Reason::Place),
    ("shape 2 2\nparts", 2, Reason::Place),
    ("shape x y z", 1, Reason::Fields),
    ("shape x", 1, Reason::Fields),
    ("shape 2 x", 1, Reason::Number),
    ("shape 4294967296 2", 1, Reason::Number),
    ("shape 13 x", 1, Reason::Number),
    ("shape 4294967295 2", 1, Reason::Width),
    ("shape 13 2", 1, Reason::Width),
    ("shape 0 9", 1, Reason::Width),
    ("shape 2 9", 1, Reason::Depth),
    ("shape 2 0", 1, Reason::Depth),
    ("shape 7 4", 1, Reason::Words),
    ("shape 2 2\nsession", 2, Reason::Fields),
    ("shape 2 2\nsession x", 2, Reason::Number),
    ("shape 2 2\nsession 0", 2, Reason::Session),
    ("shape 2 2\nsession 2\nshape", 2, Reason::Session),
];

#[test]
fn first_lines(rt: HostRuntime) {
    for (text, line, reason) in FIRST_LINES {
        assert_eq!(rt;
            fault_of(rt.alloc(), text.as_bytes()),
            Some(ScriptFault::Line(line, reason)),
            "{text}"
        );
    }
}

/// Lines after `shape 2 2`, with the bad line of the script and its reason.
const WATCHES: [(&str, u64, Reason); 9] = [
    ("watch 0 1 0", 3, Reason::End),
    ("watch 0 1", 2, Reason::Fields),
    ("watch 0 1 0 at 1", 2, Reason::Fields),
    ("watch 0 x y", 2, Reason::Time),
    ("watch 0 65537 -", 2, Reason::Time),
    ("watch 2 1 x", 2, Reason::Number),
    ("watch 2 1 17", 2, Reason::Interval),
    ("watch 0 65536 17", 2, Reason::Resolution),
    ("watch 1 1 16\nwatches", 3, Reason::Keyword),
];

#[test]
fn watches(rt: HostRuntime) -> Result<(), Fail> {
    for (text, line, reason) in WATCHES {
        let script = format!(in rt.alloc(); "shape 2 2\n{text}")?;
        assert_eq!(rt;
            fault_of(rt.alloc(), script.as_bytes()),
            Some(ScriptFault::Line(line, reason)),
            "{text}"
        );
    }
    Ok(())
}

#[test]
fn number_of_watches(rt: HostRuntime) -> Result<(), Fail> {
    for (count, last, reason) in [
        (63, "watch 0 1 0", None),
        (64, "watch 0 1 17", Some(Reason::Resolution)),
        (64, "watch 0 1 0", Some(Reason::Watches)),
    ] {
        let head = "shape 2 2\nsession 1\n";
        let mut bytes = repeated(rt.alloc(), head, "watch 0 1 0\n", count)?;
        bytes.extend_from_slice(last.as_bytes())?;
        let fault = reason.map(|reason| ScriptFault::Line(u64::from(count) + 3, reason));
        assert_eq!(rt; fault_of(rt.alloc(), &bytes), fault, "{last} after {count}");
    }
    Ok(())
}

/// Watches before the first session and inside two sessions.
const WATCHED: &str =
    "shape 2 2\nwatch 1/2 5/2 0\nsession 1\nsig 0 1 0\nwatch 0 65536 16\nsig 0 1 0\nsession 2\nwatch 3/4 3/4 1\nlog 0 1 0";

#[test]
fn watched_intervals(rt: HostRuntime) -> Result<(), Fail> {
    let script = read_script(rt.alloc(), WATCHED.as_bytes())
        .ok()
        .ok_or("refused")?;
    let due = [(0, 131_072), (0, 4_294_967_296), (32_768, 32_768)];
    assert_eq!(rt; script.watches().len(), due.len());
    for (interval, ends) in script.watches().iter().zip(due) {
        assert_eq!(rt; (interval.from, interval.to), ends);
    }
    assert_eq!(rt; script.sessions().len(), 2);
    for (session, commands) in script.sessions().iter().zip([2, 1]) {
        assert_eq!(rt; session.list().len(), commands);
    }
    Ok(())
}

/// Lines after `shape 2 2` and `session 1`, with the bad line of the script and its reason.
const COMMANDS: [(&str, u64, Reason); 51] = [
    ("appends a 0 2 3", 3, Reason::Keyword),
    ("session", 3, Reason::Fields),
    ("session 1", 3, Reason::Session),
    ("session 3", 3, Reason::Session),
    ("session x", 3, Reason::Number),
    ("correct a 2", 3, Reason::Fields),
    ("correct 1 - -", 3, Reason::Name),
    ("correct a 2 -", 3, Reason::Number),
    ("remove", 3, Reason::Fields),
    ("remove a b", 3, Reason::Fields),
    ("remove 1", 3, Reason::Name),
    ("log x", 3, Reason::Fields),
    ("log 0 1 x", 3, Reason::Number),
    ("log 2 1 0 at 1", 3, Reason::Interval),
    ("sig x y z at x", 3, Reason::Time),
    ("sig 2 1 0 at 18446744073709551616", 3, Reason::Number),
    ("sig 2 1 0 at 18446744073709551615", 3, Reason::Interval),
    ("sig 0 1 0 in 0", 3, Reason::Fields),
    ("sig 0 1 0 at", 3, Reason::Fields),
    ("append a 0 2", 3, Reason::Fields),
    ("append 1 x 2", 3, Reason::Fields),
    ("append 1 x 2 -", 3, Reason::Name),
    ("append a x 2 -", 3, Reason::Time),
    ("append a 65536 2 3", 3, Reason::Time),
    ("append a 0 2 -", 3, Reason::Number),
    ("append a 0 2 9223372036854775808", 3, Reason::Number),
    ("sig x 0 x", 3, Reason::Time),
    ("sig 0 65537 17", 3, Reason::Time),
    ("sig 2 1 x", 3, Reason::Number),
    ("sig 2 1 0", 3, Reason::Interval),
    ("sig 2 1 17", 3, Reason::Interval),
    ("sig 0 65536 17", 3, Reason::Resolution),
    ("# x\n \nsig 0 1 17\nappend a 0 2", 5, Reason::Resolution),
    ("append a 0 2 3\nappend a 0 2\nsig 2 1 0", 4, Reason::Fields),
    ("append 1 x 2 3 4 5", 3, Reason::Fields),
    ("append 1 x 2 3 -", 3, Reason::Name),
    ("append a x 2 3 -", 3, Reason::Time),
    ("append a 0 2 3 -", 3, Reason::Number),
    ("append a 0 2 3 9223372036854775808", 3, Reason::Number),
    ("correct 1 - - - -", 3, Reason::Fields),
    ("correct a 2 3 -", 3, Reason::Number),
    ("parts 1 2 0", 3, Reason::Fields),
    ("parts x y z w", 3, Reason::Number),
    ("parts 1 18446744073709551616 x y", 3, Reason::Number),
    ("parts 1 -2 0 1", 3, Reason::Number),
    ("parts 17 2 1 0 x", 3, Reason::Time),
    ("parts 1 2 0 65537", 3, Reason::Time),
    ("parts 17 2 0 1 1/2", 3, Reason::Interval),
    ("parts 17 2 0 1", 3, Reason::Resolution),
    (
        "parts 16 2 0 0 65536\nparts 4294967296 2 0 1",
        4,
        Reason::Number,
    ),
    (
        "parts 0 18446744073709551615 1 1\npart 0 0 0 1",
        4,
        Reason::Keyword,
    ),
];

#[test]
fn commands(rt: HostRuntime) -> Result<(), Fail> {
    for (text, line, reason) in COMMANDS {
        let script = format!(in rt.alloc(); "shape 2 2\nsession 1\n{text}\n")?;
        assert_eq!(rt;
            fault_of(rt.alloc(), script.as_bytes()),
            Some(ScriptFault::Line(line, reason)),
            "{text}"
        );
    }
    Ok(())
}

/// Shapes, numbers of entries, and whether rows of the shape may have so many.
const NUMBERS_OF_ENTRIES: [(&str, u32, bool); 36] = [
    ("2 4", 1, false),
    ("2 4", 2, true),
    ("2 4", 3, true),
    ("2 4", 4, false),
    ("2 4", 5, true),
    ("2 4", 6, false),
    ("2 4", 7, false),
    ("2 4", 8, true),
    ("2 4", 9, false),
    ("3 3", 2, false),
    ("3 3", 3, true),
    ("3 3", 4, false),
    ("3 3", 5, false),
    ("3 3", 6, true),
    ("3 3", 7, false),
    ("3 3", 13, false),
    ("3 3", 14, true),
    ("3 3", 15, false),
    ("1 1", 0, false),
    ("1 1", 1, true),
    ("1 1", 2, false),
    ("1 8", 0, false),
    ("1 8", 1, true),
    ("1 8", 2, false),
    ("2 1", 1, false),
    ("2 1", 2, true),
    ("2 1", 3, false),
    ("12 3", 11, false),
    ("12 3", 12, true),
    ("12 3", 13, false),
    ("12 3", 77, false),
    ("12 3", 78, true),
    ("12 3", 79, false),
    ("12 3", 649, false),
    ("12 3", 650, true),
    ("12 3", 651, false),
];

#[test]
fn numbers_of_entries(rt: HostRuntime) -> Result<(), Fail> {
    for (shape, number, good) in NUMBERS_OF_ENTRIES {
        let due = if good {
            None
        } else {
            Some(ScriptFault::Line(3, Reason::Fields))
        };
        for form in ["append a 0", "correct a"] {
            let head = format!(in rt.alloc(); "shape {shape}\nsession 1\n{form}")?;
            let bytes = repeated(rt.alloc(), head.as_str(), " -7", number)?;
            assert_eq!(rt;
                fault_of(rt.alloc(), &bytes),
                due,
                "{shape}: {number} entries"
            );
        }
    }
    Ok(())
}

/// Rows of one part, of three, of two and of one again.
const ROWS_IN_PARTS: &str =
    "shape 2 4\nsession 1\nappend a 0 1 2\ncorrect a 3 -4 5 -6 7\nappend b 1 0 0 8\ncorrect b 9 10";

#[test]
fn entries_by_degree(rt: HostRuntime) -> Result<(), Fail> {
    let script = read_script(rt.alloc(), ROWS_IN_PARTS.as_bytes())
        .ok()
        .ok_or("refused")?;
    let commands = script.sessions()[0].list();
    let due: [[&[i64]; 4]; 4] = [
        [&[1, 2], &[], &[], &[]],
        [&[3, -4], &[5], &[-6, 7], &[]],
        [&[0, 0], &[8], &[], &[]],
        [&[9, 10], &[], &[], &[]],
    ];
    assert_eq!(rt; commands.len(), due.len());
    for (command, parts) in commands.iter().zip(due) {
        let (Command::Edit(Edit::Append { x, .. }) | Command::Edit(Edit::Correct { x, .. })) =
            command
        else {
            return Err(Fail::from("no row"));
        };
        assert_eq!(rt; x.shape().depth(), 4);
        for (before, part) in parts.iter().enumerate() {
            assert_eq!(rt; x.part(before as u32 + 1), *part);
        }
    }
    Ok(())
}

#[test]
fn limits(rt: HostRuntime) -> Result<(), Fail> {
    // The shapes have 2 and 1,885 words.
    let narrow = "shape 1 1\nsession 1\n";
    let wide = "shape 12 3\nsession 1\n";
    let row = "append a 0 1 1 1 1 1 1 1 1 1 1 1 1\n";
    for (head, line, count, fault) in [
        (
            "",
            "\n",
            4_194_304,
            Some(ScriptFault::Line(4_194_305, Reason::End)),
        ),
        ("", "\n", 4_194_305, Some(ScriptFault::Size)),
        (narrow, "sig 0 0 0\n", 65_536, None),
        (
            narrow,
            "sig 0 0 0\n",
            65_537,
            Some(ScriptFault::Line(65_539, Reason::Commands)),
        ),
        (wide, row, 4_244, None),
        (
            wide,
            row,
            4_245,
            Some(ScriptFault::Line(4_247, Reason::Load)),
        ),
        (wide, "sig 0 0 0\n", 1_061, None),
        (
            wide,
            "sig 0 0 0\n",
            1_062,
            Some(ScriptFault::Line(1_064, Reason::Answers)),
        ),
    ] {
        let bytes = repeated(rt.alloc(), head, line, count)?;
        assert_eq!(rt; fault_of(rt.alloc(), &bytes), fault, "{count} of {line}");
    }
    Ok(())
}

#[test]
fn partitions(rt: HostRuntime) -> Result<(), Fail> {
    for (times, fault) in [
        (1, Some(ScriptFault::Line(3, Reason::Fields))),
        (2, None),
        (65, None),
        (66, Some(ScriptFault::Line(3, Reason::Fields))),
    ] {
        let bytes = repeated(rt.alloc(), "shape 2 2\nsession 1\nparts 3 9", " 1/2", times)?;
        assert_eq!(rt; fault_of(rt.alloc(), &bytes), fault, "{times} times");
    }
    let text = "shape 2 2\nsession 1\nparts 3 9 1/4 1/2 1/2 65536";
    let script = read_script(rt.alloc(), text.as_bytes())
        .ok()
        .ok_or("refused")?;
    let due = [
        (Kind::Log, 16_384, 32_768),
        (Kind::Log, 32_768, 32_768),
        (Kind::Log, 32_768, 4_294_967_296),
        (Kind::Sig, 16_384, 4_294_967_296),
    ];
    let commands = script.sessions()[0].list();
    assert_eq!(rt; commands.len(), due.len());
    for (command, (kind, from, to)) in commands.iter().zip(due) {
        let Command::Ask(ask) = command else {
            return Err(Fail::from("no query"));
        };
        assert_eq!(rt; ask.kind, kind);
        assert_eq!(rt;
            (ask.from, ask.to, ask.r, ask.version),
            (from, to, 3, Some(9))
        );
    }
    Ok(())
}

#[test]
fn limits_inside_a_line(rt: HostRuntime) -> Result<(), Fail> {
    // The shapes have 2 and 1,885 words.
    let narrow = "shape 1 1\nsession 1\n";
    let wide = "shape 12 3\nsession 1\n";
    let row = "append a 0 1 1 1 1 1 1 1 1 1 1 1 1\n";
    let query = "sig 0 0 0\n";
    for (head, line, count, last, reason) in [
        (narrow, query, 65_534, "parts 0 0 0 0", None),
        (
            narrow,
            query,
            65_535,
            "parts 0 0 0 0",
            Some(Reason::Commands),
        ),
        (wide, row, 4_242, "parts 0 0 0 0", None),
        (wide, row, 4_243, "parts 0 0 0 0", Some(Reason::Load)),
        (wide, query, 1_058, "parts 0 0 0 0 0", None),
        (wide, query, 1_059, "parts 0 0 0 0", None),
        (wide, query, 1_059, "parts 0 0 0 0 0", Some(Reason::Answers)),
    ] {
        let mut bytes = repeated(rt.alloc(), head, line, count)?;
        bytes.extend_from_slice(last.as_bytes())?;
        let fault = reason.map(|reason| ScriptFault::Line(u64::from(count) + 3, reason));
        assert_eq!(rt;
            fault_of(rt.alloc(), &bytes),
            fault,
            "{last} after {count} of {line}"
        );
    }
    Ok(())
}

/// A script with each form of line.
const EACH_FORM: &str =
    "\t# \u{0}\r\nshape 2 2\r\n\n \t\nsession 1\n append  append 1/2 2\t-3\r\nappend b 65535 -0 00\n#\nsig 0 65536 16\nsig 0 0 0 at 18446744073709551615\ncorrect b 7 8\nremove remove\nlog 0 0 0";

#[test]
fn edits(rt: HostRuntime) -> Result<(), Fail> {
    let script = read_script(rt.alloc(), EACH_FORM.as_bytes())
        .ok()
        .ok_or("refused")?;
    let shape = script.shape();
    assert_eq!(rt; (shape.width(), shape.depth()), (2, 2));
    assert_eq!(rt; script.sessions().len(), 1);
    let commands = script.sessions()[0].list();
    assert_eq!(rt; commands.len(), 7);
    for (command, bytes, due, entries) in [
        (&commands[0], "append", 32_768, [2, -3]),
        (&commands[1], "b", 4_294_901_760, [0, 0]),
    ] {
        let Command::Edit(Edit::Append { name, tick, x }) = command else {
            return Err(Fail::from("no edit"));
        };
        assert_eq!(rt; name.list(), bytes.as_bytes());
        assert_eq!(rt; *tick, due);
        assert_eq!(rt; x.shape().depth(), 2);
        assert_eq!(rt; x.part(1), entries.as_slice());
    }
    let Command::Edit(Edit::Correct { name, x }) = &commands[4] else {
        return Err(Fail::from("no correction"));
    };
    assert_eq!(rt; (name.text(), x.part(1)), ("b", [7, 8].as_slice()));
    let Command::Edit(Edit::Remove { name }) = &commands[5] else {
        return Err(Fail::from("no removal"));
    };
    assert_eq!(rt; name.text(), "remove");
    Ok(())
}

#[test]
fn queries(rt: HostRuntime) -> Result<(), Fail> {
    let script = read_script(rt.alloc(), EACH_FORM.as_bytes())
        .ok()
        .ok_or("refused")?;
    let commands = script.sessions()[0].list();
    assert_eq!(rt; commands.len(), 7);
    for (command, kind, to, r, version) in [
        (&commands[2], Kind::Sig, 4_294_967_296, 16, None),
        (&commands[3], Kind::Sig, 0, 0, Some(u64::MAX)),
        (&commands[6], Kind::Log, 0, 0, None),
    ] {
        let Command::Ask(ask) = command else {
            return Err(Fail::from("no query"));
        };
        assert_eq!(rt; ask.kind, kind);
        assert_eq!(rt; (ask.from, ask.to, ask.r, ask.version), (0, to, r, version));
    }
    Ok(())
}
