//! Tests of each size: the largest shapes, sixteen sessions, the least and the greatest cache, long scripts, and pairs near their end.
use crate::Through;
use crate::limit_tests::followed;
use crate::size_cases::{JSON_LOGARITHM, SIZES};
use crate::thread_tests::{answers_to, printed_order};
use std::alloc::Global;
use std::test::Fail;

#[test]
fn each_size_is_answered(rt: HostRuntime) -> Result<(), Fail> {
    for (name, script, answers) in SIZES {
        let (status, written) = answers_to(&rt, rt.alloc(), &[], script, &Through)?;
        assert_eq!(rt; status, 0, "{name}");
        assert_eq!(rt; written.as_str(), answers, "{name}");
    }
    Ok(())
}

#[test]
fn options_stand_together(rt: HostRuntime) -> Result<(), Fail> {
    let (script, answers) = JSON_LOGARITHM;
    for words in [
        ["--json", "--order", "1,1,1", "--cache", "5"].as_slice(),
        &["--order=1,1,1", "--json", "--cache=16384"],
    ] {
        let (status, written) = answers_to(&rt, rt.alloc(), words, script, &Through)?;
        assert_eq!(rt; status, 0, "with {words:?}");
        assert_eq!(rt; written.as_str(), answers, "with {words:?}");
    }
    Ok(())
}

/// Sixteen sessions, each of which appends a row and asks for the signature and the logarithm of all.
fn sixteen_sessions(alloc: Global) -> Result<String, Fail> {
    let mut script = String::from_str(alloc, "shape 2 3\n")?;
    for session in 1..=16u32 {
        script.push_str(format!(in alloc;
            "session {session}\nappend p{session} {session} {session} -1\nsig 0 32 0\nlog 0 32 0\n"
        )?.as_str())?;
    }
    Ok(script)
}

#[test]
fn sixteen_sessions_on_threads(rt: HostRuntime) -> Result<(), Fail> {
    let script = sixteen_sessions(rt.alloc())?;
    for nodes in ["1", "16384"] {
        let cache = String::from_str(rt.alloc(), nodes)?;
        let words = ["--cache", cache.as_str()];
        let (status, answers) = answers_to(&rt, rt.alloc(), &words, &script, &Through)?;
        assert_eq!(rt; status, 0, "with a cache of {nodes}");
        assert!(rt; answers.ends_with("\nversions 16\n"));
        let order = String::from_str(rt.alloc(), printed_order(&answers).unwrap_or(""))?;
        let words = ["--cache", cache.as_str(), "--order", order.as_str()];
        let (status, again) = answers_to(&rt, rt.alloc(), &words, &script, &Through)?;
        assert_eq!(rt; status, 0, "with a cache of {nodes}");
        assert!(rt; again == answers);
    }
    Ok(())
}

#[test]
fn longest_scripts(rt: HostRuntime) -> Result<(), Fail> {
    // Lines of 20 bytes, 65,535 comments of 64 bytes, and 44 empty lines are 4,194,304 bytes.
    let head = "shape 1 1\nsession 1\n";
    let comment = "# a comment of sixty-four bytes, its line feed among them .....\n";
    let comments = followed(rt.alloc(), head, comment, 65_535)?;
    let most = followed(rt.alloc(), comments.as_str(), "\n", 44)?;
    let (status, written) = answers_to(&rt, rt.alloc(), &[], most.as_str(), &Through)?;
    assert_eq!(rt; status, 0);
    assert_eq!(rt;
        written.as_str(),
        "shape 1 1\nsession 1\norder none\nversions 0\n"
    );
    let more = followed(rt.alloc(), most.as_str(), "\n", 1)?;
    let (status, written) = answers_to(&rt, rt.alloc(), &[], more.as_str(), &Through)?;
    assert_eq!(rt; status, 3);
    assert_eq!(rt; written.as_str(), "fault size\n");
    Ok(())
}

#[test]
fn kept_node_goes_after_65_corrections(rt: HostRuntime) -> Result<(), Fail> {
    let head = "shape 1 1\nsession 1\nappend a 0 1\nsig 0 1 0\n";
    for (corrections, answer) in [
        (64, "67 sig version 1 hits 1 misses 0 exps 0\n"),
        (65, "68 sig version 1 hits 0 misses 1 exps 1\n"),
    ] {
        let mut script = followed(rt.alloc(), head, "correct a 2\n", corrections)?;
        script.push_str("sig 0 1 0 at 1\n")?;
        let (status, written) = answers_to(&rt, rt.alloc(), &[], script.as_str(), &Through)?;
        assert_eq!(rt; status, 0, "after {corrections} corrections");
        assert!(rt; written.contains(answer), "after {corrections} corrections");
    }
    Ok(())
}
