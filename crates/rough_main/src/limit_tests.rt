//! Tests of scripts at the limits of the format.
use crate::Through;
use crate::thread_tests::answers_to;
use std::alloc::Global;
use std::test::Fail;

/// A text that is followed by another one so many times.
pub(crate) fn followed(alloc: Global, head: &str, part: &str, times: u32) -> Result<String, Fail> {
    let mut text = String::from_str(alloc, head)?;
    for _time in 0..times {
        text.push_str(part)?;
    }
    Ok(text)
}

/// A thousand queries, and between each two of them a correction by another session.
fn thousand_queries(alloc: Global) -> Result<String, Fail> {
    let head = "shape 1 1\nsession 1\nappend a 0 1\n";
    let mut script = followed(alloc, head, "sig 0 1 0\n", 1000)?;
    script.push_str(followed(alloc, "session 2\n", "correct a 1\n", 1000)?.as_str())?;
    Ok(script)
}

/// The answers to these queries, each at the version before the next correction.
fn thousand_answers(alloc: Global) -> Result<String, Fail> {
    let mut text = String::from_str(alloc, "shape 1 1\nsession 1\n1 done 1\n")?;
    for j in 1..=1000u32 {
        let command = j + 1;
        let line = format!(in alloc;
            "{command} sig version {j} hits 0 misses 1 exps 1\nlevel 1 over 1 (1)=1\n"
        )?;
        text.push_str(line.as_str())?;
    }
    text.push_str("session 2\n")?;
    Ok(text)
}

#[test]
fn correction_between_each_two_queries(rt: HostRuntime) -> Result<(), Fail> {
    let alloc = rt.alloc();
    let order = followed(alloc, "1", ",1,2,1", 1000)?;
    let words = ["--order", order.as_str()];
    let (status, written) = answers_to(
        &rt,
        alloc,
        &words,
        thousand_queries(alloc)?.as_str(),
        &Through,
    )?;
    assert_eq!(rt; status, 0);
    assert!(rt; written.starts_with(thousand_answers(alloc)?.as_str()));
    assert!(rt; written.ends_with("\nversions 1001\n"));
    Ok(())
}

#[test]
fn most_commands(rt: HostRuntime) -> Result<(), Fail> {
    let alloc = rt.alloc();
    let head = "shape 1 1\nsession 1\nappend a 0 1\n";
    let most = followed(alloc, head, "correct a 1\n", 65_535)?;
    let (status, written) = answers_to(&rt, alloc, &[], most.as_str(), &Through)?;
    assert_eq!(rt; status, 0);
    assert!(rt; written.ends_with("\nversions 65536\n"));
    let more = followed(alloc, most.as_str(), "correct a 1\n", 1)?;
    let (status, written) = answers_to(&rt, alloc, &[], more.as_str(), &Through)?;
    assert_eq!(rt; status, 3);
    assert_eq!(rt; written.as_str(), "fault line 65539 commands\n");
    Ok(())
}

#[test]
fn greatest_load(rt: HostRuntime) -> Result<(), Fail> {
    let alloc = rt.alloc();
    let most = followed(alloc, "shape 12 3\nsession 1\n", "remove a\n", 4244)?;
    let (status, written) = answers_to(&rt, alloc, &[], most.as_str(), &Through)?;
    assert_eq!(rt; status, 0);
    assert_eq!(rt;
        written
            .lines()
            .filter(|line| line.ends_with(" no-row 0"))
            .count(),
        4244
    );
    let more = followed(alloc, most.as_str(), "remove a\n", 1)?;
    let (status, written) = answers_to(&rt, alloc, &[], more.as_str(), &Through)?;
    assert_eq!(rt; status, 3);
    assert_eq!(rt; written.as_str(), "fault line 4247 load\n");
    Ok(())
}

#[test]
fn most_answers(rt: HostRuntime) -> Result<(), Fail> {
    let alloc = rt.alloc();
    let most = followed(alloc, "shape 12 3\nsession 1\n", "sig 0 0 0\n", 1061)?;
    let (status, written) = answers_to(&rt, alloc, &[], most.as_str(), &Through)?;
    assert_eq!(rt; status, 0);
    assert!(rt; written.ends_with("\nversions 0\n"));
    let more = followed(alloc, most.as_str(), "sig 0 0 0\n", 1)?;
    let (status, written) = answers_to(&rt, alloc, &[], more.as_str(), &Through)?;
    assert_eq!(rt; status, 3);
    assert_eq!(rt; written.as_str(), "fault line 1064 answers\n");
    Ok(())
}

#[test]
fn most_sessions(rt: HostRuntime) -> Result<(), Fail> {
    let alloc = rt.alloc();
    for (sessions, status) in [(16, 0), (17, 3)] {
        let mut script = String::from_str(alloc, "shape 1 1\n")?;
        for session in 1..=sessions as u32 {
            script.push_str(format!(in alloc; "session {session}\n")?.as_str())?;
        }
        let (ended, written) = answers_to(&rt, alloc, &[], script.as_str(), &Through)?;
        assert_eq!(rt; ended, status, "of {sessions} sessions");
        assert_eq!(rt; written.as_str() == "fault line 18 session\n", status == 3);
    }
    Ok(())
}

#[test]
fn most_watches(rt: HostRuntime) -> Result<(), Fail> {
    let alloc = rt.alloc();
    let most = followed(alloc, "shape 1 1\nsession 1\n", "watch 0 1 0\n", 64)?;
    let (status, written) = answers_to(&rt, alloc, &[], most.as_str(), &Through)?;
    assert_eq!(rt; status, 0);
    assert!(rt; written.ends_with("\nwatch 64 versions none\n"));
    let more = followed(alloc, most.as_str(), "watch 0 1 0\n", 1)?;
    let (status, written) = answers_to(&rt, alloc, &[], more.as_str(), &Through)?;
    assert_eq!(rt; status, 3);
    assert_eq!(rt; written.as_str(), "fault line 67 watches\n");
    Ok(())
}
