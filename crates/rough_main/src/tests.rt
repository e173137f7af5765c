use crate::cases::{
    ANSWERED, ANSWERS, JSON_ANSWERS, LIE_ROWS, LOGARITHMS, LOOP, LOOP_PRODUCT, ORDERED, PRODUCTS,
    SCRIPT, WATCHED,
};
use crate::{Through, rough, rough_plain};
use rough_io::{MemorySink, MemorySource};
use std::alloc::Global;
use std::sync::Wait;
use std::test::Fail;
use std::thread::Threads;

/// How a run over memory ended.
#[derive(Drop)]
struct Ended {
    status: u8,
    written: String,
    faults: (u64, u64),
}

/// Runs a script that is read nine bytes at a time and answered seven bytes at a time, where the reads and
/// writes of these numbers fail.
fn run_over_memory<R: Threads + Wait + Sync>(
    rt: &R,
    alloc: Global,
    words: &[&str],
    script: &str,
    reads: &[u64],
    writes: &[u64],
) -> Result<Ended, Fail> {
    let bytes = Vec::from_slice(alloc, script.as_bytes())?;
    let mut source = MemorySource::new(bytes, 9, Vec::from_slice(alloc, reads)?);
    let mut sink = MemorySink::new(alloc, 4096, 7, Vec::from_slice(alloc, writes)?)?;
    let mut line = Vec::new(alloc);
    for word in words {
        line.push(String::from_str(alloc, word)?)?;
    }
    let status = rough(rt, alloc, &line, &mut source, &mut sink, &Through);
    Ok(Ended {
        status,
        written: String::from_utf8(Vec::from_slice(alloc, sink.written())?)?,
        faults: (source.faults(), sink.faults()),
    })
}

#[test]
fn scripts_are_answered(rt: HostRuntime) -> Result<(), Fail> {
    for (name, script, answers) in ANSWERED {
        let run = run_over_memory(&rt, rt.alloc(), &[], script, &[], &[])?;
        assert_eq!(rt; run.status, 0, "{name}");
        assert_eq!(rt; run.written.as_str(), answers, "{name}");
    }
    Ok(())
}

#[test]
fn logarithms_are_answered(rt: HostRuntime) -> Result<(), Fail> {
    for (name, script, answers) in LOGARITHMS {
        let run = run_over_memory(&rt, rt.alloc(), &[], script, &[], &[])?;
        assert_eq!(rt; run.status, 0, "{name}");
        assert_eq!(rt; run.written.as_str(), answers, "{name}");
    }
    Ok(())
}

#[test]
fn lie_rows_are_answered(rt: HostRuntime) -> Result<(), Fail> {
    for (name, script, answers) in LIE_ROWS {
        let run = run_over_memory(&rt, rt.alloc(), &[], script, &[], &[])?;
        assert_eq!(rt; run.status, 0, "{name}");
        assert_eq!(rt; run.written.as_str(), answers, "{name}");
    }
    Ok(())
}

#[test]
fn products_are_answered(rt: HostRuntime) -> Result<(), Fail> {
    for (elements, status, text) in PRODUCTS {
        let run = run_over_memory(&rt, rt.alloc(), &["--cbh"], elements, &[], &[])?;
        assert_eq!(rt; run.status, status, "of {elements}");
        assert_eq!(rt; run.written.as_str(), text, "of {elements}");
    }
    Ok(())
}

/// Two rows, and the partition of a unit of time into halves.
const PARTITION: &str =
    "shape 2 2\nsession 1\nappend a 0 1 0\nappend b 1/2 0 1\nparts 1 2 0 1/2 1\n";

const PARTITION_ANSWERS: &str =
    "shape 2 2\nsession 1\n1 done 1\n2 done 2\n3 log version 2 hits 0 misses 1 exps 1\nlevel 1 over 1 1=1\nlevel 2 over 8\n4 log version 2 hits 0 misses 1 exps 1\nlevel 1 over 1 2=1\nlevel 2 over 8\n5 sig version 2 hits 0 misses 1 exps 2\nlevel 1 over 1 (1)=1 (2)=1\nlevel 2 over 2 (1,1)=1 (1,2)=2 (2,2)=1\norder 1,1,1,1,1,1,1,1\nversions 2\n";

#[test]
fn partitions_are_answered(rt: HostRuntime) -> Result<(), Fail> {
    let run = run_over_memory(&rt, rt.alloc(), &[], PARTITION, &[], &[])?;
    assert_eq!(rt; run.status, 0);
    assert_eq!(rt; run.written.as_str(), PARTITION_ANSWERS);
    Ok(())
}

#[test]
fn watches_are_answered(rt: HostRuntime) -> Result<(), Fail> {
    for (words, script, text) in WATCHED {
        let run = run_over_memory(&rt, rt.alloc(), words, script, &[], &[])?;
        assert_eq!(rt; run.status, 0, "of {script}");
        assert_eq!(rt; run.written.as_str(), text, "of {script}");
    }
    Ok(())
}

#[test]
fn watches_are_refused(rt: HostRuntime) -> Result<(), Fail> {
    for (script, refusal) in [
        ("watch 0 1 0\n", "fault line 1 place\n"),
        ("shape 1 1\nwatch 0 1 0\n", "fault line 3 end\n"),
    ] {
        let run = run_over_memory(&rt, rt.alloc(), &[], script, &[], &[])?;
        assert_eq!(rt; run.status, 3, "at {refusal}");
        assert_eq!(rt; run.written.as_str(), refusal, "of {script}");
    }
    Ok(())
}

#[test]
fn lie_rows_are_refused(rt: HostRuntime) -> Result<(), Fail> {
    for (script, refusal) in [
        (
            "shape 2 3\nsession 1\nappend a 0 2 3 4 5\n",
            "fault line 3 fields\n",
        ),
        (
            "shape 2 3\nsession 1\nappend a 0 2 3 4 5 -\n",
            "fault line 3 number\n",
        ),
    ] {
        let run = run_over_memory(&rt, rt.alloc(), &[], script, &[], &[])?;
        assert_eq!(rt; run.status, 3, "at {refusal}");
        assert_eq!(rt; run.written.as_str(), refusal, "of {script}");
    }
    Ok(())
}

#[test]
fn scripts_are_refused(rt: HostRuntime) -> Result<(), Fail> {
    for (script, refusal) in [
        ("shape 13 2\n", "fault line 1 width\n"),
        ("shape 2 9\n", "fault line 1 depth\n"),
        ("shape 7 4\n", "fault line 1 words\n"),
        (
            "shape 2 2\nsession 1\nappend a 0 2 -\n",
            "fault line 3 number\n",
        ),
        (
            "shape 2 2\nsession 1\nappend a 0 2\n",
            "fault line 3 fields\n",
        ),
        (
            "shape 2 2\nsession 1\nsig 2 1 0\n",
            "fault line 3 interval\n",
        ),
        (
            "shape 2 2\nsession 1\nsession 3\n",
            "fault line 3 session\n",
        ),
        ("", "fault line 1 end\n"),
    ] {
        let run = run_over_memory(&rt, rt.alloc(), &[], script, &[], &[])?;
        assert_eq!(rt; run.status, 3, "at {refusal}");
        assert_eq!(rt; run.written.as_str(), refusal, "of {script}");
    }
    Ok(())
}

/// The places from the first one up to the last one.
fn from_to(alloc: Global, first: u64, last: u64) -> Result<Vec<u64>, Fail> {
    let mut places = Vec::new(alloc);
    for place in first..=last {
        places.push(place)?;
    }
    Ok(places)
}

/// The words of runs, with what is read in as many reads each and what is written: as text on threads and in an order, as JSON, and of a
/// list of elements.
const FORMS: [(&[&str], &str, &str); 4] = [
    (&[], SCRIPT, ANSWERS),
    (&["--order", "1,1,1"], SCRIPT, ANSWERS),
    (&["--json"], SCRIPT, JSON_ANSWERS),
    (&["--cbh"], LOOP, LOOP_PRODUCT),
];

#[test]
fn each_read_may_fail(rt: HostRuntime) -> Result<(), Fail> {
    let alloc = rt.alloc();
    for (words, script, answers) in FORMS {
        // Five reads of up to nine bytes, and one that finds the end. After one that failed none is made.
        for read in 1..=6u64 {
            let reads = from_to(alloc, read, 9)?;
            let run = run_over_memory(&rt, alloc, words, script, &reads, &[])?;
            assert_eq!(rt; run.status, 4, "at read {read} with {words:?}");
            assert_eq!(rt; run.written.as_str(), "");
            assert_eq!(rt; run.faults, (1, 0), "at read {read} with {words:?}");
        }
        let run = run_over_memory(&rt, alloc, words, script, &[7], &[])?;
        assert_eq!(rt; run.status, 0, "with {words:?}");
        assert_eq!(rt; run.written.as_str(), answers, "with {words:?}");
    }
    Ok(())
}

#[test]
fn each_write_may_fail(rt: HostRuntime) -> Result<(), Fail> {
    let alloc = rt.alloc();
    for (words, script, answers) in FORMS {
        // Writes of seven bytes. After one that failed none is made.
        let writes = answers.len().div_ceil(7) as u64;
        for write in 1..=writes {
            let fails = from_to(alloc, write, writes)?;
            let run = run_over_memory(&rt, alloc, words, script, &[], &fails)?;
            assert_eq!(rt; run.status, 5, "at write {write} with {words:?}");
            assert!(rt; answers.starts_with(run.written.as_str()));
            assert_eq!(rt; run.written.len() as u64, (write - 1).saturating_mul(7));
            assert_eq!(rt; run.faults, (0, 1), "at write {write} with {words:?}");
        }
        let run = run_over_memory(&rt, alloc, words, script, &[], &[writes + 1])?;
        assert_eq!(rt; run.status, 0, "with {words:?}");
    }
    Ok(())
}

#[test]
fn words_are_answered_unread(rt: HostRuntime) -> Result<(), Fail> {
    for (words, refusal) in [
        (["--cache", "0"].as_slice(), "fault words\n"),
        (&["--order", "1,,1"], "fault words\n"),
        (&["--order="], "fault words\n"),
        (&["--json", "--json"], "fault words\n"),
        (&["--gen", "8", "--json"], "fault words\n"),
        (&["x"], "fault words\n"),
        (&["--order=1,1,1", "--order", "1"], "fault words\n"),
        (&["--order", "-1"], "fault words\n"),
        (&["--order"], "fault words\n"),
        (&["--cbh", "--json"], "fault words\n"),
        (&["--cbh", "--cache", "5"], "fault words\n"),
        (&["--cbh", "--order", "1"], "fault words\n"),
        (&["--cbh", "--gen", "8"], "fault words\n"),
        (&["--cbh", "--cbh"], "fault words\n"),
        (&["--cbh="], "fault words\n"),
        (&["--cbh=1"], "fault words\n"),
        (&["--cache", "--cbh"], "fault words\n"),
    ] {
        // A read would fail.
        let run = run_over_memory(&rt, rt.alloc(), words, SCRIPT, &[1], &[])?;
        assert_eq!(rt; run.status, 2, "with {words:?}");
        assert_eq!(rt; run.written.as_str(), refusal, "with {words:?}");
    }
    let run = run_over_memory(&rt, rt.alloc(), &["--cache", "5"], SCRIPT, &[], &[])?;
    assert_eq!(rt; run.status, 0);
    assert_eq!(rt; run.written.as_str(), ANSWERS);
    Ok(())
}

#[test]
fn orders_are_legal_or_not(rt: HostRuntime) -> Result<(), Fail> {
    // An edit, a look, and its settle.
    for (order, status, text) in [
        ("1,1,1", 0, ANSWERS),
        ("1,1", 3, "fault order place 3\n"),
        ("1,1,1,1", 3, "fault order place 4\n"),
        ("1,2,1", 3, "fault order place 2\n"),
        ("none", 3, "fault order place 1\n"),
    ] {
        let run = run_over_memory(&rt, rt.alloc(), &["--order", order], SCRIPT, &[], &[])?;
        assert_eq!(rt; run.status, status, "in the order {order}");
        assert_eq!(rt; run.written.as_str(), text, "in the order {order}");
    }
    Ok(())
}

#[test]
fn cache_of_one_node(rt: HostRuntime) -> Result<(), Fail> {
    let script = "shape 1 1\n\
session 1\n\
append a 0 1\n\
append b 1 2\n\
sig 0 1 0\n\
sig 1 2 0\n\
sig 0 1 0\n";
    let run = run_over_memory(&rt, rt.alloc(), &["--cache", "1"], script, &[], &[])?;
    assert_eq!(rt; run.status, 0);
    assert_eq!(rt;
        run.written.as_str(),
        "shape 1 1\n\
session 1\n\
1 done 1\n\
2 done 2\n\
3 sig version 2 hits 0 misses 1 exps 1\n\
level 1 over 1 (1)=1\n\
4 sig version 2 hits 0 misses 1 exps 1\n\
level 1 over 1 (1)=2\n\
5 sig version 2 hits 0 misses 1 exps 1\n\
level 1 over 1 (1)=1\n\
order 1,1,1,1,1,1,1,1\n\
versions 2\n"
    );
    Ok(())
}

#[test]
fn sessions_take_their_steps_in_order(rt: HostRuntime) -> Result<(), Fail> {
    for (name, script, order, answers) in ORDERED {
        let run = run_over_memory(&rt, rt.alloc(), &["--order", order], script, &[], &[])?;
        assert_eq!(rt; run.status, 0, "{name}");
        assert_eq!(rt; run.written.as_str(), answers, "{name}");
    }
    Ok(())
}

#[test]
fn orders_of_two_sessions(rt: HostRuntime) -> Result<(), Fail> {
    let script = "shape 1 1\n\
session 1\n\
append a 0 1\n\
sig 0 1 0\n\
session 2\n\
append b 0 1\n";
    for (order, text) in [
        ("1,1,3", "fault order place 3\n"),
        ("1,1,1", "fault order place 4\n"),
        ("1,1,1,1,2", "fault order place 4\n"),
        ("none", "fault order place 1\n"),
    ] {
        let run = run_over_memory(&rt, rt.alloc(), &["--order", order], script, &[], &[])?;
        assert_eq!(rt; run.status, 3, "in the order {order}");
        assert_eq!(rt; run.written.as_str(), text, "in the order {order}");
    }
    let run = run_over_memory(
        &rt,
        rt.alloc(),
        &["--order", "none"],
        "shape 1 1\nsession 1\n",
        &[],
        &[],
    )?;
    assert_eq!(rt; run.status, 0);
    assert_eq!(rt;
        run.written.as_str(),
        "shape 1 1\nsession 1\norder none\nversions 0\n"
    );
    Ok(())
}

#[test]
fn threads_are_left_to_the_caller(rt: HostRuntime) -> Result<(), Fail> {
    for (word, script, status) in [("--cache=5", SCRIPT, None), ("--cbh", LOOP, Some(0))] {
        let bytes = Vec::from_slice(rt.alloc(), script.as_bytes())?;
        let mut source = MemorySource::new(bytes, 9, Vec::new(rt.alloc()));
        let mut sink = MemorySink::new(rt.alloc(), 4096, 7, Vec::new(rt.alloc()))?;
        let words = vec![in rt.alloc(); String::from_str(rt.alloc(), word)?]?;
        assert_eq!(rt;
            rough_plain(rt.alloc(), &words, &mut source, &mut sink),
            status,
            "with {word}"
        );
        assert_eq!(rt; (source.faults(), sink.faults()), (0, 0));
    }
    Ok(())
}

#[test]
fn answers_as_json(rt: HostRuntime) -> Result<(), Fail> {
    for words in [["--json"].as_slice(), &["--json", "--order=1,1,1"]] {
        let run = run_over_memory(&rt, rt.alloc(), words, SCRIPT, &[], &[])?;
        assert_eq!(rt; run.status, 0, "with {words:?}");
        assert_eq!(rt; run.written.as_str(), JSON_ANSWERS, "with {words:?}");
    }
    Ok(())
}

#[test]
fn generated_scripts(rt: HostRuntime) -> Result<(), Fail> {
    for (n, summary) in [
        (
            "8",
            "gen 8\nsteps 9\nversions 7\nhits 0\nmisses 1\nexps 2\nsum 60\n",
        ),
        (
            "1",
            "gen 1\nsteps 1\nversions 1\nhits 0\nmisses 0\nexps 0\nsum 0\n",
        ),
    ] {
        // A read would fail.
        let run = run_over_memory(&rt, rt.alloc(), &["--gen", n], SCRIPT, &[1], &[])?;
        assert_eq!(rt; run.status, 0, "of {n} commands");
        assert_eq!(rt; run.written.as_str(), summary, "of {n} commands");
    }
    Ok(())
}

#[test]
fn longest_generated_script(rt: HostRuntime) -> Result<(), Fail> {
    let words = ["--gen=10000"];
    let first = run_over_memory(&rt, rt.alloc(), &words, "", &[], &[])?;
    let again = run_over_memory(&rt, rt.alloc(), &words, "", &[], &[])?;
    assert_eq!(rt; first.status, 0);
    assert!(rt; first.written.starts_with("gen 10000\n"));
    assert!(rt; first.written.contains("\nversions 8750\n"));
    assert!(rt; first.written == again.written);
    Ok(())
}
