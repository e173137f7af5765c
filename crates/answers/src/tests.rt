ghost use Rattle.std.specs.Prelude.{◌≡◌, ◌<◌, ◌≤◌, length, All};
ghost use Rattle.watches.specs.Watches.{IsInterval};
ghost use Rattle.answers.specs.CbhText.{HasNumbers};

use crate::decimals::push_signed;
use crate::{CbhResult, cbh_text, gen_script, json_of, summary_of, text_of};
use hall_set::HallSet;
use scaled_tensor::Tensor;
use session::{Answer, EditReply, LookReply, Outcome, Transcript, replay_round};
use std::alloc::Global;
use std::test::Fail;
use watches::Interval;
use words::{Capacity, Free, Memory, Shape, ShapeFault, Steps};

/// The coefficients 2, -3 at the letters and 4, 0, -6, 9 at the pairs of letters.
fn tensor(alloc: Global, shape: Shape) -> Result<Tensor, Memory>
    requires { shape ≡ record { width = 2; depth = 2 } }
{
    let mut tensor = Tensor::unit(alloc, shape)?;
    tensor.set(&[1], 2);
    tensor.set(&[2], -3);
    tensor.set(&[1, 1], 4);
    tensor.set(&[2, 1], -6);
    tensor.set(&[2, 2], 9);
    Ok(tensor)
}

const EACH_ANSWER: &[u8] = b"shape 2 2
session 1
1 done 1
2 name-taken 1
3 no-row 1
4 no-version 1
5 overflow 60097
6 sig version 1 hits 2 misses 3 exps 4
level 1 over 1 (1)=2 (2)=-3
level 2 over 2 (1,1)=4 (2,1)=-6 (2,2)=9
order 1,2,1
versions 0
";

const EACH_ANSWER_IN_JSON: &[u8] =
    br#"{"order":[1,2,1],"sessions":[[{"command":1,"reply":"done","version":1},{"command":2,"reply":"name-taken","version":1},{"command":3,"reply":"no-row","version":1},{"command":4,"reply":"no-version","version":1},{"command":5,"reply":"overflow","weight":"60097"},{"command":6,"exps":4,"hits":2,"levels":[{"over":"1","terms":[["(1)","2"],["(2)","-3"]]},{"over":"2","terms":[["(1,1)","4"],["(2,1)","-6"],["(2,2)","9"]]}],"misses":3,"reply":"sig","version":1}]],"shape":[2,2],"versions":0}
"#;

#[test]
fn each_answer(rt: HostRuntime) -> Result<(), Fail> {
    let alloc = rt.alloc();
    let shape = Shape::new(2, 2)?;
    let answers = vec![in alloc;
        Answer::Edit(EditReply::Done(1)),
        Answer::Edit(EditReply::NameTaken(1)),
        Answer::Edit(EditReply::NoRow(1)),
        Answer::Refused(LookReply::NoVersion(1)),
        Answer::Refused(LookReply::Overflow(60097)),
        Answer::Sig {
            reply: LookReply::Found {
                version: 1,
                hits: 2,
                misses: 3,
                exps: 4
            },
            tensor: tensor(alloc, shape)?
        },
    ]?;
    let outcome = Outcome {
        transcripts: vec![in alloc; Transcript::of(answers)]?,
        order: vec![in alloc; 1, 2, 1]?,
        edits: Vec::new(alloc),
    };
    let hall = HallSet::build(alloc, shape)?;
    assert_eq!(rt;
        text_of(alloc, &hall, &[], &outcome)?.as_slice(),
        EACH_ANSWER
    );
    assert_eq!(rt;
        json_of(alloc, &hall, &[], &outcome)?.as_slice(),
        EACH_ANSWER_IN_JSON
    );
    Ok(())
}

#[test]
fn one_row_in_json(rt: HostRuntime) -> Result<(), Fail> {
    let alloc = rt.alloc();
    let shape = Shape::new(2, 2)?;
    let mut tensor = Tensor::unit(alloc, shape)?;
    tensor.set(&[1], 2);
    tensor.set(&[2], 3);
    tensor.set(&[1, 1], 4);
    tensor.set(&[1, 2], 6);
    tensor.set(&[2, 1], 6);
    tensor.set(&[2, 2], 9);
    let reply = LookReply::Found {
        version: 1,
        hits: 0,
        misses: 1,
        exps: 1,
    };
    let answers = vec![in alloc;
        Answer::Edit(EditReply::Done(1)),
        Answer::Sig { reply, tensor },
    ]?;
    let outcome = Outcome {
        transcripts: vec![in alloc; Transcript::of(answers)]?,
        order: vec![in alloc; 1, 1, 1]?,
        edits: Vec::new(alloc),
    };
    assert_eq!(rt;
        json_of(alloc, &HallSet::build(alloc, shape)?, &[], &outcome)?.as_slice(),
        br#"{"order":[1,1,1],"sessions":[[{"command":1,"reply":"done","version":1},{"command":2,"exps":1,"hits":0,"levels":[{"over":"1","terms":[["(1)","2"],["(2)","3"]]},{"over":"2","terms":[["(1,1)","4"],["(1,2)","6"],["(2,1)","6"],["(2,2)","9"]]}],"misses":1,"reply":"sig","version":1}]],"shape":[2,2],"versions":0}
"#
            .as_slice()
    );
    Ok(())
}

#[test]
fn no_answers(rt: HostRuntime) -> Result<(), Fail> {
    let alloc = rt.alloc();
    let shape = Shape::new(12, 1)?;
    let first = Transcript::of(Vec::new(alloc));
    let second = Transcript::of(Vec::new(alloc));
    let outcome = Outcome {
        transcripts: vec![in alloc; first, second]?,
        order: Vec::new(alloc),
        edits: Vec::new(alloc),
    };
    let expected = b"shape 12 1\nsession 1\nsession 2\norder none\nversions 0\n";
    assert_eq!(rt;
        text_of(alloc, &HallSet::build(alloc, shape)?, &[], &outcome)?.as_slice(),
        expected.as_slice()
    );
    Ok(())
}

/// What is written of a run.
#[derive(Drop)]
struct Written {
    order: Vec<u32>,
    summary: Vec<u8>,
    text: Vec<u8>,
    json: Vec<u8>,
}

/// The run of the script that n generates, with these watches.
fn run_of(alloc: Global, n: u32, watches: &[Interval]) -> Result<Written, Memory>
    requires some { 1 ≤ n }
    requires within { n ≤ 10000 }
    requires few { length watches.now ≤ 64 }
    requires watches { All IsInterval watches.now }
{
    let mut steps = Steps::new(Free);
    let script = gen_script(alloc, n)?;
    let outcome = replay_round(alloc, &script, Capacity::usual(), &mut steps)?;
    let summary = summary_of(alloc, n, script.shape(), &outcome)?;
    let hall = HallSet::build(alloc, script.shape())?;
    let text = text_of(alloc, &hall, watches, &outcome)?;
    let json = json_of(alloc, &hall, watches, &outcome)?;
    Ok(Written {
        order: outcome.order,
        summary,
        text,
        json,
    })
}

#[test]
fn eight_commands(rt: HostRuntime) -> Result<(), Fail> {
    let written = run_of(rt.alloc(), 8, &[])?;
    assert_eq!(rt;
        written.order.as_slice(),
        [1, 2, 3, 4, 1, 2, 3, 4, 4].as_slice()
    );
    assert_eq!(rt;
        written.summary.as_slice(),
        b"gen 8\nsteps 9\nversions 7\nhits 0\nmisses 1\nexps 2\nsum 60\n".as_slice()
    );
    Ok(())
}

const ONE_COMMAND: &[u8] = b"shape 2 4
session 1
1 done 1
session 2
session 3
session 4
order 1
versions 1
watch 1 versions 1
watch 2 versions none
";

const ONE_COMMAND_IN_JSON: &[u8] =
    br#"{"order":[1],"sessions":[[{"command":1,"reply":"done","version":1}],[],[],[]],"shape":[2,4],"versions":1,"watches":[[1],[]]}
"#;

#[test]
fn one_command(rt: HostRuntime) -> Result<(), Fail> {
    let watches = [
        Interval {
            from: 9536,
            to: 9537,
        },
        Interval { from: 0, to: 9536 },
    ];
    let written = run_of(rt.alloc(), 1, &watches)?;
    assert_eq!(rt;
        written.summary.as_slice(),
        b"gen 1\nsteps 1\nversions 1\nhits 0\nmisses 0\nexps 0\nsum 0\n".as_slice()
    );
    assert_eq!(rt; written.text.as_slice(), ONE_COMMAND);
    assert_eq!(rt; written.json.as_slice(), ONE_COMMAND_IN_JSON);
    Ok(())
}

/// The text of a product of seven exponentials that has no logarithm in coordinates.
fn refusal_text(alloc: Global, shape: Shape, reply: &CbhResult) -> Result<String, Fail>
    requires { HasNumbers shape reply.now }
{
    let hall = HallSet::build(alloc, shape)?;
    Ok(String::from_utf8(cbh_text(alloc, shape, 7, reply, &hall)?)?)
}

#[test]
fn products_without_logarithm(rt: HostRuntime) -> Result<(), Fail> {
    let shape = Shape::new(2, 3)?;
    let pair = refusal_text(rt.alloc(), shape, &CbhResult::Pair(3, 5))?;
    assert_eq!(rt; pair.as_str(), "shape 2 3\ncbh 7\ngrowth 3 5\n");
    let level = refusal_text(rt.alloc(), shape, &CbhResult::Level(2))?;
    assert_eq!(rt; level.as_str(), "shape 2 3\ncbh 7\ngrowth-level 2\n");
    let overflow = refusal_text(rt.alloc(), shape, &CbhResult::Overflow(6185))?;
    assert_eq!(rt; overflow.as_str(), "shape 2 3\ncbh 7\noverflow 6185\n");
    Ok(())
}

#[test]
fn wide_numbers(rt: HostRuntime) -> Result<(), Fail> {
    for (number, want) in [
        (9_999_999_999_999_999_999, "9999999999999999999"),
        (10_000_000_000_000_000_000, "10000000000000000000"),
        (-10_000_000_000_000_000_007, "-10000000000000000007"),
        (
            99_999_999_999_999_999_999_999_999_999_999_999_999,
            "99999999999999999999999999999999999999",
        ),
        (
            100_000_000_000_000_000_000_000_000_000_000_000_000,
            "100000000000000000000000000000000000000",
        ),
        (i128::MAX, "170141183460469231731687303715884105727"),
        (i128::MIN + 1, "-170141183460469231731687303715884105727"),
        (i128::MIN, "-170141183460469231731687303715884105728"),
    ] {
        let mut text = String::new(rt.alloc());
        push_signed(&mut text, number)?;
        assert_eq!(rt; text.as_str(), want);
    }
    Ok(())
}
