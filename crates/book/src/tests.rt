ghost use Rattle.std.specs.Prelude.{◌≡◌, ◌<◌, ◌≤◌, ◌^◌, List, IfOk};
ghost use Rattle.definitions.specs.Moves.{IsMove};
ghost use Rattle.solve.specs.declared.solution.SolvedNode.{SolvedNode};
ghost use Rattle.versions.specs.Versions.{IsEdit};
ghost use Rattle.book.specs.Looks.{IsQuery, AllowsSignatures};
ghost use Rattle.book.specs.Play.{pending_of};
ghost use Rattle.book.specs.Books.{IsReady, IsFree, IsSession, IsSettledBy, IsPendingOr, state_of, log_of};

use crate::{Allowed, Book, EditReply, Kind, Look, LookReply, Query, Step};
use hall_set::HallSet;
use increments::Name;
use solve::{Solved, Through, solve};
use std::alloc::Global;
use std::marker::Model;
use std::process::Abort;
use std::test::Fail;
use tensor_product::Sig;
use versions::Edit;
use words::{Bound, Capacity, Entries, Free, Move, Shape, Steps};

const SECOND: u64 = 65536;

/// The reply to a look, how many nodes its settle kept where it missed some, and the signature where it has one.
#[derive(Drop)]
struct Answer {
    reply: LookReply,
    kept: Option<u64>,
    sig: Option<Sig>,
}

fn capacity(nodes: u32) -> Result<Capacity, Fail> {
    Ok(Capacity::new(nodes).ok_or("no capacity")?)
}

fn name(alloc: Global, text: &str) -> Result<Name, Fail> {
    Ok(Name::of(String::from_str(alloc, text)?)?)
}

fn single(alloc: Global, shape: Shape, entries: &[i64]) -> Result<Move, Fail>
    ensures { IfOk result (λ x. IsMove shape x) }
{
    let mut parts = Vec::new(alloc);
    parts.push(Entries::of(Vec::from_slice(alloc, entries)?))?;
    Ok(Move::of(alloc, shape, parts)?.ok_or("no such move")?)
}

/// The signature of a shape over these ticks.
fn sig(shape: Shape, from: u64, to: u64, version: Option<u64>) -> Query
    requires forward { from ≤ to }
    requires end { to ≤ 2 ^ 32 }
    ensures query { IsQuery result }
    ensures allowed { AllowsSignatures shape result.allowed }
{
    Query {
        kind: Kind::Sig,
        from,
        to,
        r: 0,
        version,
        allowed: Allowed::Fits(Bound::flat(shape)),
    }
}

/// The session may take a step.
fn ready(book: &Book, session: u32) -> Result<(), &'static str>
    requires { IsSession book.now.sessions session }
    ensures { IfOk result (λ _. IsReady book.now session) }
{
    if book.spent() || book.history().len() >= 4096 {
        return Err("not ready");
    }
    Ok(())
}

/// The session has no pending look.
fn free(book: &Book, session: u32) -> Result<(), &'static str>
    requires { IsSession book.now.sessions session }
    ensures { IfOk result (λ _. IsFree book.now session) }
{
    if book.pending(session) {
        return Err("pending");
    }
    Ok(())
}

/// An edit by session 2, which leaves what settles the look of session 1.
fn edit(alloc: Global, book: &mut Book, e: &Edit) -> Result<EditReply, Fail>
    requires sessions { book.old.sessions ≡ 2 }
    requires edit { IsEdit book.old.extent e.now }
    ensures sessions { book.new.sessions ≡ book.old.sessions }
    ensures extent { book.new.extent ≡ book.old.extent }
    ensures settles { (solved : List SolvedNode) → IsSettledBy (log_of book.old) (pending_of 1 (state_of book.old).pending) solved
        → IsPendingOr (state_of book.old).edits (pending_of 1 (state_of book.old).pending)
        → IsSettledBy (log_of book.new) (pending_of 1 (state_of book.new).pending) solved × IsPendingOr (state_of book.new).edits (pending_of 1 (state_of book.new).pending) }
{
    ready(book, 2)?;
    free(book, 2)?;
    Ok(book.edit(alloc, 2, e)?)
}

fn append(
    alloc: Global,
    book: &mut Book,
    shape: Shape,
    text: &str,
    tick: u64,
    entries: &[i64],
) -> Result<EditReply, Fail>
    requires sessions { book.old.sessions ≡ 2 }
    requires extent { book.old.extent ≡ shape }
    requires tick { tick < 2 ^ 32 }
    ensures sessions { book.new.sessions ≡ book.old.sessions }
    ensures extent { book.new.extent ≡ book.old.extent }
{
    let x = single(alloc, shape, entries)?;
    let name = name(alloc, text)?;
    edit(alloc, book, &Edit::Append { name, tick, x })
}

/// Corrects the row named `a`, so many times.
fn correct(alloc: Global, book: &mut Book, shape: Shape, times: u64) -> Result<(), Fail>
    requires sessions { book.old.sessions ≡ 2 }
    requires extent { book.old.extent ≡ shape }
    ensures sessions { book.new.sessions ≡ book.old.sessions }
    ensures extent { book.new.extent ≡ book.old.extent }
    ensures settles { (solved : List SolvedNode) → IsSettledBy (log_of book.old) (pending_of 1 (state_of book.old).pending) solved
        → IsPendingOr (state_of book.old).edits (pending_of 1 (state_of book.old).pending)
        → IsSettledBy (log_of book.new) (pending_of 1 (state_of book.new).pending) solved × IsPendingOr (state_of book.new).edits (pending_of 1 (state_of book.new).pending) }
{
    for _time in 0..times {
        let name = name(alloc, "a")?;
        let x = single(alloc, shape, &[6])?;
        edit(alloc, book, &Edit::Correct { name, x })?;
    }
    Ok(())
}

fn reply_of(look: &Look) -> LookReply {
    match look {
        Look::Work(work) => LookReply::Found {
            version: work.version(),
            hits: work.hits(),
            misses: work.misses(),
            exps: work.exps(),
        },
        Look::NoVersion(current) => LookReply::NoVersion(*current),
        Look::Pair(a, b) => LookReply::Pair(*a, *b),
        Look::Level(k) => LookReply::Level(*k),
        Look::Overflow(weight) => LookReply::Overflow(*weight),
    }
}

fn found(version: u64, hits: u64, misses: u64, exps: u64) -> LookReply {
    LookReply::Found {
        version,
        hits,
        misses,
        exps,
    }
}

/// A look by session 1, which is solved, and settled after so many corrections by session 2 where it misses nodes.
fn ask(alloc: Global, book: &mut Book, shape: Shape, q: Query, times: u64) -> Result<Answer, Fail>
    requires sessions { book.old.sessions ≡ 2 }
    requires extent { book.old.extent ≡ shape }
    requires query { IsQuery q }
    requires allowed { AllowsSignatures shape q.allowed }
    ensures sessions { book.new.sessions ≡ book.old.sessions }
    ensures extent { book.new.extent ≡ book.old.extent }
{
    let mut steps = Steps::new(Free);
    ready(book, 1)?;
    free(book, 1)?;
    let look = book.look(alloc, 1, q, &mut steps)?;
    let reply = reply_of(&look);
    let Look::Work(work) = look else {
        return Ok(Answer {
            reply,
            kept: None,
            sig: None,
        });
    };
    let hall = HallSet::build(alloc, shape)?;
    let solved = solve(alloc, &work, &hall, 1, &Through, &mut steps)?;
    let mut kept = None;
    if book.pending(1) {
        correct(alloc, book, shape, times)?;
        kept = Some(settle(book, &solved)?);
    }
    Ok(Answer {
        reply,
        kept,
        sig: Some(solved.sig),
    })
}

fn settle(book: &mut Book, solved: &Solved) -> Result<u64, Fail>
    requires sessions { book.old.sessions ≡ 2 }
    requires settled { IsSettledBy (log_of book.old) (pending_of 1 (state_of book.old).pending) solved.now.nodes.items }
    ensures sessions { book.new.sessions ≡ book.old.sessions }
    ensures extent { book.new.extent ≡ book.old.extent }
{
    ready(book, 1)?;
    Ok(book.settle(1, solved)?)
}

/// A book of two sessions: session 1 looks, and session 2 edits.
#[derive(Drop)]
struct Trial {
    book: Book,
    shape: Shape,
}

impl Model for Trial {
    ghost use Rattle.std.specs.Prelude.{◌≡◌};
    ghost use Rattle.book.specs.Books.{BookValue};

    ghost Value = { BookValue };

    ghost view = { λ t. t.book };

    ghost invariant = { λ t. (t.book.sessions ≡ 2) × (t.book.extent ≡ t.shape) };
}

impl Trial {
    fn new(alloc: Global, shape: Shape, capacity: Capacity) -> Result<Trial, Fail> {
        let book = Book::new(alloc, shape, capacity, 2)?;
        Ok(Trial { book, shape })
    }

    fn append(
        &mut self,
        alloc: Global,
        text: &str,
        tick: u32,
        entries: &[i64],
    ) -> Result<EditReply, Fail> {
        append(
            alloc,
            &mut self.book,
            self.shape,
            text,
            tick as u64,
            entries,
        )
    }

    /// Corrects the row named `a`, so many times.
    fn correct(&mut self, alloc: Global, times: u64) -> Result<(), Fail> {
        correct(alloc, &mut self.book, self.shape, times)
    }

    /// A look at the signature of some seconds, settled after so many corrections where it misses nodes.
    fn ask(
        &mut self,
        alloc: Global,
        from: u8,
        seconds: u8,
        version: Option<u64>,
        times: u64,
    ) -> Result<Answer, Fail> {
        let from = from as u64 * SECOND;
        let to = from + seconds as u64 * SECOND;
        let q = sig(self.shape, from, to, version);
        ask(alloc, &mut self.book, self.shape, q, times)
    }

    /// The reply for the signature of one second, and how many nodes were kept where it missed some.
    fn second(
        &mut self,
        alloc: Global,
        at: u8,
        version: Option<u64>,
    ) -> Result<(LookReply, Option<u64>), Fail> {
        let answer = self.ask(alloc, at, 1, version, 0)?;
        Ok((answer.reply, answer.kept))
    }

    /// The reply for second 1 where no rows have an answer.
    fn allowing(
        &mut self,
        alloc: Global,
        version: Option<u64>,
        pair: bool,
    ) -> Result<LookReply, Fail> {
        let q = Query {
            kind: Kind::Log,
            from: SECOND,
            to: 2 * SECOND,
            r: 0,
            version,
            allowed: if pair {
                Allowed::Pair(1, 2)
            } else {
                Allowed::Level(2)
            },
        };
        Ok(ask(alloc, &mut self.book, self.shape, q, 0)?.reply)
    }
}

fn levels_are(rt: &impl Abort, sig: &Sig, expected: &[&[i128]]) {
    let depth = sig.tensor().shape().depth();
    assert_eq!(rt; expected.len(), depth as usize + 1);
    for k in 0..=depth {
        assert_eq!(rt; sig.tensor().level(k), expected[k as usize]);
    }
}

#[test]
fn kept_node_is_found(rt: HostRuntime) -> Result<(), Fail> {
    let alloc = rt.alloc();
    let mut trial = Trial::new(alloc, Shape::new(2, 2)?, Capacity::usual())?;
    trial.append(alloc, "a", 0, &[2, 3])?;
    for (hits, misses, kept) in [(0, 1, Some(1)), (1, 0, None)] {
        let answer = trial.ask(alloc, 0, 1, None, 0)?;
        assert_eq!(rt; answer.reply, found(1, hits, misses, misses));
        assert_eq!(rt; answer.kept, kept);
        let sig = answer.sig.ok_or("no signature")?;
        levels_are(&rt, &sig, &[&[1], &[2, 3], &[4, 6, 6, 9]]);
    }
    Ok(())
}

#[test]
fn nodes_of_old_looks(rt: HostRuntime) -> Result<(), Fail> {
    let alloc = rt.alloc();
    for (times, kept) in [(0, 1), (1, 1), (64, 1), (65, 0)] {
        let mut trial = Trial::new(alloc, Shape::new(1, 1)?, Capacity::usual())?;
        trial.append(alloc, "a", 0, &[5])?;
        let answer = trial.ask(alloc, 0, 1, None, times)?;
        assert_eq!(rt; answer.reply, found(1, 0, 1, 1));
        assert_eq!(rt; answer.kept, Some(kept), "after {times}");
    }
    Ok(())
}

#[test]
fn pairs_go_after_64_versions(rt: HostRuntime) -> Result<(), Fail> {
    let alloc = rt.alloc();
    for (times, hits, misses, kept) in [(64, 1, 0, None), (65, 0, 1, Some(0))] {
        let mut trial = Trial::new(alloc, Shape::new(1, 1)?, Capacity::usual())?;
        trial.append(alloc, "a", 0, &[5])?;
        trial.second(alloc, 0, None)?;
        trial.correct(alloc, times)?;
        for _look in 0..2 {
            let reply = trial.second(alloc, 0, Some(1))?;
            assert_eq!(rt;
                reply,
                (found(1, hits, misses, misses), kept),
                "after {times}"
            );
        }
    }
    Ok(())
}

#[test]
fn last_pair_goes_at_the_capacity(rt: HostRuntime) -> Result<(), Fail> {
    let alloc = rt.alloc();
    for (nodes, hits, misses) in [(1, 0, 1), (2, 1, 0)] {
        let mut trial = Trial::new(alloc, Shape::new(1, 1)?, capacity(nodes)?)?;
        trial.append(alloc, "a", 0, &[5])?;
        trial.append(alloc, "b", 65536, &[7])?;
        for (at, hits, misses) in [(0, 0, 1), (1, 0, 1), (0, hits, misses)] {
            let reply = trial.second(alloc, at, None)?;
            assert_eq!(rt;
                reply.0,
                found(2, hits, misses, misses),
                "with {nodes} nodes"
            );
        }
    }
    Ok(())
}

/// Seconds 1 and 3 were looked at, in this order; a refused look at second 1 and then second 4 follow.
#[test]
fn refused_looks_move_no_pair(rt: HostRuntime) -> Result<(), Fail> {
    let alloc = rt.alloc();
    let mut trial = Trial::new(alloc, Shape::new(1, 8)?, capacity(2)?)?;
    for (text, tick, entry) in [
        ("a", 65536, 5),
        ("b", 131_072, 60097),
        ("c", 196_608, 7),
        ("d", 262_144, 8),
    ] {
        trial.append(alloc, text, tick, &[entry])?;
    }
    trial.second(alloc, 1, None)?;
    trial.second(alloc, 3, None)?;
    let answer = trial.ask(alloc, 1, 2, None, 0)?;
    assert_eq!(rt; answer.reply, LookReply::Overflow(60102));
    for (pair, version, reply) in [
        (true, None, LookReply::Pair(1, 2)),
        (false, Some(1), LookReply::Level(2)),
        (true, Some(5), LookReply::NoVersion(4)),
        (false, Some(5), LookReply::NoVersion(4)),
    ] {
        assert_eq!(rt; trial.allowing(alloc, version, pair)?, reply);
    }
    for (at, hits, misses) in [(4, 0, 1), (3, 1, 0), (1, 0, 1)] {
        let reply = trial.second(alloc, at, None)?;
        assert_eq!(rt; reply.0, found(4, hits, misses, misses), "at {at}");
    }
    Ok(())
}

/// What a step was replied: to an edit, to a look, or to a settle.
fn told(step: &Step) -> (u32, Option<EditReply>, Option<LookReply>, Option<u64>) {
    match step {
        Step::Edited(session, _, reply) => (*session, Some(*reply), None, None),
        Step::Looked(session, _, reply) => (*session, None, Some(*reply), None),
        Step::Settled(session, kept) => (*session, None, None, Some(*kept)),
    }
}

#[test]
fn history_has_each_reply(rt: HostRuntime) -> Result<(), Fail> {
    let alloc = rt.alloc();
    let mut trial = Trial::new(alloc, Shape::new(1, 1)?, Capacity::usual())?;
    trial.correct(alloc, 1)?;
    trial.append(alloc, "a", 0, &[5])?;
    trial.append(alloc, "a", 9, &[5])?;
    for version in [Some(2), None, Some(0)] {
        trial.second(alloc, 0, version)?;
    }
    let expected = [
        (2, Some(EditReply::NoRow(0)), None, None),
        (2, Some(EditReply::Done(1)), None, None),
        (2, Some(EditReply::NameTaken(1)), None, None),
        (1, None, Some(LookReply::NoVersion(1)), None),
        (1, None, Some(found(1, 0, 1, 1)), None),
        (1, None, None, Some(1)),
        (1, None, Some(found(0, 0, 0, 0)), None),
    ];
    let mut replies = Vec::new(alloc);
    for step in trial.book.history() {
        replies.push(told(step))?;
    }
    assert_eq!(rt; replies.as_slice(), expected.as_slice());
    assert_eq!(rt; (trial.book.version(), trial.book.spent()), (1, false));
    assert_eq!(rt;
        (trial.book.pending(1), trial.book.pending(2)),
        (false, false)
    );
    Ok(())
}

/// Nine rows of one second, at these sixteenths of it.
fn nine_rows(alloc: Global) -> Result<Trial, Fail> {
    let mut trial = Trial::new(alloc, Shape::new(1, 1)?, Capacity::usual())?;
    for (text, at) in [
        ("b", 0u8),
        ("c", 1),
        ("d", 2),
        ("e", 3),
        ("f", 4),
        ("a", 8),
        ("g", 9),
        ("h", 10),
        ("i", 11),
    ] {
        trial.append(alloc, text, 4096 * at as u32, &[1])?;
    }
    Ok(trial)
}

#[test]
fn half_of_nine_rows_is_found(rt: HostRuntime) -> Result<(), Fail> {
    let alloc = rt.alloc();
    let mut trial = nine_rows(alloc)?;
    let reply = trial.second(alloc, 0, None)?;
    assert_eq!(rt; reply, (found(9, 0, 3, 9), Some(3)));
    trial.correct(alloc, 1)?;
    let reply = trial.second(alloc, 0, None)?;
    assert_eq!(rt; reply, (found(10, 1, 2, 4), Some(2)));
    Ok(())
}
