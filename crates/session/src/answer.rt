ghost use Rattle.std.specs.Prelude.{◌≡◌, ◌++◌, ◌∷◌, [], OnOk, OnErr};

use book::LookReply;
use lie_bracket::LieElement;
use scaled_tensor::Tensor;
use std::alloc::Global;
use std::marker::Model;
use versions::{Accepted, EditReply};
use words::Memory;

/// The answer to a command.
#[derive(Drop)]
pub enum Answer {
    Edit(EditReply),
    /// The signature of the rows in the rounded interval.
    Sig { reply: LookReply, tensor: Tensor },
    /// The logarithm of the signature of the rows in the rounded interval, in Hall coordinates.
    Log { reply: LookReply, lie: LieElement },
    /// A query that has no value.
    Refused(LookReply),
}

/// The answers of a session, in the order of its commands.
#[derive(Drop)]
pub struct Transcript {
    answers: Vec<Answer>,
}

impl Model for Transcript {
    ghost use Rattle.std.specs.Prelude.{List};
    ghost use Rattle.session.specs.declared.answer.Answer.{Answer};

    ghost Value = { List Answer };

    ghost view = { λ t. t.answers.items };
}

impl Transcript {
    /// The transcript of a vector.
    pub fn of(answers: Vec<Answer>) -> Transcript
        ensures { result ≡ answers.items }
    {
        Transcript { answers }
    }

    /// No answers.
    pub fn new(alloc: Global) -> Transcript
        ensures { result ≡ [] }
    {
        Transcript {
            answers: Vec::new(alloc),
        }
    }

    /// Adds an answer at the end. An answer that finds no room is dropped.
    pub fn push(&mut self, answer: Answer) -> Result<(), Memory>
        ensures ok { OnOk result (self.new ≡ self.old ++ answer ∷ []) }
        ensures err { OnErr result (self.new ≡ self.old) }
    {
        self.answers.push(answer)?;
        Ok(())
    }

    /// The answers as a slice.
    pub fn list(&self) -> &[Answer]
        ensures { result.now ≡ self.now }
    {
        &self.answers
    }
}

/// What a run gives.
#[derive(Drop)]
pub struct Outcome {
    /// One for each session.
    pub transcripts: Vec<Transcript>,
    /// The session of each step, in the order in which they were taken.
    pub order: Vec<u32>,
    /// The accepted edits, one for each version from 1.
    pub edits: Vec<Accepted>,
}
