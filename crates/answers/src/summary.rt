//! The summary of the run of a generated script.
ghost use Rattle.std.specs.Prelude.{◌≡◌, ◌+◌, ◌^◌, ◌<◌, ℕ, pos, ◌+ℤ◌, map, flat_map, fold, length, sum_by, IfOk};
ghost use Rattle.session.specs.Play.{DueOutcome};
ghost use Rattle.session.specs.Answers.{IsOutcome};
ghost use Rattle.answers.specs.Generator.{int_sum, int_mod, summary_text};
ghost use Rattle.answers.specs.Totals.{HasRoom, with_reply, with_kept, tensor_sum};

use lie_bracket::Term;
use scaled_tensor::Tensor;
use session::{Answer, LookReply, Outcome, Transcript};
use std::alloc::Global;
use words::{Memory, Shape};

/// What answers count together, and the sum of their numerators modulo 2^64.
#[derive(Clone, Copy, Drop)]
struct Totals {
    hits: u128,
    misses: u128,
    exps: u128,
    sum: u64,
}

/// A sum modulo 2^64 with a value more.
fn with_value(sum: u64, value: i128) -> u64
    ensures { result ≡ int_mod (pos sum +ℤ value) (2 ^ 64) }
{
    sum.wrapping_add(value.rem_euclid(1 << 64) as u64)
}

/// A sum modulo 2^64 with these values more.
fn with_values(sum: u64, values: &[i128]) -> u64
    ensures { result ≡ int_mod (pos sum +ℤ int_sum values.now) (2 ^ 64) }
{
    let mut sum = sum;
    for value in values {
        sum = with_value(sum, *value);
    }
    sum
}

/// A sum modulo 2^64 with the coefficients of the levels from 1 on.
fn with_levels(sum: u64, tensor: &Tensor) -> u64
    ensures { result ≡ int_mod (pos sum +ℤ tensor_sum tensor.now) (2 ^ 64) }
{
    let mut sum = sum;
    for before in 0..tensor.shape().depth() {
        sum = with_values(sum, tensor.level(before + 1));
    }
    sum
}

/// A sum modulo 2^64 with the factors of these terms.
fn with_terms(sum: u64, terms: &[Term]) -> u64
    ensures { result ≡ int_mod (pos sum +ℤ int_sum (map (λ t. t.factor) terms.now)) (2 ^ 64) }
{
    let mut sum = sum;
    for term in terms {
        sum = with_value(sum, term.factor);
    }
    sum
}

/// The totals with the counts of a reply more, and this sum.
fn with_counts(totals: Totals, reply: LookReply, sum: u64) -> Totals
    requires { HasRoom 1 totals }
    ensures value { result ≡ with_reply totals reply sum }
    ensures room { (n : ℕ) → HasRoom (n + 1) totals → HasRoom n result }
{
    match reply {
        LookReply::Found {
            hits,
            misses,
            exps,
            ..
        } => Totals {
            hits: totals.hits + hits as u128,
            misses: totals.misses + misses as u128,
            exps: totals.exps + exps as u128,
            sum,
        },
        _ => Totals { sum, ..totals },
    }
}

/// The totals with an answer more.
fn with_answer(totals: Totals, answer: &Answer) -> Totals
    requires { HasRoom 1 totals }
    ensures value { result ≡ with_kept totals answer.now }
    ensures room { (n : ℕ) → HasRoom (n + 1) totals → HasRoom n result }
{
    match answer {
        Answer::Sig { reply, tensor } => {
            with_counts(totals, *reply, with_levels(totals.sum, tensor))
        }
        Answer::Log { reply, lie } => {
            with_counts(totals, *reply, with_terms(totals.sum, lie.terms()))
        }
        Answer::Edit(_) | Answer::Refused(_) => totals,
    }
}

/// The totals with these answers more.
fn with_answers(totals: Totals, answers: &[Answer]) -> Totals
    requires { HasRoom (length answers.now) totals }
    ensures value { result ≡ fold with_kept totals answers.now }
    ensures room { (n : ℕ) → HasRoom (n + length answers.now) totals → HasRoom n result }
{
    let mut totals = totals;
    for answer in answers {
        totals = with_answer(totals, answer);
    }
    totals
}

/// The totals of all answers.
fn totals_of(transcripts: &[Transcript]) -> Totals
    requires { sum_by length transcripts.now < 2 ^ 64 }
    ensures { result ≡ fold with_kept (record { hits = 0; misses = 0; exps = 0; sum = 0 }) (flat_map (λ answers. answers) transcripts.now) }
{
    let mut totals = Totals {
        hits: 0,
        misses: 0,
        exps: 0,
        sum: 0,
    };
    for transcript in transcripts {
        totals = with_answers(totals, transcript.list());
    }
    totals
}

/// The summary of the run of the script that n generates: how many steps and versions there are, the sums of the counts of all values,
/// and the sum of their numerators modulo 2^64. Where the outcome is the one that is due, so is its summary.
pub fn summary_of(alloc: Global, n: u32, shape: Shape, outcome: &Outcome) -> Result<Vec<u8>, Memory>
    requires { sum_by length outcome.now.transcripts.items < 2 ^ 64 }
    ensures { IfOk result (λ text. (due : DueOutcome) → IsOutcome shape outcome.now due → text.items ≡ summary_text n shape due) }
{
    let mut text = String::new(alloc);
    let steps = outcome.order.len();
    let versions = outcome.edits.len();
    let Totals {
        hits,
        misses,
        exps,
        sum,
    } = totals_of(&outcome.transcripts);
    write!(text, "gen {n}\nsteps {steps}\nversions {versions}")?;
    writeln!(
        text,
        "\nhits {hits}\nmisses {misses}\nexps {exps}\nsum {sum}"
    )?;
    Ok(text.into_bytes())
}
