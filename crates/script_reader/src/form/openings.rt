//! The shape line, and the lines that open sessions.
ghost use Rattle.std.specs.Prelude.{◌≡◌, None, map, MatchResult};
ghost use Rattle.definitions.specs.Words.{IsShape};
ghost use Rattle.script_reader.specs.Limits.{nothing_said};
ghost use Rattle.script_reader.specs.Forms.{form_reason, extent_of, shape_form, session_form};
ghost use Rattle.script_reader.specs.Reading.{IsRefusal, Reads};

use crate::fault::{LineFault, Reason};
use crate::form::fields::number_at;
use crate::said::Said;
use crate::tally::Tally;
use words::{Shape, ShapeFault};

const MOST_SESSIONS: u64 = 16;

/// The shape that the words of a shape line name, which stands where it may.
pub fn shape_of(words: &[&[u8]]) -> Result<Shape, LineFault>
    ensures { let spelled = map (λ w. w.now) words.now in let due = form_reason shape_form nothing_said spelled in
        MatchResult result (λ shape. (due ≡ None) × IsShape shape × (shape ≡ extent_of spelled)) (λ fault. IsRefusal due fault) }
{
    if words.len() != 3 {
        return Err(LineFault::Bad(Reason::Fields));
    }
    let (Some(width), Some(depth)) = (number_at(words, 1), number_at(words, 2)) else {
        return Err(LineFault::Bad(Reason::Number));
    };
    match Shape::new(width as u32, depth as u32) {
        Ok(shape) => Ok(shape),
        Err(ShapeFault::Width(_)) => Err(LineFault::Bad(Reason::Width)),
        Err(ShapeFault::Depth(_)) => Err(LineFault::Bad(Reason::Depth)),
        Err(ShapeFault::Words(_)) => Err(LineFault::Bad(Reason::Words)),
    }
}

/// A shape line.
pub(crate) fn read_shape(tally: &Tally, words: &[&[u8]]) -> Result<Said, LineFault>
    ensures { Reads shape_form tally.now (map (λ w. w.now) words.now) result }
{
    if tally.shape.is_some() {
        return Err(LineFault::Bad(Reason::Place));
    }
    let shape = shape_of(words)?;
    Ok(Said::Shape(shape))
}

/// A session line.
pub(crate) fn read_session(tally: &Tally, words: &[&[u8]]) -> Result<Said, LineFault>
    ensures { Reads session_form tally.now (map (λ w. w.now) words.now) result }
{
    if tally.shape.is_none() {
        return Err(LineFault::Bad(Reason::Place));
    }
    if words.len() != 2 {
        return Err(LineFault::Bad(Reason::Fields));
    }
    let Some(number) = number_at(words, 1) else {
        return Err(LineFault::Bad(Reason::Number));
    };
    if number.checked_sub(1) != Some(tally.sessions) || number > MOST_SESSIONS {
        return Err(LineFault::Bad(Reason::Session));
    }
    Ok(Said::Session)
}
