//! Lists of Lie elements: a shape line, and a line of coordinates for each element.
ghost use Rattle.std.specs.Prelude.{◌≡◌, ◌≢◌, ◌≤◌, [], map, length, All, None, Some, Ok, Err, IfOk, IfErr, MatchOption, MatchResult};
ghost use Rattle.definitions.specs.Words.{IsShape};
ghost use Rattle.definitions.specs.Moves.{IsMove};
ghost use Rattle.script_reader.specs.Fields.{entries_of};
ghost use Rattle.script_reader.specs.Coordinates.{degree_counts, lie_move};
ghost use Rattle.script_reader.specs.Limits.{named};
ghost use Rattle.script_reader.specs.Forms.{extent_of};
ghost use Rattle.script_reader.specs.Reading.{IsRefusal};
ghost use Rattle.cbh_calc.specs.Elements.{shape_reason, element_reason, reason_after, moves_in};
ghost use Rattle.cbh_calc.specs.ElementReading.{extent_with, moves_with, Keeps};

use script_reader::lines::{
    LineFault, MOST_BYTES, counts_of, degree_with, entries_in, fault_at, has_allowed_bytes,
    lie_move, line_at, shape_of, word_at,
};
use script_reader::{Reason, ScriptFault};
use spellings::{is_content, words_in};
use std::alloc::Global;
use words::{Move, Shape};

/// The most elements of a list.
const MOST_ELEMENTS: usize = 4096;

/// A shape, and Lie elements of it in order, as moves: at most 4,096.
#[derive(Drop)]
pub struct MoveList {
    pub shape: Shape,
    pub moves: Vec<Move>,
}

/// The shape that the first content line names.
fn read_shape(words: &[&[u8]]) -> Result<Shape, LineFault>
    ensures { let due = shape_reason (map (λ w. w.now) words.now) in
        MatchResult result (λ shape. (due ≡ None) × IsShape shape × (shape ≡ extent_of (map (λ w. w.now) words.now))) (λ fault. IsRefusal due fault) }
{
    if words.is_empty() || word_at(words, 0) != b"shape".as_slice() {
        return Err(LineFault::Bad(Reason::Place));
    }
    shape_of(words)
}

/// The move of a later line, which so many elements precede; the counts are those of the coordinates of the shape.
fn read_element(
    alloc: Global,
    shape: Shape,
    counts: &[usize],
    before: usize,
    words: &[&[u8]],
) -> Result<Move, LineFault>
    requires { counts.now ≡ degree_counts shape }
    ensures { let spelled = map (λ w. w.now) words.now in let due = element_reason shape before spelled in
        MatchResult result (λ x. (due ≡ None) × IsMove shape x × (x ≡ lie_move shape (entries_of spelled))) (λ fault. IsRefusal due fault) }
{
    let Some(degree) = degree_with(shape, counts, words.len()) else {
        return Err(LineFault::Bad(Reason::Fields));
    };
    let Some(entries) = entries_in(alloc, words)? else {
        return Err(LineFault::Bad(Reason::Number));
    };
    if before >= MOST_ELEMENTS {
        return Err(LineFault::Bad(Reason::Commands));
    }
    let x = lie_move(alloc, shape, counts, degree, entries)?;
    Ok(x)
}

/// A list as far as it was read.
#[derive(Drop)]
struct Reader {
    /// The shape that the first content line names.
    shape: Option<Shape>,
    /// How many coordinates it has up to each degree.
    counts: Vec<usize>,
    moves: Vec<Move>,
}

impl Reader {
    /// Before the first line.
    fn new(alloc: Global) -> Reader
        ensures shape { result.shape ≡ None }
        ensures moves { result.moves.items ≡ [] }
    {
        Reader {
            shape: None,
            counts: Vec::new(alloc),
            moves: Vec::new(alloc),
        }
    }

    /// Reads the words of the next content line.
    fn read(&mut self, alloc: Global, line: &[u8]) -> Result<(), LineFault>
        requires keeps { Keeps self.old.shape self.old.moves.items }
        requires counted { MatchOption self.old.shape (self.old.moves.items ≡ []) (λ shape. self.old.counts.items ≡ degree_counts shape) }
        ensures read { let due = reason_after self.old.shape (length self.old.moves.items) line.now in
            MatchResult result (λ _. (due ≡ None) × (self.new.shape ≡ Some (extent_with self.old.shape line.now)) × (self.new.moves.items ≡ moves_with self.old.shape self.old.moves.items line.now)) (λ fault. IsRefusal due fault) }
        ensures keeps { IfOk result (λ _. Keeps self.new.shape self.new.moves.items) }
        ensures counted { IfOk result (λ _. self.new.counts.items ≡ degree_counts (named self.new.shape)) }
    {
        if !has_allowed_bytes(line) {
            return Err(LineFault::Bad(Reason::Byte));
        }
        let words = words_in(alloc, line)?;
        match self.shape {
            None => {
                let shape = read_shape(&words)?;
                self.counts = counts_of(alloc, shape)?;
                self.shape = Some(shape);
                Ok(())
            }
            Some(shape) => {
                let before = self.moves.len();
                let x = read_element(alloc, shape, &self.counts, before, &words)?;
                self.moves.push(x)?;
                Ok(())
            }
        }
    }
}

/// The list of elements that the bytes spell, or why they spell none; the time is linear in their number.
pub fn read_moves(alloc: Global, bytes: &[u8]) -> Result<MoveList, ScriptFault>
    ensures read { IfOk result (λ list. moves_in bytes.now ≡ Ok (record { extent = list.shape; moves = list.moves.items })) }
    ensures kept { IfOk result (λ list. (length list.moves.items ≤ 4096) × All (IsMove list.shape) list.moves.items) }
    ensures refused { IfErr result (λ fault. fault ≢ ScriptFault.Memory → moves_in bytes.now ≡ Err fault) }
{
    if bytes.len() > MOST_BYTES {
        return Err(ScriptFault::Size);
    }
    let mut reader = Reader::new(alloc);
    let mut number = 0;
    let mut from = 0;
    while let Some((end, after)) = line_at(bytes, from) {
        let line = &bytes[from..end];
        number += 1;
        from = after;
        if is_content(line) {
            if let Err(fault) = reader.read(alloc, line) {
                return Err(fault_at(number, fault));
            }
        }
    }
    match reader.shape {
        Some(shape) => Ok(MoveList {
            shape,
            moves: reader.moves,
        }),
        None => Err(ScriptFault::Line(number + 1, Reason::End)),
    }
}
