//! Lines, words and the numbers that words spell, found without memory; and what other formats of such lines share with scripts:
//! the bytes that may stand in a line, the shape line, and the coordinates of Lie elements.

pub use crate::coordinates::{counts_of, degree_with, lie_move};
pub use crate::fault::{LineFault, fault_at};
pub use crate::form::fields::{entries_in, word_at};
pub use crate::form::has_allowed_bytes;
pub use crate::form::openings::shape_of;
pub use crate::reader::MOST_BYTES;
pub use spellings::{line_at, plain, whole_number as whole, word_in};
