//! Laws of partitions of an interval. The functions do nothing: what they ensure is the law.
ghost use Rattle.std.specs.Prelude.{◌≡◌, ℕ, List, map, flat_map};
ghost use Rattle.definitions.specs.Rows.{RowValue, rounded, rows_in, moves_of};
ghost use Rattle.increments.specs.Edits.{IsInOrder};
ghost use Rattle.piecewise.specs.Partitions.{IsRising, last_of, parts_of};

/// The moves of the rows of an interval are those of the parts of a partition of it, one part after
/// another.
pub fn moves_of_parts()
    ensures { (rows : List RowValue) (start : ℕ) (times : List ℕ) → IsInOrder rows → IsRising start times → moves_of (rows_in start (last_of start times) rows) ≡ flat_map moves_of (parts_of start times rows) }
{}

/// Rounding keeps the order of times, so the parts of a partition, with rounded ends, are a
/// partition.
pub fn rounding_keeps_order()
    ensures { (r start : ℕ) (times : List ℕ) → IsRising start times → IsRising (rounded r start) (map (rounded r) times) }
{}
