//! Laws of keys. The functions do nothing: what they ensure is the law.
ghost use Rattle.std.specs.Prelude.{◌≡◌, ◌<◌, ◌^◌, ℕ, List, [], ◌∷◌, All, map, Some};
ghost use Rattle.std.specs.List.{IsDistinct};
ghost use Rattle.std.specs.Str.{bytes_eq};
ghost use Rattle.definitions.specs.Moves.{Parts};
ghost use Rattle.definitions.specs.Rows.{RowValue, with_row};
ghost use Rattle.increments.specs.Edits.{IsInOrder, row_of, with_move, without};
ghost use Rattle.timeline.specs.Keys.{key_of, with_at};

/// What an edit makes of rows in order is a change at the key of its row.
pub fn edits_change_keys()
    ensures appended { (row : RowValue) (rows : List RowValue) → IsInOrder rows → row.birth < 2 ^ 31 → All (λ r. r.birth < row.birth) rows → with_row row rows ≡ with_at (key_of row) (row ∷ []) rows }
    ensures corrected { (name : List ℕ) (row : RowValue) (x : Parts) (rows : List RowValue) → IsInOrder rows → IsDistinct bytes_eq (map (λ r. r.name) rows) → All (λ r. r.birth < 2 ^ 31) rows → row_of name rows ≡ Some row → with_move name x rows ≡ with_at (key_of row) (record row { x = x } ∷ []) rows }
    ensures removed { (name : List ℕ) (row : RowValue) (rows : List RowValue) → IsInOrder rows → IsDistinct bytes_eq (map (λ r. r.name) rows) → All (λ r. r.birth < 2 ^ 31) rows → row_of name rows ≡ Some row → without name rows ≡ with_at (key_of row) [] rows }
{}
