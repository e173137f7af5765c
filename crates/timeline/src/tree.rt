//! The tree nodes of all versions.
ghost use Rattle.std.specs.Prelude.{◌≡◌, ◌≢◌, ◌+◌, ◌*◌, ◌/◌, ◌<◌, ◌≤◌, ◌^◌, [], ◌∷◌, length, IfOk, IfSome, OnErr};
ghost use Rattle.std.specs.Bool.{OnTrue, OnFalse};
ghost use Rattle.timeline.specs.Keys.{key_of};
ghost use Rattle.timeline.specs.Tries.{rows_of};
ghost use Rattle.timeline.specs.Stores.{store_of, span_at, edit_key, weight_in, trie, Stands};
ghost use Rattle.timeline.specs.Puts.{AreFit, GainsSpans, GainsRows, IsAppended, IsJoined, IsTip, IsPut, listed};

use crate::span::Span;
use increments::Row;
use words::Memory;

/// All tree nodes of all versions, the rows that they speak of, and the key that each edit touched.
#[derive(Drop)]
pub struct Tree {
    pub spans: Vec<Span>,
    pub rows: Vec<Row>,
    pub keys: Vec<u64>,
}

/// The place of the next element in a list of so many, where places have 32 bits.
fn next_place(len: usize) -> Result<u32, Memory>
    ensures { IfOk result (λ place. place ≡ len) }
{
    if len >= 1 << 32 {
        return Err(Memory);
    }
    Ok(len as u32)
}

/// The key without its last digits, this many.
pub fn prefix(key: u64, height: u32) -> u64
    requires { height ≤ 63 }
    ensures { result ≡ key / 2 ^ height }
{
    key >> height
}

/// Whether the key is in the lower half of a node: the digit before the last ones, this many, is 0.
pub fn is_lower(key: u64, half: u32) -> bool
    requires { half ≤ 62 }
    ensures lower { OnTrue result (key / 2 ^ half ≡ 2 * (key / 2 ^ (half + 1))) }
    ensures higher { OnFalse result (key / 2 ^ half ≡ 2 * (key / 2 ^ (half + 1)) + 1) }
{
    prefix(key, half) % 2 == 0
}

/// The height of the halves of the least node that has both keys.
fn parting(a: u64, b: u64, height: u32, limit: u32) -> u32
    requires bound { limit ≤ 63 }
    requires height { height ≤ limit }
    requires apart { a / 2 ^ height ≢ b / 2 ^ height }
    requires together { a / 2 ^ limit ≡ b / 2 ^ limit }
    ensures height { height ≤ result }
    ensures limit { result < limit }
    ensures apart { a / 2 ^ result ≢ b / 2 ^ result }
    ensures together { a / 2 ^ (result + 1) ≡ b / 2 ^ (result + 1) }
{
    let mut half = height;
    while prefix(a, half + 1) != prefix(b, half + 1) {
        half += 1;
    }
    half
}

impl Tree {
    /// One tree node more. Answers its place.
    fn push_span(&mut self, span: Span) -> Result<u32, Memory>
        ensures ok { IfOk result (IsAppended (store_of self.old) (store_of self.new) span) }
        ensures err { OnErr result (GainsSpans (store_of self.old) (store_of self.new)) }
    {
        let place = next_place(self.spans.len())?;
        self.spans.push(span)?;
        Ok(place)
    }

    /// The tree node of one key, with this row.
    fn tip_with(&mut self, edit: u32, row: Row) -> Result<u32, Memory>
        requires edit { edit < length self.old.keys.items }
        requires key { key_of row ≡ edit_key (store_of self.old) edit }
        requires birth { row.birth < 2 ^ 31 }
        requires fit { AreFit (store_of self.old) }
        ensures ok { IfOk result (IsTip (store_of self.new) edit (row ∷ [])) }
        ensures grown { GainsRows (store_of self.old) (store_of self.new) }
    {
        let place = next_place(self.rows.len())?;
        let weight = row.x().weight();
        self.rows.push(row)?;
        self.push_span(Span::new(0, 0, place, edit, 1, weight))
    }

    /// The tree node of one key, with this row or none.
    pub fn tip(&mut self, edit: u32, row: Option<Row>) -> Result<u32, Memory>
        requires edit { edit < length self.old.keys.items }
        requires key { IfSome row (λ r. key_of r ≡ edit_key (store_of self.old) edit) }
        requires birth { IfSome row (λ r. r.birth < 2 ^ 31) }
        requires fit { AreFit (store_of self.old) }
        ensures ok { IfOk result (IsTip (store_of self.new) edit (listed row)) }
        ensures grown { GainsRows (store_of self.old) (store_of self.new) }
    {
        match row {
            Some(row) => self.tip_with(edit, row),
            None => self.push_span(Span::new(0, 0, 0, edit, 0, 0)),
        }
    }

    /// The tree node over two halves of this height.
    fn join(&mut self, half: u32, left: u32, right: u32, edit: u32) -> Result<u32, Memory>
        requires half { half ≤ 62 }
        requires left { left < length self.old.spans.items }
        requires right { right < length self.old.spans.items }
        requires count { (span_at (store_of self.old) left).count + (span_at (store_of self.old) right).count < 2 ^ 32 }
        requires weight { weight_in (span_at (store_of self.old) left) + weight_in (span_at (store_of self.old) right) < 2 ^ 96 }
        ensures ok { IfOk result (IsJoined (store_of self.old) (store_of self.new) half left right edit) }
        ensures err { OnErr result (GainsSpans (store_of self.old) (store_of self.new)) }
    {
        let lower = self.spans[left as usize];
        let higher = self.spans[right as usize];
        let count = lower.count + higher.count;
        let weight = lower.weight() + higher.weight();
        self.push_span(Span::new(half + 1, left, right, edit, count, weight))
    }

    /// The least tree node over the one at `at` and the new one of one key at `tip`.
    fn graft(&mut self, limit: u32, at: u32, tip: u32, edit: u32) -> Result<u32, Memory>
        requires limit { limit ≤ 63 }
        requires edit { edit < length self.old.keys.items }
        requires stands { Stands (store_of self.old) at }
        requires low { (span_at (store_of self.old) at).height ≤ limit }
        requires older { (span_at (store_of self.old) at).edit < edit }
        requires together { edit_key (store_of self.old) (span_at (store_of self.old) at).edit / 2 ^ limit ≡ edit_key (store_of self.old) edit / 2 ^ limit }
        requires apart { edit_key (store_of self.old) (span_at (store_of self.old) at).edit / 2 ^ (span_at (store_of self.old) at).height ≢ edit_key (store_of self.old) edit / 2 ^ (span_at (store_of self.old) at).height }
        requires tip { IsTip (store_of self.old) edit (rows_of (trie (store_of self.old) tip)) tip }
        requires room { length (rows_of (trie (store_of self.old) at)) < 2 ^ 31 }
        requires fit { AreFit (store_of self.old) }
        ensures ok { IfOk result (IsPut (store_of self.old) (store_of self.new) limit at tip edit) }
        ensures err { OnErr result (GainsSpans (store_of self.old) (store_of self.new)) }
    {
        let old = self.spans[at as usize];
        let key = self.keys[edit as usize];
        let half = parting(self.keys[old.edit as usize], key, old.height, limit);
        if is_lower(key, half) {
            self.join(half, tip, at, edit)
        } else {
            self.join(half, at, tip, edit)
        }
    }

    /// The tree node at `at` with the new one of one key at `tip` in place of the one of that key. All others stay as they are.
    pub fn put(&mut self, limit: u32, at: u32, tip: u32, edit: u32) -> Result<u32, Memory>
        requires limit { limit ≤ 63 }
        requires edit { edit < length self.old.keys.items }
        requires stands { Stands (store_of self.old) at }
        requires low { (span_at (store_of self.old) at).height ≤ limit }
        requires older { (span_at (store_of self.old) at).edit < edit }
        requires together { edit_key (store_of self.old) (span_at (store_of self.old) at).edit / 2 ^ limit ≡ edit_key (store_of self.old) edit / 2 ^ limit }
        requires tip { IsTip (store_of self.old) edit (rows_of (trie (store_of self.old) tip)) tip }
        requires room { length (rows_of (trie (store_of self.old) at)) < 2 ^ 31 }
        requires fit { AreFit (store_of self.old) }
        ensures ok { IfOk result (IsPut (store_of self.old) (store_of self.new) limit at tip edit) }
        ensures err { OnErr result (GainsSpans (store_of self.old) (store_of self.new)) }
    {
        let old = self.spans[at as usize];
        let key = self.keys[edit as usize];
        if prefix(self.keys[old.edit as usize], old.height) != prefix(key, old.height) {
            return self.graft(limit, at, tip, edit);
        }
        if old.height == 0 {
            return Ok(tip);
        }
        let half = old.height - 1;
        if is_lower(key, half) {
            let left = self.put(half, old.left, tip, edit)?;
            self.join(half, left, old.right, edit)
        } else {
            let right = self.put(half, old.right, tip, edit)?;
            self.join(half, old.left, right, edit)
        }
    }
}
