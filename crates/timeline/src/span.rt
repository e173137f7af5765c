ghost use Rattle.std.specs.Prelude.{◌≡◌, ◌+◌, ◌*◌, ◌<◌, ◌^◌};
ghost use Rattle.timeline.specs.Stores.{weight_in};
ghost use Rattle.timeline.specs.Puts.{IsSpan};

/// A node of the tree: the places of its halves, and what is in it, of 32 bytes.
/// A node of height 0 stands for one key. It has one row, at the place `right`, or none.
#[derive(Debug, Clone, Copy, PartialEq, Eq, Drop)]
pub struct Span {
    /// The weight of the rows: its last 64 binary digits.
    pub weight_low: u64,
    /// The digits of the weight before them.
    pub weight_high: u32,
    /// The keys that agree with its own but for the last digits, this many.
    pub height: u32,
    /// The place of the half of the lower keys.
    pub left: u32,
    /// The place of the half of the higher keys, or of the row.
    pub right: u32,
    /// The edit that made it: the first is number 0. Its key is that of the edit.
    pub edit: u32,
    /// How many rows are in it.
    pub count: u32,
}

impl Span {
    /// The node with these parts.
    pub fn new(height: u32, left: u32, right: u32, edit: u32, count: u32, weight: u128) -> Span
        requires { weight < 2 ^ 96 }
        ensures { IsSpan result height left right edit count weight }
    {
        Span {
            weight_low: (weight % (1 << 64)) as u64,
            weight_high: (weight / (1 << 64)) as u32,
            height,
            left,
            right,
            edit,
            count,
        }
    }

    /// The weight of the rows.
    pub fn weight(&self) -> u128
        ensures value { result ≡ weight_in self.now }
        ensures bound { result < 2 ^ 96 }
    {
        self.weight_low as u128 + self.weight_high as u128 * (1 << 64)
    }
}
