use script_reader::Kind;
use words::Bound;

/// What a query may be answered with: why there is no answer of its kind, or the bound that the weight of the rows has to fit.
#[derive(Drop)]
pub enum Allowed {
    /// The bracket of these two members of the Hall set is too heavy.
    Pair(u32, u32),
    /// The images of words of so many letters are too heavy.
    Level(u32),
    /// All rows whose weight fits.
    Fits(Bound),
}

/// A query over the ticks `from .. to`, both at most 2^32, at a resolution from 0 to 16; of the current version where none is named.
#[derive(Drop)]
pub struct Query {
    pub kind: Kind,
    pub from: u64,
    pub to: u64,
    pub r: u8,
    pub version: Option<u64>,
    pub allowed: Allowed,
}
