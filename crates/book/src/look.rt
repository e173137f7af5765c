use solve::Work;

/// What a look gives: the work of its answer, or why there is none.
#[derive(Drop)]
pub enum Look {
    Work(Work),
    /// There is no version of the named number: the current one.
    NoVersion(u64),
    /// The bracket of these two members of the Hall set is too heavy.
    Pair(u32, u32),
    /// The images of words of so many letters are too heavy.
    Level(u32),
    /// The rows don't fit: their weight.
    Overflow(u128),
}
