/// A member of a Hall set, by its number, with its coefficient.
#[derive(Debug, Clone, Copy, PartialEq, Eq, Drop)]
pub struct Term {
    pub factor: i128,
    pub number: u32,
}
