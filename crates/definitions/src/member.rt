ghost use Rattle.std.specs.Prelude.{◌≡◌};
ghost use Rattle.definitions.specs.Hall.{degree_of, follows, is_pair};
ghost use Rattle.definitions.specs.Order.{precedes};

/// A member of a Hall set: a letter, or the pair of two earlier members, which stands for their bracket.
#[derive(Debug, Clone, Copy, PartialEq, Eq, Drop)]
pub enum Member {
    /// A letter: the one whose number is the member's.
    Letter,
    /// A pair of members by their numbers; its degree is the sum of theirs.
    Pair { degree: u32, left: u32, right: u32 },
}

impl Member {
    /// How many letters it has, counted as often as they stand in it.
    pub fn degree(self) -> u32
        ensures { result ≡ degree_of self }
    {
        match self {
            Member::Letter => 1,
            Member::Pair { degree, .. } => degree,
        }
    }

    /// Whether it may stand right of the member with the number `left`.
    pub fn follows(self, left: u32) -> bool
        ensures { result ≡ follows left self }
    {
        match self {
            Member::Letter => true,
            Member::Pair { left: own, .. } => own <= left,
        }
    }

    /// Whether it is the pair of these two.
    pub fn is_pair(self, i: u32, j: u32) -> bool
        ensures { result ≡ is_pair i j self }
    {
        match self {
            Member::Letter => false,
            Member::Pair { left, right, .. } => i == left && j == right,
        }
    }

    /// Whether it stands before the pair (i, j) of degree n.
    pub fn precedes(self, n: u32, i: u32, j: u32) -> bool
        ensures { result ≡ precedes n i j self }
    {
        match self {
            Member::Letter => true,
            Member::Pair {
                degree,
                left,
                right,
            } => degree < n || (degree == n && (left < i || (left == i && right < j))),
        }
    }
}
