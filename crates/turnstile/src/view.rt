//! What passes and seats know. No value of these types is made: they stand in proofs alone.
use std::collections::LinkedList;

/// What contracts see of a pass.
pub struct PassView<E> {
    /// The label of the entries that it adds.
    pub label: u32,
    /// The frame of the value that goes round.
    pub frame: LinkedList<u64>,
    /// A beginning of the history, as far as it has seen.
    pub seen: LinkedList<E>,
    /// The entries that it has added.
    pub own: LinkedList<E>,
    /// Whether it has the turn.
    pub turn: bool,
    /// The entries of the value that it took, while it has the turn.
    pub taken: LinkedList<E>,
    /// How many passes it has split off.
    pub splits: u32,
    /// The label and the entries of each pass joined into it, the last one first.
    pub joined: LinkedList<(u32, LinkedList<E>)>,
}

/// What the seat of a pass knows.
pub struct SeatView<E> {
    pub pass: PassView<E>,
    /// Of the lists that two passes had seen when they were joined, the shorter.
    pub shorter: LinkedList<E>,
    /// Whether its pass was joined into another.
    pub spent: bool,
}
