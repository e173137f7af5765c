//! What a command line wishes.
ghost use Rattle.std.specs.Prelude.{◌≡◌};

use std::marker::Model;
use words::Capacity;

/// How answers are written.
#[derive(Debug, Clone, Copy, PartialEq, Eq, Drop)]
pub enum Form {
    /// Lines of text.
    Text,
    /// One line of JSON.
    Json,
}

/// An order: the number of the session that takes each step.
#[derive(Drop)]
pub struct OrderList {
    sessions: Vec<u32>,
}

impl Model for OrderList {
    ghost use Rattle.std.specs.Prelude.{ℕ, List};

    ghost Value = { List ℕ };

    ghost view = { λ o. o.sessions.items };
}

impl OrderList {
    /// The order of these numbers.
    pub fn of(sessions: Vec<u32>) -> OrderList
        ensures { result ≡ sessions.items }
    {
        OrderList { sessions }
    }

    /// The numbers.
    pub fn list(&self) -> &[u32]
        ensures { result.now ≡ self.now }
    {
        &self.sessions
    }
}

/// What a command line wishes.
#[derive(Drop)]
pub enum Wish {
    /// Nothing: the words are refused.
    Refused,
    /// The generated script of `n` commands, run with a cache of this capacity, its sessions in turn, and its summary.
    Gen {
        n: u32,
        capacity: Capacity,
    },
    /// The script that is read, on one thread and in this order.
    Given {
        order: OrderList,
        capacity: Capacity,
        form: Form,
    },
    /// The script that is read, with a thread for each session.
    Threads {
        capacity: Capacity,
        form: Form,
    },
    /// The product of the exponentials of the elements that are read.
    Cbh,
}
