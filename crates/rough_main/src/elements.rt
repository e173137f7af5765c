//! The reply to a list of elements: the logarithm of the product of their exponentials.
ghost use Rattle.std.specs.Prelude.{◌≡◌, All, IfOk, OnOk};
ghost use Rattle.definitions.specs.Moves.{IsMove};
ghost use Rattle.cbh_calc.specs.Elements.{moves_in};
ghost use Rattle.answers.specs.CbhText.{HasNumbers};
ghost use Rattle.rough_main.specs.Statuses.{code_of};
ghost use Rattle.rough_main.specs.Elements.{product_due, list_text, ListExpands, ProductExpands};
ghost use Rattle.rough_main.specs.Due.{elements_reply, IsReply};

use crate::fault_text::refusal;
use crate::reply::Reply;
use crate::status::Status;
use answers::{CbhResult, cbh_text};
use basis_cell::Tables;
use cbh_calc::{CbhFault, MoveList, cbh, read_moves};
use hall_set::HallSet;
use lie_bracket::TableFault;
use std::alloc::Global;
use words::{Memory, Move, Shape};

/// The logarithm of the product of the exponentials of moves in coordinates, or the weight of moves that don't fit.
fn logarithm_of(alloc: Global, tables: &Tables, moves: &[Move]) -> Result<CbhResult, Memory>
    requires { All (IsMove tables.now) moves.now }
    ensures due { IfOk result (λ reply. reply ≡ product_due tables.now moves.now) }
    ensures numbers { IfOk result (HasNumbers tables.now) }
{
    match cbh(alloc, tables.hall(), tables.dynkin(), moves) {
        Ok(lie) => Ok(CbhResult::Lie(lie)),
        Err(CbhFault::Overflow(weight)) => Ok(CbhResult::Overflow(weight)),
        Err(CbhFault::Memory) => Err(Memory),
    }
}

/// The same of moves of a shape, or why it has no tables.
fn product_of(alloc: Global, shape: Shape, moves: &[Move]) -> Result<CbhResult, Memory>
    requires { All (IsMove shape) moves.now }
    ensures due { IfOk result (λ reply. reply ≡ product_due shape moves.now) }
    ensures numbers { IfOk result (HasNumbers shape) }
{
    match Tables::build(alloc, shape) {
        Ok(tables) => logarithm_of(alloc, &tables, moves),
        Err(TableFault::Pair(a, b)) => Ok(CbhResult::Pair(a, b)),
        Err(TableFault::Level(k)) => Ok(CbhResult::Level(k)),
        Err(TableFault::Memory) => Err(Memory),
    }
}

/// The reply to a list of elements.
fn reply_to_list(alloc: Global, list: MoveList) -> Result<Reply, Memory>
    requires { All (IsMove list.shape) list.moves.items }
    ensures reply { IfOk result (λ reply. (code_of reply.status ≡ 0) × (reply.text.items ≡ list_text (record { extent = list.shape; moves = list.moves.items }))) }
    ensures expands { OnOk result (ListExpands (record { extent = list.shape; moves = list.moves.items })) }
{
    let shape = list.shape;
    let _depth = shape.depth();
    let count = list.moves.len() as u64;
    let product = product_of(alloc, shape, &list.moves)?;
    let hall = HallSet::build(alloc, shape)?;
    Ok(Reply {
        status: Status::Answered,
        text: cbh_text(alloc, shape, count, &product, &hall)?,
    })
}

/// The reply to bytes that spell a list of elements, or their fault.
pub fn reply_to_elements(alloc: Global, bytes: &[u8]) -> Result<Reply, Memory>
    ensures reply { IfOk result (λ reply. IsReply (code_of reply.status) reply.text.items (elements_reply (moves_in bytes.now))) }
    ensures expands { OnOk result (ProductExpands (moves_in bytes.now)) }
{
    match read_moves(alloc, bytes) {
        Ok(list) => reply_to_list(alloc, list),
        Err(fault) => refusal(alloc, fault),
    }
}
