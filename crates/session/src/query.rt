//! What a look asks of the book.
ghost use Rattle.std.specs.Prelude.{◌≡◌, IfOk};
ghost use Rattle.script_reader.specs.Script.{IsAsk};
ghost use Rattle.book.specs.Looks.{IsQuery, AllowsSignatures};
ghost use Rattle.session.specs.Play.{allowed_for as allowed_by_shape, query_for as due_query};

use crate::asked::{Asked, Wanted};
use crate::basis::Basis;
use book::{Allowed, Query};
use lie_bracket::TableFault;
use std::alloc::Global;
use words::{Bound, Memory};

/// Which rows have the value that is wanted.
fn allowed_for(alloc: Global, basis: &Basis, wanted: &Wanted) -> Result<Allowed, Memory>
    ensures value { IfOk result (λ allowed. allowed ≡ allowed_by_shape basis.now wanted.now) }
    ensures signatures { IfOk result (AllowsSignatures basis.now) }
{
    match wanted {
        Wanted::Signature => Ok(Allowed::Fits(Bound::flat(basis.hall().shape()))),
        Wanted::Logarithm => match basis.tables(alloc) {
            Ok(held) => Ok(Allowed::Fits(held.get().dynkin().bound())),
            Err(TableFault::Pair(a, b)) => Ok(Allowed::Pair(a, b)),
            Err(TableFault::Level(k)) => Ok(Allowed::Level(k)),
            Err(TableFault::Memory) => Err(Memory),
        },
    }
}

/// The query of a look.
pub fn query_for(alloc: Global, basis: &Basis, asked: &Asked) -> Result<Query, Memory>
    requires { IsAsk asked.now.ask }
    ensures value { IfOk result (λ q. q ≡ due_query basis.now asked.now) }
    ensures query { IfOk result IsQuery }
    ensures signatures { IfOk result (λ q. AllowsSignatures basis.now q.allowed) }
{
    let ask = &asked.ask;
    Ok(Query {
        kind: ask.kind,
        from: ask.from,
        to: ask.to,
        r: ask.r,
        version: ask.version,
        allowed: allowed_for(alloc, basis, &asked.wanted)?,
    })
}
