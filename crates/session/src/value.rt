//! The value of a signature, as it is asked for.
ghost use Rattle.std.specs.Prelude.{◌≡◌, ℕ, List, IfOk, All};
ghost use Rattle.definitions.specs.Words.{IsShape};
ghost use Rattle.definitions.specs.Signature.{Fits, signature};
ghost use Rattle.definitions.specs.Logarithm.{logarithm};
ghost use Rattle.definitions.specs.Moves.{Parts};
ghost use Rattle.definitions.specs.Rows.{RowValue, moves_of};
ghost use Rattle.tensor_product.specs.Sigs.{StandsFor};
ghost use Rattle.definitions.specs.Hall.{InHall, hall_list};
ghost use Rattle.dynkin_map.specs.Coordinates.{lie_bounds, coordinates};
ghost use Rattle.session.specs.Play.{valued};
ghost use Rattle.session.specs.Answers.{Shows, HasMembers, IsAllowed};

use crate::answer::Answer;
use crate::asked::Wanted;
use crate::basis::Basis;
use book::LookReply;
use dynkin_map::log_signature;
use lie_bracket::TableFault;
use std::alloc::Global;
use tensor_product::Sig;
use words::Memory;

/// The answer with this reply, from the signature of the rows, which have the value that is wanted.
pub fn answer_of(
    alloc: Global,
    basis: &Basis,
    wanted: &Wanted,
    reply: LookReply,
    sig: &Sig,
) -> Result<Answer, Memory>
    requires extent { sig.now.tensor.extent ≡ basis.now }
    requires allowed { IsAllowed basis.now wanted.now sig.now.weight }
    ensures shows { (rows : List RowValue) → StandsFor sig.now (moves_of rows) → IfOk result (λ answer. Shows basis.now answer (valued basis.now wanted.now reply rows)) }
    ensures members { IfOk result (HasMembers basis.now) }
{
    match wanted {
        Wanted::Signature => Ok(Answer::Sig {
            reply,
            tensor: sig.copy(alloc)?.into_tensor(),
        }),
        Wanted::Logarithm => match basis.tables(alloc) {
            Ok(held) => Ok(Answer::Log {
                reply,
                lie: log_signature(alloc, held.get().dynkin(), sig)?,
            }),
            Err(TableFault::Memory) => Err(Memory),
            Err(TableFault::Pair(_, _) | TableFault::Level(_)) => unreachable!(),
        },
    }
}
