//! A look that a command asks for.
ghost use Rattle.std.specs.Prelude.{◌≡◌};
ghost use Rattle.session.specs.Play.{asked_by as query_asks};

use script_reader::{Ask, Kind};

/// What the rows of a look are wanted for.
#[derive(Drop)]
pub enum Wanted {
    Signature,
    /// The logarithm of the signature, in Hall coordinates.
    Logarithm,
}

/// What a look asks the book, and what its rows are wanted for.
#[derive(Drop)]
pub struct Asked {
    pub ask: Ask,
    pub wanted: Wanted,
}

/// The look that a query asks for.
pub fn asked_by(ask: &Ask) -> Asked
    ensures { result ≡ query_asks ask.now }
{
    let wanted = match ask.kind {
        Kind::Sig => Wanted::Signature,
        Kind::Log => Wanted::Logarithm,
    };
    Asked { ask: *ask, wanted }
}
