ghost use Rattle.std.specs.Prelude.{◌≡◌};
ghost use Rattle.script_reader.specs.Forms.{keyword_of};

/// The first word of a content line.
#[derive(Debug, Clone, Copy, PartialEq, Eq, Drop)]
pub enum Keyword {
    Shape,
    Session,
    Watch,
    Append,
    Correct,
    Remove,
    Sig,
    Log,
    Parts,
}

/// The keyword that this word is.
pub(crate) fn keyword_of(word: &[u8]) -> Option<Keyword>
    ensures { result ≡ keyword_of word.now }
{
    match word {
        b"shape" => Some(Keyword::Shape),
        b"session" => Some(Keyword::Session),
        b"watch" => Some(Keyword::Watch),
        b"append" => Some(Keyword::Append),
        b"correct" => Some(Keyword::Correct),
        b"remove" => Some(Keyword::Remove),
        b"sig" => Some(Keyword::Sig),
        b"log" => Some(Keyword::Log),
        b"parts" => Some(Keyword::Parts),
        _ => None,
    }
}
