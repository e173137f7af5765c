ghost use Rattle.std.specs.Prelude.{◌≡◌, IfOk, string_bytes};

use std::marker::Model;
use std::sync::ArcStr;
use words::Memory;

/// The name of a row, seen as its bytes: in a script 1 to 32 letters, digits and underscores, the first a letter.
/// A name is never changed, so its copies share the bytes.
#[derive(Drop)]
pub struct Name {
    text: ArcStr,
}

impl Model for Name {
    ghost use Rattle.std.specs.Prelude.{ℕ, List};
    ghost use Rattle.std.specs.Arc.{arc_str_bytes};

    ghost Value = { List ℕ };

    ghost view = { λ n. arc_str_bytes n.text };
}

impl Name {
    /// The name that is spelled so.
    pub fn of(text: String) -> Result<Name, Memory>
        ensures { IfOk result (λ name. name ≡ string_bytes text) }
    {
        let text = ArcStr::from_string(text)?;
        Ok(Name { text })
    }

    /// The spelling.
    pub fn text(&self) -> &str
        ensures { result.now ≡ self.now }
    {
        self.text.as_str()
    }

    /// The bytes of the name.
    pub fn list(&self) -> &[u8]
        ensures { result.now ≡ self.now }
    {
        self.text.as_bytes()
    }

    /// An equal name, which shares the bytes of this one.
    pub fn copy(&self) -> Result<Name, Memory>
        ensures { IfOk result (λ name. name ≡ self.now) }
    {
        let text = self.text.clone()?;
        Ok(Name { text })
    }
}
