//! Laws of command lines. The function does nothing: what it ensures is the law.
ghost use Rattle.std.specs.Prelude.{◌≡◌, ℕ, List, [], ◌∷◌, None};
ghost use Rattle.command_line.specs.declared.setting.Valued.{Valued};
ghost use Rattle.command_line.specs.Settings.{setting_at};

/// A value that is empty, or begins with a minus sign, is wrong at every option.
pub fn wrong_values()
    ensures empty { (name : Valued) → setting_at name [] ≡ None }
    ensures minus { (name : Valued) (value : List ℕ) → setting_at name (45 ∷ value) ≡ None }
{}
